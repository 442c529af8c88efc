//! Tests of bytes that are no directory, no access list and no vnode: where each is bad was worked out by hand.
#![tactic(auto)]

#[cfg(test)]
mod acls;
#[cfg(test)]
mod dirs;
#[cfg(test)]
mod vnodes;
