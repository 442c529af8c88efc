//! Tests of the shapes, of the calls and replies of all three interfaces, and of their bytes.
#![tactic(auto)]

#[cfg(test)]
mod fields;
#[cfg(test)]
mod interfaces;
#[cfg(test)]
mod messages;
#[cfg(test)]
mod samples;
#[cfg(test)]
mod tables;
