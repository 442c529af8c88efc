//! Changes that a disk tells: whether a volume can take one in is found out by what it leaves.
#![tactic(auto)]

mod altering;
mod patching;

pub use altering::changed;
