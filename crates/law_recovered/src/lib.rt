//! Where a recovery ends, the volume has no copy but at the server that the location database names. No code runs in it.
#![tactic(auto)]

pub mod laws;
