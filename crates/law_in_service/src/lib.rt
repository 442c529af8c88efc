//! Where a recovery ends, the server that the location database names accepts stores of the volume, and no other does. No code runs in it.
#![tactic(auto)]

pub mod laws;
