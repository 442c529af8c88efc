//! What the transactions of volume servers are on, and who asked for them, in runs with administrators. No code runs in it.
#![tactic(auto)]

pub mod laws;
