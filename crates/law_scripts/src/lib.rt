//! What a script that was read gives the cell that plays it, as laws. No code runs in it.
#![tactic(auto)]

pub mod laws;
