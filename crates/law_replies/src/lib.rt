//! What file servers answer to clients is what they decided. No code runs in it.
#![tactic(auto)]

pub mod laws;
