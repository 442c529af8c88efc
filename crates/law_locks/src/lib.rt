//! What acts have locked: each stamp was drawn for the entry of its volume, and a lock is the last of its entry. No code runs in it.
#![tactic(auto)]

pub mod laws;
