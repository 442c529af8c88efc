//! What servers change, as a history tells it: the operations of the ideal cell. No code runs in it.
#![tactic(auto)]

pub mod laws;
