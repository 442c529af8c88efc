//! What becomes of the breaks that servers owe, as a history tells it. No code runs in it.
#![tactic(auto)]

pub mod laws;
