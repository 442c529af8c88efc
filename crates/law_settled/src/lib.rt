//! How the breaks that servers owe are settled, and that each is owed and ends once, as a history tells it. No code runs in it.
#![tactic(auto)]

pub mod laws;
