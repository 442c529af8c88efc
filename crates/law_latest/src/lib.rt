//! The order of changes, as a history tells them. No code runs in it.
#![tactic(auto)]

pub mod laws;
