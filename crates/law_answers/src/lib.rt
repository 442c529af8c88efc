//! The answers of administrators and their causes, as a history tells them. No code runs in it.
#![tactic(auto)]

pub mod laws;
