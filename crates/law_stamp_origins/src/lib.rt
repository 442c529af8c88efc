//! How stamps come to servers, in runs with administrators. No code runs in it.
#![tactic(auto)]

pub mod laws;
