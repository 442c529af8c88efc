//! Read-write volumes come into service only where they belong, and alone: line by line of a history. No code runs in it.
#![tactic(auto)]

pub mod laws;
