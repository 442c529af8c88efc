//! What is so of every run of a script, whatever was played of it: all laws in one place. No code runs in it.
#![tactic(auto)]

pub mod laws;
