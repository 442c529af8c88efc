//! The courses of administrators' acts: what was asked under each number of their calls, and why. No code runs in it.
#![tactic(auto)]

pub mod laws;
