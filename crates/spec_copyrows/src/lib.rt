//! The row of clients that choose among the sites of read-only volumes, as definitions and laws. No code runs in it.
#![tactic(auto)]

pub mod laws;
