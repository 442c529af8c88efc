//! The runs of cells, as definitions and laws. No code runs in it.
#![tactic(auto)]

pub mod laws;
