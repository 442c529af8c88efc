//! What users ask of a cell, and what is told of its runs: acts, scripts, and the lines of histories.
#![tactic(auto)]

pub mod acts;
pub mod lines;
pub mod orders;
pub mod scripts;
pub mod written;
