//! Walks over the runs of a cell with administrators: what is shown of each kind of step holds of every run; and what nodes send and keep. No
//! code runs in it.
#![tactic(auto)]

pub mod laws;
