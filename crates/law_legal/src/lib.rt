//! The law of the cell: which histories are legal, and that every run of its nodes is. What the nodes do is in `spec_rows`.
#![tactic(auto)]

pub mod laws;
