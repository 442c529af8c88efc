//! The script that is made for a number: a cell of three servers, six clients and an administrator, and what they do, drawn by lot.
#![tactic(auto)]

pub mod generate;
pub mod laws;
