//! The records of the location database's journal: each written as its bytes, and read from them.
#![tactic(auto)]

pub mod bodies;
pub mod copying;
pub mod deeds;
mod entries;
pub mod records;
mod tables;
pub mod types;
