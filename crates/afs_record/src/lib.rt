//! The records of a server's journal: each written as its bytes, and read from them.
#![tactic(auto)]

pub mod faults;
pub mod forms;
pub mod heads;
pub mod lists;
pub mod records;
mod tables;
mod volumes;
