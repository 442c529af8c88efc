//! The disks of a cell's location database and servers are lent, those of the servers told of behind a history, and all given back. None of it needs a cell.
#![tactic(auto)]

mod lending;
pub mod telling;

pub use lending::{give_back, give_back_all, lend_all};
