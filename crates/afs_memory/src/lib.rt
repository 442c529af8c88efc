//! What a server's disk keeps, in memory, and what a record does to it.
#![tactic(auto)]

mod lines;
pub mod memory;
pub mod redo;
pub mod redoing;
mod state;
