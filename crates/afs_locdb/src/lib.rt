//! The location database as a node of the cell: who asks it what, what it answers, and what it keeps.
#![tactic(auto)]

mod answering;
pub mod changes;
pub mod creating;
mod database;
mod decided;
pub mod deciding;
mod forms;
mod fused;
mod handling;
pub mod operations;
mod restarting;
mod saving;

pub use database::LocDb;
