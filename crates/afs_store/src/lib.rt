//! One durable store: a state in memory, and the records on a disk that make it. A disk is attached record by record; a record
//! is made ready, which takes all memory, and committed.
#![tactic(auto)]

pub mod beginning;
mod committing;
mod fold;
mod fused;
mod opening;
mod replaying;
mod rereading;
mod store;
mod taking_up;

pub use fold::{Fold, Unfit};
pub use store::Store;
