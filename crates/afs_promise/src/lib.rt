//! The promises of a file server, and the breaks that it owes.
#![tactic(auto)]

mod by_client;
mod grants;
mod holding;
mod latest;
mod log;
mod owed;
mod promises;
mod types;

pub use owed::{OwedBreaks, OwedList};
pub use promises::Promises;
pub use spec_breaks::types::{OwedBreak, Promise};
