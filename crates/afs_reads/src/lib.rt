//! The reading calls on a volume: who calls, the rights, the tests and the replies.
#![tactic(auto)]

mod bulk;
pub mod callers;
pub mod checks;
pub mod faults;
pub mod finding;
mod reading;
pub mod replies;
pub mod rights;

pub use reading::read;
