//! The schedule of a script: the events that are left, with each drain as its deliveries, and what each client and each
//! administrator has not begun.
#![tactic(auto)]

mod plans;
mod schedule;

pub use plans::Plan;
pub use schedule::Schedule;
