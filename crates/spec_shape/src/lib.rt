//! Kinds of the fields of messages, how a field of each kind is spelled, and the laws of that.
#![tactic(auto)]

pub mod faults;
pub mod kinds;
pub mod laws;
