//! The wire: the messages that were sent, each at its place.
#![tactic(auto)]

mod wire;

pub use wire::Wire;
