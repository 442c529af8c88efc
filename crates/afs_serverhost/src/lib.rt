//! A server node as a node of a cell with its disk: what it is given, how it goes down, and how it begins again. Each call is the step of its
//! host.
#![tactic(auto)]

pub mod seats;
pub mod server;
pub mod serving;
pub mod starting;

pub use seats::{ServerRunning, ServerSeat};
