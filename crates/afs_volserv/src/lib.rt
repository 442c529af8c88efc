//! A volume server: what it decides on a call, and what it does with a message, at a timeout, and as it begins again. It stands beside a
//! file server over one store, and shares promises and owed breaks with it.
#![tactic(auto)]

mod answering;
mod deciding;
mod ending;
mod forwarding;
mod handling;
mod holding;
mod looking;
mod node;
mod saving;
mod server;

pub use server::VolServer;
