//! The file server: what it does with a message, at a timeout, as time passes, and as it begins again. Each is a step of its
//! row, over the store of its disk.
#![tactic(auto)]

mod answering;
mod closing;
mod deciding;
mod doing;
mod ending;
mod handling;
mod hearing;
pub mod laws;
mod node;
mod putting;
mod server;
mod several;
mod showing;
mod waiting;

pub use server::FileServer;
