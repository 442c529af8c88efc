//! The set-up of a server's disk: the volumes that it lays, their first record, and the store that is made of it.
#![tactic(auto)]

mod creating;
mod laying;

pub use creating::create;
pub use laying::first_length;
