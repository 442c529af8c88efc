//! What a file server decides on a call, by its volume and by the call itself. Nothing here knows of a disk.
#![tactic(auto)]

pub mod decided;
pub mod deciding;
pub mod several;
