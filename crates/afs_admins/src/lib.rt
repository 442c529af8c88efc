//! The administrators of a cell in their places: what each is given, and what comes of it. None of it needs a server, or a disk.
#![tactic(auto)]

pub mod admins;
mod copies;
pub mod giving;
pub mod setup;
