//! The volumes of a server in memory, and what the records of a volume server do to them.
#![tactic(auto)]

pub mod deed;
mod doing;
mod finding;
pub mod shelf;
pub mod shelves;
pub mod telling;
