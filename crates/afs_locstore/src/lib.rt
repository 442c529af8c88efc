//! What the location database keeps: its entries, found by their numbers and by their names, its counters, its boot number and
//! the replies that outlive it; in memory, and on a disk as the records that made it.
#![tactic(auto)]

mod attaching;
pub mod entries;
pub mod held;
pub mod index;
pub mod kept;
pub mod laws;
pub mod memory;
pub mod placed;
pub mod ready;
mod readying;
mod state;
