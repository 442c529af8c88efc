//! Vnodes: their images on a disk, and the vnodes of a volume by their numbers.
#![tactic(auto)]

pub mod copying;
pub mod faults;
pub mod images;
pub mod laws;
mod sorted;
pub mod store;
