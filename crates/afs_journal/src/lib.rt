//! A journal: records on a disk, each of them on it before it is acknowledged, whatever the disk does.
#![tactic(auto)]

mod found;
mod fused;
mod journal;
mod mend;
mod opening;
mod put;
mod scan;
mod spelling;

pub use found::Found;
pub use journal::Journal;
