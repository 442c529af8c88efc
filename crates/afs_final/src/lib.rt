//! What the disks of a cell's servers keep at the end of a run, and the text that tells it.
#![tactic(auto)]

mod reading;
mod telling;

pub use reading::{Left, disk_in, fault_in, read_disk, read_store};
pub use telling::{Kept, put_final, told_of};
