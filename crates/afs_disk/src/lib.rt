//! Disks that can stop at any byte: what each device call does, what a crash may leave, disks in memory, behind a fuse
//! and in a file, and who lends them.
#![tactic(auto)]

pub mod bank;
mod counts;
pub mod disk;
pub mod disks;
pub mod file;
pub mod fuse;
pub mod host;
mod medium;
pub mod memory;
pub mod memory_bank;
mod past;

pub use bank::{Bank, Lend, LendFault, Place};
pub use disk::Disk;
pub use disks::{Disks, Lent};
pub use file::FileDisk;
pub use fuse::Fuse;
pub use host::{HostBank, HostDisk};
pub use memory::MemDisk;
pub use memory_bank::{Given, MemBank};
