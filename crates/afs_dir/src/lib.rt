//! Directories: names in byte order, each with the vnode that it names.
#![tactic(auto)]

mod dir;
mod faults;
mod listing;
mod places;
mod reading;
mod spelling;
mod splicing;

pub use dir::Dir;
pub use faults::DirFault;
pub use listing::Listing;

/// How many names a directory has at most.
pub(crate) const MOST_NAMES: u32 = 1024;
