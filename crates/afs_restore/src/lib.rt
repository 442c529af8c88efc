//! Volumes that are restored from dumps, which may come in pieces.
#![tactic(auto)]

mod faults;
mod fields;
mod headers;
mod images;
mod parts;
mod reading;
mod restorer;
mod restoring;
mod steps;
mod stops;

pub use faults::DumpFault;
pub use restorer::{Restorer, restore};
