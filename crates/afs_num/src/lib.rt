//! The base types of the cell: what its nodes, calls and histories are made of.
#![tactic(auto)]

pub mod acls;
pub mod calls;
pub mod devices;
pub mod directories;
pub mod faults;
pub mod histories;
pub mod keyed;
pub mod location_calls;
pub mod messages;
pub mod names;
mod octets;
pub mod records;
pub mod scripts;
pub mod sequences;
mod short;
pub mod types;
pub mod vnodes;
pub mod volume_calls;
pub mod volumes;
