//! Access lists: who has which rights in a directory.
#![tactic(auto)]

pub mod acl;
pub mod faults;
pub mod laws;
mod reading;
mod stops;
pub mod walking;
