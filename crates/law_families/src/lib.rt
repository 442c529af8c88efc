//! Families of volumes, in runs with administrators: a read-write volume's family has its own number. No code runs in it.
#![tactic(auto)]

pub mod laws;
