//! Clones of volumes, and dumps of them, as definitions and laws: how a dump is spelled and read, and what is restored from it. No
//! code runs in it.
#![tactic(auto)]

pub mod laws;
