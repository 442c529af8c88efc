//! Clones of volumes: a new one, and one that is made anew.
#![tactic(auto)]

mod clones;

pub use clones::{clone_of, reclone};
