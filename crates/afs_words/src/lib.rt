//! The words of a script's lines, read from left to right.
#![tactic(auto)]

pub mod bytes;
pub mod faults;
pub mod names;
pub mod nodes;
pub mod parts;
pub mod words;
