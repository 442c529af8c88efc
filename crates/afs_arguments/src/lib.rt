//! The words behind the program's name, as `clap` reads them.
#![tactic(auto)]

pub mod arguments;
