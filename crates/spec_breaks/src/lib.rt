//! Promises of a file server, and the breaks that it owes: what they are, and what becomes of them. The lists themselves
//! are kept by `afs_promise`.
#![tactic(auto)]

pub mod types;
