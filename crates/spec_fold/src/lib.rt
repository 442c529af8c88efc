//! The fold of all records of a server, as definitions and laws: those of its file server and those of its volume server. And what
//! each record tells. No code runs in it.
#![tactic(auto)]

pub mod laws;
