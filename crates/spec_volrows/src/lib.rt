//! The rows of a volume server and of the file server beside it, as definitions and laws. No code runs in it.
#![tactic(auto)]

pub mod laws;
