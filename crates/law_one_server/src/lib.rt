//! Read-write volumes are in service at one server at most: what acts know of them, and what follows. No code runs in it.
#![tactic(auto)]

pub mod laws;
