//! Where read-write volumes are deleted: what acts know of it, and what follows. No code runs in it.
#![tactic(auto)]

pub mod laws;
