//! The numbers of new volumes, in runs with administrators: those of families were drawn before, and a read-only volume has another number
//! than its family. No code runs in it.
#![tactic(auto)]

pub mod laws;
