//! What a history counts, and the summary that tells it.
#![tactic(auto)]

pub mod counts;
pub mod laws;
pub mod summary;
