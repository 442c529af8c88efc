//! What is decided on a call of a volume server by its verdict: what is answered, sent or written.
#![tactic(auto)]

pub mod answers;
pub mod decided;
