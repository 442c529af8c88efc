//! Whole messages of all three interfaces, as bytes and as values: what a node receives in the bytes that it is given,
//! and what it sends.
#![tactic(auto)]

pub mod cell;
pub mod messages;
pub mod spelled;
