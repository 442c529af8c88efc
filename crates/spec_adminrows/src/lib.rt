//! Acts of administrators: where each can stand, what is asked there, and where an answer leads; and the row of an administrator, all as
//! definitions over the types that are declared here.
#![tactic(auto)]

pub mod places;
pub mod turns;
