//! Items by ascending numbers.
#![tactic(auto)]

mod seats;

pub use seats::Seats;
