//! The sites of read-only volumes: which of them an act hasn't left, which releases a client has seen, and what a reply of a site offers.
#![tactic(auto)]

mod offers;
mod releases;
mod rounds;
mod second;

pub use offers::{Offered, offer_in};
pub use releases::Releases;
pub use rounds::{Round, round_for};
pub use second::forgotten;
