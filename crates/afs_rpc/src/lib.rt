//! Calls and replies of any interface, as bytes and as values, by the tables of their rows: a header of eight words, then
//! the user of a call or the code of a reply, then the fields. Each has one spelling, and bytes that are none are refused
//! with the first fault.
#![tactic(auto)]

pub mod calls;
pub mod heads;
pub mod replies;
