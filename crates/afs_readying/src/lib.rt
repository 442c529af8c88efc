//! Records are made ready for a server's volumes: what can fail comes before anything is done.
#![tactic(auto)]

mod copying;
mod deeds;
pub mod prepared;
pub mod readying;
