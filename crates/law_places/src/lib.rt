//! Where volumes accept stores, whatever administrators do: as a history tells it, and as the servers of a cell have it. No code runs in it.
#![tactic(auto)]

pub mod laws;
