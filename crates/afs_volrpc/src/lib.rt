//! The calls of the volume server, as bytes and as values: each has one spelling, and bytes that are none are refused
//! with the first fault. Numbers and fields are this project's profile of the AFS-3 Programmer's Reference, Volume
//! Server/Volume Location Server Interface.
#![tactic(auto)]

pub mod calls;
pub mod laws;
pub mod replies;
pub mod tables;
