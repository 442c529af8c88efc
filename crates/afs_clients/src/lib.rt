//! The clients of a cell in their places: what each is given, and what comes of it. Also what an event of a schedule gives to a node,
//! and how a node's step is told. None of it needs a server, or a disk.
#![tactic(auto)]

pub mod clients;
pub mod events;
pub mod giving;
pub mod happening;
pub mod places;
pub mod setup;
pub mod telling;
