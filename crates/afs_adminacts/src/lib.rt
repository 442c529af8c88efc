//! Moves and releases, each a machine of places: what is asked at a place, and where an answer leads; and the acts of administrators over
//! all machines. What each asks is that of the command of `vos` of its name, by the calls of the Volume Server / Volume Location Server
//! Interface (AFS-3 Programmer's Reference).
#![tactic(auto)]

pub mod acts;
pub mod moving;
pub mod releasing;
pub mod visiting;
