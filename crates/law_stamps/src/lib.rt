//! The stamps under which administrators act: as servers store them, as transactions have them, and as the location database draws them. No
//! code runs in it.
#![tactic(auto)]

pub mod laws;
