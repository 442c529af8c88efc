//! New volumes: the location database gives each number to one call, makes the entry of each volume once, and none that was removed again. No
//! code runs in it.
#![tactic(auto)]

pub mod laws;
