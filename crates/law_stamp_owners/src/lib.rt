//! The stamps under which administrators act: whose each is, and who sends calls under it. No code runs in it.
#![tactic(auto)]

pub mod laws;
