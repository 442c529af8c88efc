//! Which calls run at servers and at the location database, whatever administrators do: each at most once. No code runs in it.
#![tactic(auto)]

pub mod laws;
