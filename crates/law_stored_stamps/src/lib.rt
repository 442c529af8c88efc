//! What administrators bring to all servers before they change a volume: the stamps of their acts. No code runs in it.
#![tactic(auto)]

pub mod laws;
