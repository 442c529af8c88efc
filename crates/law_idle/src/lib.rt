//! Cells whose administrators begin no act and are given nothing: they do what cells without administrators do. No code runs in it.
#![tactic(auto)]

pub mod laws;
