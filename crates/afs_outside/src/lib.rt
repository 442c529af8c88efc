//! What a program reads from and writes to: sources and sinks, those over the standard streams, and those in memory.
#![tactic(auto)]

pub mod buffered;
pub mod memory;
pub mod outside;
pub mod piece;
