//! Words and opaques of XDR (RFC 4506, sections 4.2 and 4.10): big-endian words, and counted bytes with zero bytes
//! up to a multiple of four. Each value has one spelling.
#![tactic(auto)]

pub mod faults;
pub mod reading;
pub mod writing;
