//! What the acts of administrators have in common: of whom something is asked, what is written into entries, where failures lead, and the
//! survey of all servers with which a move, a removal and a recovery begin.
#![tactic(auto)]

pub mod asking;
pub mod copies;
pub mod entries;
pub mod surveying;
pub mod turning;
