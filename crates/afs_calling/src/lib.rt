//! What a client and an administrator have in common as callers: the numbers of calls, the boot numbers of the nodes that they call, and
//! what a step of theirs gives out.
#![tactic(auto)]

pub mod boots;
pub mod messages;
pub mod opcodes;
