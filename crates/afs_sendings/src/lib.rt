//! What a volume server plans with its own calls, which carry dumps to other servers piece by piece; and its replies that wait for breaks.
#![tactic(auto)]

pub mod held;
pub mod pieces;
pub mod sendings;
