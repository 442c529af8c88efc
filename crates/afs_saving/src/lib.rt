//! What the step of a node does to the disk of its store, whatever records it keeps there; and the callers that a node has again by the
//! replies that its store keeps for them.
#![tactic(auto)]

pub mod restoring;
