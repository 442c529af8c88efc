//! What the file server and the volume server of a node do alike over the store that they share.
#![tactic(auto)]

pub mod answering;
pub mod committing;
pub mod drawing;
pub mod restoring;
