//! What a volume server decides on a call, by its transactions and by the volumes that the call is on. Nothing here knows of a disk.
#![tactic(auto)]

pub mod replies;
pub mod transactions;
pub mod verdicts;
