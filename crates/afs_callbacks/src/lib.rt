//! What a file server plans in a step with its promises, the breaks that it owes, its own calls and the replies that wait for
//! them, before anything is changed; and what it then changes of them. Nothing here knows of a volume or of a disk.
#![tactic(auto)]

pub mod answering;
pub mod besides;
mod callbacks;
mod hearing;
pub mod restoring;
pub mod saving;
mod showing;
mod waiting;

pub use callbacks::Callbacks;
