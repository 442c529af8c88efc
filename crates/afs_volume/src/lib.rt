//! Volumes: what a file server keeps of one, and what a change makes of it.
#![tactic(auto)]

mod assembling;
pub mod bodies;
mod copying;
pub mod directories;
pub mod faults;
pub mod finding;
mod listed;
mod naming;
mod new;
mod ready;
mod shown;
mod soundness;
pub mod standing;
mod taking;
mod versions;
mod volume;

pub use finding::is_directory;
pub use listed::ReadyNames;
pub use ready::ReadyChange;
pub use volume::Volume;
