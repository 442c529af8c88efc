//! The grammar of scripts: which bytes are one, and what it says.
#![tactic(auto)]

mod acts;
mod events;
pub mod forms;
pub mod ground;
pub mod laws;
mod lines;
mod reader;
mod spellings;
mod turns;
mod volumes;

pub use afs_words::faults::ScriptFault;
pub use reader::read_script;
