//! The changing calls on a volume: what each is to do, and the change that it makes.
#![tactic(auto)]

mod amending;
pub mod applying;
pub mod creating;
pub mod drafting;
mod drawing;
pub mod edits;
pub mod finding;
pub mod limits;
pub mod making;
mod naming;
pub mod operations;
pub mod planning;
mod removing;
mod renaming;
mod sights;

pub use applying::{apply, apply_ready};
