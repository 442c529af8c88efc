//! What the database's disk keeps, in memory.

use crate::entries::Entries;
pub use crate::kept::{KeptReplies, KeptReply};

/// The boot number, the entries, the volume number and the stamp that will be drawn next, and the kept replies.
#[derive(Drop)]
pub struct State {
    pub boot: u32,
    pub entries: Entries,
    pub next_id: u32,
    pub next_stamp: u32,
    pub kept: KeptReplies,
}
