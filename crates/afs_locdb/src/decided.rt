//! What can be decided on a call.

use crate::changes::LocChange;
use afs_message::spelled::SpelledMessage;
use afs_num::location_calls::LocReply;

/// What is decided on a call.
#[derive(Drop)]
pub enum Decided {
    Drops,
    TellsBoot,
    Repeats(SpelledMessage),
    Refuses(i32),
    Shows(LocReply),
    Saves(LocChange),
}
