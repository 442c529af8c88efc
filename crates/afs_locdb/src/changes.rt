//! What a call changes.

use afs_locrecord::types::Deed;
use afs_num::location_calls::LocReply;
use std::marker::Model;

/// What a call does with the entries, the next volume number and the next stamp behind it, and what it is answered.
#[derive(Drop)]
pub struct LocChange {
    pub deed: Deed,
    pub next_id: u32,
    pub next_stamp: u32,
    pub reply: LocReply,
}

impl Model for LocChange {
    ghost use Rattle.spec_rows.specs.LocRow.{LocChange};

    ghost Value = { LocChange };

    ghost view = { λ c. record { deed = c.deed; next_id = c.next_id; next_stamp = c.next_stamp; reply = c.reply } };
}
