//! What a change does, and what a record says.

use crate::types::{AllListed, Doing};
use std::marker::Model;

/// A deed: what a record does with the entries.
#[derive(Drop)]
pub struct Deed {
    pub doing: Doing,
}

impl Model for Deed {
    ghost use Rattle.spec_records.specs.LocRecords.{EntryDeed};
    ghost use Rattle.afs_locrecord.specs.Deeds.{deed_of};

    ghost Value = { EntryDeed };

    ghost view = { λ d. deed_of d.doing };
}

/// Set-up has all entries, a start its boot number, a change its deed. Set-up and a change have the next volume number and the
/// next stamp besides, as they are then.
#[derive(Drop)]
pub enum Body {
    First {
        entries: AllListed,
        next_id: u32,
        next_stamp: u32,
    },
    Boot {
        boot: u32,
    },
    Database {
        deed: Deed,
        next_id: u32,
        next_stamp: u32,
    },
}
