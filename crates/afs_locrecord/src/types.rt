//! What a record of the location database says.

pub use crate::bodies::LocRecord;
pub use crate::deeds::{Body, Deed};
use afs_num::location_calls::LocEntry;
use afs_num::sequences::Sequence;
use std::marker::Model;

/// The lock of an entry: for which operation it is held, under which stamp, and whether it was taken by force.
#[derive(Drop)]
pub struct Lock {
    pub operation: u32,
    pub stamp: u32,
    pub forced: bool,
}

impl Model for Lock {
    ghost use Rattle.spec_records.specs.LocRecords.{Lock};

    ghost Value = { Lock };

    ghost view = { λ l. record { operation = l.operation; stamp = l.stamp; forced = l.forced } };
}

/// An entry, and its lock, if it is held.
#[derive(Drop)]
pub struct Listed {
    pub entry: LocEntry,
    pub lock: Option<Lock>,
}

impl Model for Listed {
    ghost use Rattle.spec_records.specs.LocRecords.{Listed};

    ghost Value = { Listed };

    ghost view = { λ l. record { entry = l.entry; lock = l.lock } };
}

/// Entries with their locks.
pub type AllListed = Sequence<Listed>;

/// What a record does with the entries: it sets one with its lock, in the place of the one of its number or as a new one; it
/// removes one; or it leaves them, and draws a number alone.
#[derive(Drop)]
pub enum Doing {
    Sets(Listed),
    Removes(LocEntry),
    Leaves,
}
