//! What a record says, ready to be done.

use crate::placed::Placed;
use afs_num::location_calls::LocEntry;
use afs_num::records::RecordHead;
use afs_num::sequences::{Octets, Sequence};

/// What the entries are after it: these of set-up; one is set; one goes; or they stay. Or the database starts with this boot number.
#[derive(Drop)]
pub enum Redo {
    First {
        placed: Sequence<Placed>,
        next_id: u32,
        next_stamp: u32,
    },
    Boot {
        boot: u32,
    },
    Sets {
        placed: Placed,
        next_id: u32,
        next_stamp: u32,
    },
    Removes {
        entry: LocEntry,
        next_id: u32,
        next_stamp: u32,
    },
    Leaves {
        next_id: u32,
        next_stamp: u32,
    },
}

/// A record that the next commit puts on the disk: its bytes, its head, and what it says.
#[derive(Drop)]
pub struct Ready {
    pub bytes: Octets,
    pub head: RecordHead,
    pub redo: Redo,
}
