//! The calls of the Volume Location Interface and their replies. Numbers and fields are this profile's own.

use crate::sequences::{Octets, Sequence};

/// A server of a family's volumes, 1 to 8. Its flags are 1 for new, 2 for the read-only volume, 4 for the read-write
/// one, 8 for the backup.
#[derive(Clone, Copy, Debug, PartialEq, Eq)]
pub struct LocSite {
    pub server: u32,
    pub flags: u32,
}

pub type LocSites = Sequence<LocSite>;

/// What the location database knows of a family: the name of its read-write volume, the numbers of its volumes, which
/// of them there are (flags 0x1000 read-write, 0x2000 read-only, 0x4000 backup), and where.
#[derive(Drop)]
pub struct LocEntry {
    pub name: Octets,
    pub read_write: u32,
    pub read_only: u32,
    pub backup: u32,
    pub flags: u32,
    pub sites: LocSites,
}

/// A call, by its row.
#[derive(Drop)]
pub enum LocCall {
    CreateEntry {
        entry: LocEntry,
    },
    DeleteEntry {
        volume: u32,
    },
    GetEntryById {
        volume: u32,
    },
    GetEntryByName {
        name: Octets,
    },
    GetNewVolumeId,
    ReplaceEntry {
        volume: u32,
        entry: LocEntry,
    },
    SetLock {
        volume: u32,
        operation: u32,
        force: u32,
    },
    ReleaseLock {
        volume: u32,
    },
    ListEntry {
        index: u32,
    },
}

/// What a call with code 0 is answered, by its row.
#[derive(Drop)]
pub enum LocReply {
    CreateEntry { stamp: u32 },
    DeleteEntry,
    GetEntryById { entry: LocEntry },
    GetEntryByName { entry: LocEntry },
    GetNewVolumeId { volume: u32 },
    ReplaceEntry,
    SetLock { stamp: u32, entry: LocEntry },
    ReleaseLock,
    ListEntry { next_index: u32, entry: LocEntry },
}
