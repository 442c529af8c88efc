//! What a server keeps on its disk: the records of its journal.

use crate::sequences::{Octets, Sequence};
use crate::types::Node;
use crate::vnodes::{VnodeNumbers, Vnodes};
use crate::volumes::VolumeHead;

/// What stands before the fields of each record: the stamp that it raises for a family of volumes (0 and 0 where it
/// raises none), and the reply that it keeps, the whole message, with the caller, epoch and number of its call (0 and
/// empty where it keeps none).
#[derive(Drop)]
pub struct RecordHead {
    pub family: u32,
    pub stamp: u32,
    pub caller: Option<Node>,
    pub epoch: u32,
    pub number: u32,
    pub reply: Octets,
}

/// A whole volume: its head and the images of its vnodes, by ascending number.
#[derive(Drop)]
pub struct StoredVolume {
    pub head: VolumeHead,
    pub vnodes: Vnodes,
}

pub type StoredVolumes = Sequence<StoredVolume>;

/// What a record says has happened.
#[derive(Drop)]
pub enum RecordBody {
    /// Set-up: these are the volumes.
    First {
        volumes: StoredVolumes,
    },
    /// A volume changed: its counter and next unique number after it, the vnodes that were made or changed, as they are
    /// after it, and the numbers of those that went.
    Change {
        id: u32,
        counter: u32,
        unique: u32,
        vnodes: Vnodes,
        removed: VnodeNumbers,
    },
    /// The server started with this boot number. Volumes with the flag of delete on salvage are gone.
    Boot {
        boot: u32,
    },
    /// A volume was made, with its root alone. It is new where it was made under no stamp.
    Create {
        id: u32,
        family: u32,
        name: Octets,
        kind: u32,
        flags: u32,
        quota: u32,
        is_new: bool,
    },
    /// A volume was deleted.
    Delete {
        id: u32,
    },
    /// A clone of a volume was made, or made anew, with this release, which is then the volume's too.
    Clone {
        source: u32,
        id: u32,
        name: Octets,
        kind: u32,
        release: u32,
    },
    /// A dump was restored into a volume.
    Restore {
        id: u32,
        dump: Octets,
    },
    /// A volume's flags were set.
    Flags {
        id: u32,
        flags: u32,
    },
    /// Calls for this volume are to go to this server, 1 to 8.
    Forward {
        id: u32,
        server: u32,
    },
    /// Nothing but what the head says.
    Stamp,
}

/// A record of a server's journal.
#[derive(Drop)]
pub struct StoreRecord {
    pub head: RecordHead,
    pub body: RecordBody,
}

/// How far a disk had come when its server's last step was told: how many records stood on it. The generation is 0 for
/// a disk with one journal.
#[derive(Clone, Copy, Debug, PartialEq, Eq)]
pub struct Mark {
    pub generation: u32,
    pub records: u32,
}
