//! Which entries go.

ghost use Rattle.std.specs.Prelude.{◌≡◌, Some, None, IfSome};
ghost use Rattle.afs_num.specs.Fids.{same_fid};
ghost use Rattle.spec_rows.specs.States.{CacheEntry};
ghost use Rattle.afs_entries.specs.Cached.{drops_of, entry_at, fid_dropped};

use crate::cache::Entry;
use afs_num::types::{Fid, Node};

/// The entries that go: none; that of a fid; that of a fid, where it is of an older index or release; those of a volume;
/// those of a volume that are of a lower release; those that a server promised; or those that are trusted at this time in ticks.
#[derive(Drop)]
pub enum Drops {
    Nothing,
    Fid(Fid),
    Older { fid: Fid, index: u32, release: u32 },
    Volume(u32),
    Below { volume: u32, release: u32 },
    Server(Node),
    Trusted(u32),
}

impl Drops {
    /// Whether an entry goes.
    pub fn takes(&self, fid: &Fid, entry: &Entry) -> bool
        ensures { result ≡ drops_of self.now (entry_at fid.now entry.now) }
    {
        match self {
            Drops::Nothing => false,
            Drops::Fid(of) => *of == *fid,
            Drops::Older {
                fid: of,
                index,
                release,
            } => *fid == *of && (entry.index < *index || entry.release < *release),
            Drops::Volume(volume) => fid.volume == *volume,
            Drops::Below { volume, release } => fid.volume == *volume && entry.release < *release,
            Drops::Server(server) => entry.server.is(server),
            Drops::Trusted(now) => entry.is_trusted(*now),
        }
    }

    /// The fid whose entry alone may go.
    pub fn fid(&self) -> Option<Fid>
        ensures { result ≡ fid_dropped self.now }
    {
        match self {
            Drops::Fid(fid) | Drops::Older { fid, .. } => Some(*fid),
            _ => None,
        }
    }
}
