//! The map's calls, by what they do to the entries.

ghost use Rattle.std.specs.Prelude.{◌≡◌, ◌≤◌, map, length};
ghost use Rattle.spec_rows.specs.ClientRow.{refreshed};
ghost use Rattle.afs_entries.specs.Cached.{cached, made_of, touched, without};

use crate::cache::{Entry, Slot, slot_for};
use afs_num::histories::ReadStatus;
use afs_num::sequences::Octets;
use afs_num::types::Fid;
use lru::LruCache;

pub(crate) type Entries = LruCache<Slot, Entry>;

/// The entry of a fid stands first.
pub(crate) fn use_first(entries: &mut Entries, fid: &Fid)
    ensures seen { map cached entries.new.entries ≡ touched fid.now (map cached entries.old.entries) }
    ensures long { length entries.new.entries ≡ length entries.old.entries }
    ensures wide { entries.new.cap ≡ entries.old.cap }
{
    let _count = entries.len();
    entries.promote(&slot_for(fid));
}

/// The entry of a fid goes.
pub(crate) fn take_out(entries: &mut Entries, fid: &Fid)
    ensures seen { map cached entries.new.entries ≡ without fid.now (map cached entries.old.entries) }
    ensures few { length entries.new.entries ≤ length entries.old.entries }
    ensures wide { entries.new.cap ≡ entries.old.cap }
{
    let _count = entries.len();
    entries.pop(&slot_for(fid));
}

/// Where the entry of a fid is trusted, it is as the client's own store left it.
pub(crate) fn refresh_in(
    entries: &mut Entries,
    now: u32,
    fid: &Fid,
    index: u32,
    status: ReadStatus,
    contents: Option<Octets>,
)
    ensures seen { map cached entries.new.entries ≡ map (refreshed now fid.now index status (made_of contents)) (map cached entries.old.entries) }
    ensures long { length entries.new.entries ≡ length entries.old.entries }
    ensures wide { entries.new.cap ≡ entries.old.cap }
{
    let _count = entries.len();
    match entries.peek_mut(&slot_for(fid)) {
        Some(entry) => {
            if entry.is_trusted(now) {
                entry.refresh(index, status, contents);
            }
        }
        None => {}
    }
}
