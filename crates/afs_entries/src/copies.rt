//! Copies of entries.

ghost use Rattle.std.specs.Prelude.{◌≡◌, IfOk, None, OnOk, map};
ghost use Rattle.std.specs.Map.{lookup};
ghost use Rattle.afs_entries.specs.Cached.{cached, left, same_slot, with_left};

use crate::cache::{Entry, Slot, fid_of};
use crate::drops::Drops;
use crate::putting::add_last;
use crate::raw::Entries;
use afs_acts::copy_body;
use afs_num::histories::Body;
use afs_num::types::Mem;
use lru::LruCache;
use std::alloc::Global;

fn copy_if_any(alloc: Global, body: &Option<Body>) -> Mem<Option<Body>>
    ensures { IfOk result (λ c. c ≡ body.now) }
{
    match body {
        Some(body) => Ok(Some(copy_body(alloc, body)?)),
        None => Ok(None),
    }
}

fn copy_entry(alloc: Global, entry: &Entry) -> Mem<Entry>
    ensures { IfOk result (λ c. c ≡ entry.now) }
{
    Ok(Entry {
        index: entry.index,
        status: entry.status,
        body: copy_if_any(alloc, &entry.body)?,
        server: entry.server,
        expiry: entry.expiry,
        release: entry.release,
    })
}

/// A copy of an entry comes behind others, unless the entry goes.
fn copy_one(
    alloc: Global,
    copies: &mut Entries,
    drops: &Drops,
    slot: Slot,
    entry: &Entry,
) -> Mem<()>
    requires wide { copies.old.cap ≡ 18446744073709551615 }
    requires missing { lookup (same_slot slot) copies.old.entries ≡ None }
    ensures entries { OnOk result (copies.new.entries ≡ with_left drops.now (slot, entry.now) copies.old.entries) }
    ensures wide { copies.new.cap ≡ copies.old.cap }
{
    if drops.takes(&fid_of(&slot), entry) {
        return Ok(());
    }
    let copy = copy_entry(alloc, entry)?;
    add_last(copies, slot, copy)
}

/// Copies of the entries that don't go, in order.
pub(crate) fn copy_left(alloc: Global, entries: &Entries, drops: &Drops) -> Mem<Entries>
    ensures left { IfOk result (λ copies. map cached copies.entries ≡ left drops.now (map cached entries.now.entries)) }
    ensures wide { IfOk result (λ copies. copies.cap ≡ 18446744073709551615) }
{
    let _count = entries.len();
    let mut copies = LruCache::unbounded(alloc)?;
    let mut pairs = entries.iter();
    while let Some((slot, entry)) = pairs.next() {
        copy_one(alloc, &mut copies, drops, *slot, entry)?;
    }
    Ok(copies)
}
