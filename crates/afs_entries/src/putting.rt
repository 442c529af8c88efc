//! How entries are put at once, or none of them.

ghost use Rattle.std.specs.Prelude.{◌≡◌, ◌≤◌, ◌<◌, ◌++◌, [], ◌∷◌, drop, is_some, map, take, length, None, OnErr, OnOk, Some};
ghost use Rattle.std.specs.Map.{lookup};
ghost use Rattle.spec_rows.specs.ClientRow.{put_entries, put_entry};
ghost use Rattle.lru.specs.LruCache.{lru_cache};
ghost use Rattle.afs_entries.specs.Cached.{cached, entry_of, entry_joined, FitsCache, HasAll, HasKey, IsFront, KeepsKeys, raised, same_slot, slot_of};
ghost use Rattle.afs_entries.specs.declared.cache.Entry.{Entry};

use crate::cache::{Entry, Fresh, Slot, slot_for};
use crate::raw::Entries;
use afs_num::histories::ReadStatus;
use afs_num::types::{Mem, Node};
use std::alloc::AllocError;
use std::mem;

/// An entry that stands behind the cache until its own comes.
fn blank() -> Entry {
    Entry {
        index: 0,
        status: ReadStatus {
            kind: 0,
            link_count: 0,
            length: 0,
            mode: 0,
        },
        body: None,
        server: Node::Loc,
        expiry: 0,
        release: 0,
    }
}

/// A key that has no place gets the last one.
pub fn add_last(entries: &mut Entries, slot: Slot, entry: Entry) -> Mem<()>
    requires wide { entries.old.cap ≡ 18446744073709551615 }
    requires missing { lookup (same_slot slot) entries.old.entries ≡ None }
    ensures ok { OnOk result (entries.new ≡ lru_cache (entries.old.entries ++ (slot, entry) ∷ []) entries.old.cap) }
    ensures err { OnErr result (entries.new ≡ entries.old) }
{
    let _count = entries.len();
    match entries.put(slot, entry) {
        Ok(_) => {
            entries.demote(&slot);
            Ok(())
        }
        Err(_) => Err(AllocError),
    }
}

/// Makes a place for a key, last, unless it has one.
fn reserve_one(entries: &mut Entries, slot: Slot) -> Mem<()>
    requires wide { entries.old.cap ≡ 18446744073709551615 }
    ensures front { IsFront entries.old.entries entries.new.entries }
    ensures key { OnOk result (HasKey slot entries.new) }
    ensures wide { entries.new.cap ≡ entries.old.cap }
{
    if entries.contains(&slot) {
        return Ok(());
    }
    add_last(entries, slot, blank())
}

fn reserve(entries: &mut Entries, fresh: &[Fresh]) -> Mem<()>
    requires wide { entries.old.cap ≡ 18446744073709551615 }
    ensures front { IsFront entries.old.entries entries.new.entries }
    ensures keys { OnOk result (HasAll fresh.now entries.new) }
    ensures wide { entries.new.cap ≡ entries.old.cap }
{
    for one in fresh {
        reserve_one(entries, slot_for(&one.fid))?;
    }
    Ok(())
}

/// Whether a key stands behind the first so many.
fn is_in_tail(entries: &Entries, count: usize, slot: &Slot) -> bool
    ensures { result ≡ is_some (lookup (same_slot slot.now) (drop count entries.now.entries)) }
{
    let mut pairs = entries.iter();
    while let Some((key, _)) = pairs.next_back() {
        if pairs.len() < count {
            return false;
        }
        if *slot == *key {
            return true;
        }
    }
    false
}

/// The entry takes the place of the old one, whose body it keeps where it has none and the index is the same.
fn replace(held: &mut Entry, entry: Entry, is_seen: bool)
    ensures { held.new ≡ entry_joined is_seen entry held.old }
{
    let index = entry.index;
    let lacks_body = entry.body.is_none();
    let old = mem::replace(held, entry);
    if is_seen && lacks_body && old.index == index {
        held.body = old.body;
    }
}

/// The entry takes the place of the old one under its key, and stands first.
fn raise(entries: &mut Entries, slot: &Slot, entry: Entry, is_seen: bool)
    ensures { (old : Entry) → lookup (same_slot slot.now) entries.old.entries ≡ Some old → entries.new ≡ lru_cache (raised slot.now (entry_joined is_seen entry old) entries.old.entries) entries.old.cap }
{
    if let Some(held) = entries.get_mut(slot) {
        replace(held, entry, is_seen);
    }
}

/// Puts an entry whose key has a place, where the cache has so many entries; answers how many it has then.
fn put_one(entries: &mut Entries, count: usize, capacity: u16, fresh: Fresh) -> usize
    requires key { HasKey (slot_of fresh.fid) entries.old }
    requires within { count ≤ length entries.old.entries }
    requires few { count ≤ capacity }
    requires some { 0 < capacity }
    ensures put { map cached (take result entries.new.entries) ≡ put_entry capacity (entry_of fresh) (map cached (take count entries.old.entries)) }
    ensures within { result ≤ length entries.new.entries }
    ensures few { result ≤ capacity }
    ensures keys { KeepsKeys entries.old entries.new }
    ensures wide { entries.new.cap ≡ entries.old.cap }
{
    let _count = entries.len();
    let Fresh { fid, entry } = fresh;
    let slot = slot_for(&fid);
    if is_in_tail(entries, count, &slot) {
        raise(entries, &slot, entry, false);
        (count + 1).min(capacity as usize)
    } else {
        raise(entries, &slot, entry, true);
        count
    }
}

/// Only the first so many stay.
fn shorten(entries: &mut Entries, count: usize)
    ensures { entries.new ≡ lru_cache (take count entries.old.entries) entries.old.cap }
{
    while entries.len() > count {
        entries.pop_lru();
    }
}

/// Puts entries whose keys have places, one by one, where the cache has so many.
fn put_each(entries: &mut Entries, count: usize, capacity: u16, fresh: Vec<Fresh>)
    requires keys { HasAll fresh.items entries.old }
    requires within { count ≤ length entries.old.entries }
    requires few { count ≤ capacity }
    requires some { 0 < capacity }
    ensures put { map cached entries.new.entries ≡ put_entries capacity (map entry_of fresh.items) (map cached (take count entries.old.entries)) }
    ensures few { length entries.new.entries ≤ capacity }
    ensures wide { entries.new.cap ≡ entries.old.cap }
{
    let mut count = count;
    for one in fresh {
        count = put_one(entries, count, capacity, one);
    }
    shorten(entries, count);
}

/// Puts entries, one by one, or none where memory is wanting.
pub fn put_fresh(entries: &mut Entries, capacity: u16, fresh: Vec<Fresh>) -> Mem<()>
    requires { FitsCache capacity entries.old }
    ensures ok { OnOk result (map cached entries.new.entries ≡ put_entries capacity (map entry_of fresh.items) (map cached entries.old.entries)) }
    ensures fits { FitsCache capacity entries.new }
    ensures err { OnErr result (entries.new ≡ entries.old) }
{
    let count = entries.len();
    match reserve(entries, fresh.as_slice()) {
        Ok(()) => {
            put_each(entries, count, capacity, fresh);
            Ok(())
        }
        Err(error) => {
            shorten(entries, count);
            Err(error)
        }
    }
}

/// A key that has no place gets the first one.
fn add_first(entries: &mut Entries, slot: Slot, entry: Entry) -> Mem<()>
    requires wide { entries.old.cap ≡ 18446744073709551615 }
    requires missing { lookup (same_slot slot) entries.old.entries ≡ None }
    ensures ok { OnOk result (entries.new ≡ lru_cache ((slot, entry) ∷ entries.old.entries) entries.old.cap) }
    ensures err { OnErr result (entries.new ≡ entries.old) }
{
    let _count = entries.len();
    match entries.put(slot, entry) {
        Ok(_) => Ok(()),
        Err(_) => Err(AllocError),
    }
}

/// Puts an entry whose key has no place; where there are too many, the last one goes.
fn put_new(entries: &mut Entries, capacity: u16, fresh: Fresh) -> Mem<()>
    requires fits { FitsCache capacity entries.old }
    requires missing { lookup (same_slot (slot_of fresh.fid)) entries.old.entries ≡ None }
    ensures ok { OnOk result (map cached entries.new.entries ≡ put_entry capacity (entry_of fresh) (map cached entries.old.entries)) }
    ensures fits { FitsCache capacity entries.new }
    ensures err { OnErr result (entries.new ≡ entries.old) }
{
    let _count = entries.len();
    let Fresh { fid, entry } = fresh;
    add_first(entries, slot_for(&fid), entry)?;
    shorten(entries, capacity as usize);
    Ok(())
}

/// Puts an entry whose key has a place.
fn put_over(entries: &mut Entries, capacity: u16, fresh: Fresh)
    requires fits { FitsCache capacity entries.old }
    requires key { HasKey (slot_of fresh.fid) entries.old }
    ensures put { map cached entries.new.entries ≡ put_entry capacity (entry_of fresh) (map cached entries.old.entries) }
    ensures fits { FitsCache capacity entries.new }
{
    let _capacity = capacity;
    let _count = entries.len();
    let Fresh { fid, entry } = fresh;
    raise(entries, &slot_for(&fid), entry, true);
}

/// Puts an entry. That one is put alone which most replies bring: its key is looked for once.
pub fn put_alone(entries: &mut Entries, capacity: u16, fresh: Fresh) -> Mem<()>
    requires { FitsCache capacity entries.old }
    ensures ok { OnOk result (map cached entries.new.entries ≡ put_entry capacity (entry_of fresh) (map cached entries.old.entries)) }
    ensures fits { FitsCache capacity entries.new }
    ensures err { OnErr result (entries.new ≡ entries.old) }
{
    if entries.contains(&slot_for(&fresh.fid)) {
        put_over(entries, capacity, fresh);
        return Ok(());
    }
    put_new(entries, capacity, fresh)
}
