//! The cache: what the client has of fids, that which was used last first.

ghost use Rattle.std.specs.Prelude.{◌≡◌, ◌<◌, [], Some, is_some, length, nat_lt, map, OnErr, OnOk, IfOk};
ghost use Rattle.std.specs.Option.{option_copied, option_map};
ghost use Rattle.afs_num.specs.Nodes.{IsNode};
ghost use Rattle.spec_rows.specs.ClientRow.{find_cached, gift_of, is_trusted, put_entries, put_entry, refreshed, trusted_in};
ghost use Rattle.afs_entries.specs.Cached.{entry_at, entry_of, evicted, fid_dropped, fid_in, is_fid, IsSound, last_fid, left, listed, made_of, slot_of, taken_by, touched, touched_all, unlisted, without, without_all};

use crate::copies::copy_left;
use crate::drops::Drops;
use crate::gifts::Gift;
use crate::putting::{put_alone, put_fresh};
use crate::raw::{refresh_in, take_out, use_first};
use afs_num::histories::{Body, ReadStatus};
use afs_num::sequences::Octets;
use afs_num::types::{Fid, Mem, Node};
use lru::LruCache;
use std::alloc::Global;
use std::marker::Model;

/// A fid, as the key of a map.
#[derive(Clone, Copy, Debug, PartialEq, Eq, Hash)]
pub struct Slot {
    volume: u32,
    vnode: u32,
    unique: u32,
}

pub(crate) fn slot_for(fid: &Fid) -> Slot
    ensures { result ≡ slot_of fid.now }
{
    Slot {
        volume: fid.volume,
        vnode: fid.vnode,
        unique: fid.unique,
    }
}

pub(crate) fn fid_of(slot: &Slot) -> Fid
    ensures { result ≡ fid_in slot.now }
{
    Fid {
        volume: slot.volume,
        vnode: slot.vnode,
        unique: slot.unique,
    }
}

/// What the client has of a fid: its status under this index, and its body, if it has that; the server that promised it
/// and until when, in ticks, it is trusted; and the release of the reply that brought it.
#[derive(Drop)]
pub struct Entry {
    pub index: u32,
    pub status: ReadStatus,
    pub body: Option<Body>,
    pub server: Node,
    pub expiry: u32,
    pub release: u32,
}

impl Entry {
    pub fn is_trusted(&self, now: u32) -> bool
        ensures { (fid : Fid) → result ≡ is_trusted now (entry_at fid self.now) }
    {
        now < self.expiry
    }

    /// After the client's own store: the status that the reply tells, and the body that the store made.
    pub(crate) fn refresh(&mut self, index: u32, status: ReadStatus, contents: Option<Octets>)
        ensures { self.new ≡ record self.old { index = index; status = status; body = made_of contents self.old.body } }
    {
        self.index = index;
        self.status = status;
        if let Some(contents) = contents {
            self.body = Some(Body::File(contents));
        }
    }
}

/// What a reply brings of a fid.
#[derive(Drop)]
pub struct Fresh {
    pub fid: Fid,
    pub entry: Entry,
}

/// The cache. It has as many entries as its capacity at most.
#[derive(Drop)]
pub struct Cache {
    entries: LruCache<Slot, Entry>,
    capacity: u16,
}

impl Model for Cache {
    ghost use Rattle.afs_entries.specs.Cached.{Kept, kept, FitsCache};

    ghost Value = { Kept };

    ghost view = { λ c. kept c.capacity c.entries };

    ghost invariant = { λ c. FitsCache c.capacity c.entries };
}

impl Cache {
    /// An empty cache.
    pub fn new(alloc: Global, capacity: u16) -> Mem<Cache>
        requires { 0 < capacity }
        ensures { IfOk result (λ c. c ≡ record { entries = []; capacity = capacity }) }
    {
        Ok(Cache {
            entries: LruCache::unbounded(alloc)?,
            capacity,
        })
    }

    /// The entry of a fid. That isn't a use of it.
    pub fn find(&self, fid: &Fid) -> Option<&Entry>
        ensures { option_map (entry_at fid.now) (option_copied result) ≡ find_cached fid.now self.now.entries }
    {
        self.entries.peek(&slot_for(fid))
    }

    /// Whether there is room for another entry.
    fn has_room(&self) -> bool
        ensures { result ≡ nat_lt (length self.now.entries) self.now.capacity }
    {
        self.entries.len() < self.capacity as usize
    }

    /// Whether a fid has an entry.
    fn holds(&self, fid: &Fid) -> bool
        ensures { result ≡ is_some (find_cached fid.now self.now.entries) }
    {
        self.find(fid).is_some()
    }

    /// The fid of the entry that was used first.
    fn last(&self) -> Option<Fid>
        ensures { result ≡ last_fid self.now.entries }
    {
        match self.entries.peek_lru() {
            Some((slot, _)) => Some(fid_of(slot)),
            None => None,
        }
    }

    /// The fid whose entry goes where one of this fid is put.
    fn evicted(&self, fid: &Fid) -> Option<Fid>
        ensures { result ≡ evicted self.now.capacity fid.now self.now.entries }
    {
        if self.has_room() || self.holds(fid) {
            return None;
        }
        self.last()
    }

    /// Whether the entry of one fid goes where one of another is put.
    pub(crate) fn evicts(&self, coming: &Fid, fid: &Fid) -> bool
        ensures value { result ≡ is_fid fid.now (evicted self.now.capacity coming.now self.now.entries) }
        ensures sound { IsSound self.now }
    {
        let _count = self.entries.len();
        match self.evicted(coming) {
            Some(out) => out == *fid,
            None => false,
        }
    }

    /// The entry of a fid is used: it stands first.
    fn touch(&mut self, fid: &Fid)
        ensures { self.new ≡ record self.old { entries = touched fid.now self.old.entries } }
    {
        use_first(&mut self.entries, fid);
    }

    /// The entries of these fids are used, one by one.
    pub fn touch_all(&mut self, fids: &[Fid])
        ensures { self.new ≡ record self.old { entries = touched_all fids.now self.old.entries } }
    {
        for fid in fids {
            self.touch(fid);
        }
    }

    /// The entry of a fid goes.
    fn drop_one(&mut self, fid: &Fid)
        ensures { self.new ≡ record self.old { entries = without fid.now self.old.entries } }
    {
        take_out(&mut self.entries, fid);
    }

    /// The entries of these fids go, one by one.
    fn drop_each(&mut self, fids: &[Fid])
        ensures { self.new ≡ record self.old { entries = without_all fids.now self.old.entries } }
    {
        for fid in fids {
            self.drop_one(fid);
        }
    }

    /// The entries of these fids go.
    pub fn drop_all(&mut self, fids: &[Fid])
        ensures { self.new ≡ record self.old { entries = unlisted fids.now self.old.entries } }
    {
        self.drop_each(fids);
    }

    /// Where the entry of a fid is trusted, it is as the client's own store left it, and stands where it stood.
    pub fn refresh(
        &mut self,
        now: u32,
        fid: &Fid,
        index: u32,
        status: ReadStatus,
        contents: Option<Octets>,
    )
        ensures { self.new ≡ record self.old { entries = map (refreshed now fid.now index status (made_of contents)) self.old.entries } }
    {
        refresh_in(&mut self.entries, now, fid, index, status, contents);
    }

    /// Entries take the places of those of their fids, one by one, and stand first; where there are too many, the last one
    /// goes.
    pub fn put_all(&mut self, fresh: Vec<Fresh>) -> Mem<()>
        ensures ok { OnOk result (self.new ≡ record self.old { entries = put_entries self.old.capacity (map entry_of fresh.items) self.old.entries }) }
        ensures err { OnErr result (self.new ≡ self.old) }
    {
        put_fresh(&mut self.entries, self.capacity, fresh)
    }

    /// One entry takes the place of that of its fid, and stands first; where there are too many, the last one goes.
    pub fn put(&mut self, fresh: Fresh) -> Mem<()>
        ensures ok { OnOk result (self.new ≡ record self.old { entries = put_entry self.old.capacity (entry_of fresh) self.old.entries }) }
        ensures err { OnErr result (self.new ≡ self.old) }
    {
        put_alone(&mut self.entries, self.capacity, fresh)
    }

    /// The fids of the entries that go, in order.
    fn walk(&self, alloc: Global, drops: &Drops) -> Mem<Vec<Fid>>
        ensures { IfOk result (λ fs. fs.items ≡ listed drops.now self.now.entries) }
    {
        let mut fids = Vec::new(alloc);
        let mut pairs = self.entries.iter();
        while let Some((slot, entry)) = pairs.next() {
            let fid = fid_of(slot);
            if drops.takes(&fid, entry) {
                fids.push(fid)?;
            }
        }
        Ok(fids)
    }

    /// Whether the entry of a fid goes.
    fn loses(&self, drops: &Drops, fid: &Fid) -> bool
        ensures { result ≡ taken_by drops.now (find_cached fid.now self.now.entries) }
    {
        match self.find(fid) {
            Some(entry) => drops.takes(fid, entry),
            None => false,
        }
    }

    /// The fids of the entries that go, where they are of one fid.
    fn one(&self, alloc: Global, drops: &Drops, fid: &Fid) -> Mem<Vec<Fid>>
        requires { fid_dropped drops.now ≡ Some fid.now }
        ensures { IfOk result (λ fs. fs.items ≡ listed drops.now self.now.entries) }
    {
        let _count = self.entries.len();
        let mut fids = Vec::new(alloc);
        if !self.loses(drops, fid) {
            return Ok(fids);
        }
        fids.push(*fid)?;
        Ok(fids)
    }

    fn found(&self, alloc: Global, drops: &Drops) -> Mem<Vec<Fid>>
        ensures { IfOk result (λ fs. fs.items ≡ listed drops.now self.now.entries) }
    {
        match drops.fid() {
            Some(fid) => self.one(alloc, drops, &fid),
            None => self.walk(alloc, drops),
        }
    }

    /// The fids of the entries that go, in order.
    pub fn listed(&self, alloc: Global, drops: &Drops) -> Mem<Vec<Fid>>
        ensures fids { IfOk result (λ fs. fs.items ≡ listed drops.now self.now.entries) }
        ensures left { IfOk result (λ fs. unlisted fs.items self.now.entries ≡ left drops.now self.now.entries) }
    {
        let _count = self.entries.len();
        let fids = self.found(alloc, drops)?;
        Ok(fids)
    }

    /// A cache that has copies of the entries that don't go.
    pub fn without(&self, alloc: Global, drops: &Drops) -> Mem<Cache>
        ensures { IfOk result (λ c. c ≡ record self.now { entries = left drops.now self.now.entries }) }
    {
        Ok(Cache {
            entries: copy_left(alloc, &self.entries, drops)?,
            capacity: self.capacity,
        })
    }

    /// The promises of the entries that are trusted.
    pub fn promised(&self, alloc: Global, now: u32) -> Mem<Vec<Gift>>
        ensures { IfOk result (λ gs. gs.items ≡ map gift_of (trusted_in now self.now.entries)) }
    {
        let mut gifts = Vec::new(alloc);
        let drops = Drops::Trusted(now);
        let mut pairs = self.entries.iter();
        while let Some((slot, entry)) = pairs.next() {
            let fid = fid_of(slot);
            if drops.takes(&fid, entry) {
                gifts.push(Gift::of(fid, entry))?;
            }
        }
        Ok(gifts)
    }
}
