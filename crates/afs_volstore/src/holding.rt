//! Which volumes transactions hold. It stands in memory alone: a restart knows of none.

ghost use Rattle.std.specs.Prelude.{◌≡◌, ◌≤◌, ◌<◌, ◌+◌, ◌⊎◌, None, true, is_some, IsOk, OnErr, OnOk};
ghost use Rattle.spec_ideal.specs.Tables.{get, set, unset};
ghost use Rattle.spec_records.specs.Durable.{or_zero};
ghost use Rattle.afs_volstore.specs.Stores.{hold_word};

use crate::store::VolStore;
use afs_disk::Disk;
use afs_num::types::Mem;

/// A volume that a transaction holds is offline, or busy; 0 stands for none.
const NOT_HELD: u32 = 0;

const OFFLINE: u32 = 1;

const BUSY: u32 = 2;

/// The word of a volume that is held.
fn word(busy: bool) -> u32
    ensures { result ≡ hold_word busy }
{
    if busy { BUSY } else { OFFLINE }
}

impl<D: Disk> VolStore<D> {
    /// Makes room for one more volume that a transaction holds.
    pub fn reserve_hold(&mut self) -> Mem<()>
        ensures room { OnOk result (0 < self.new.holds.room) }
        ensures kept { self.old.holds.room ≤ self.new.holds.room }
        ensures table { self.new.holds.table ≡ self.old.holds.table }
        ensures rest { self.new ≡ record self.old { holds = self.new.holds } }
    {
        self.holds.reserve(1)
    }

    /// Notes that a transaction holds the volume of this number: 1 where it is offline, 2 where it is busy. One for which there is room
    /// takes no memory.
    pub fn hold(&mut self, id: u32, flags: u32) -> Mem<()>
        requires { (flags ≡ 1) ⊎ (flags ≡ 2) }
        ensures ok { OnOk result (self.new.holds.table ≡ set id flags self.old.holds.table) }
        ensures err { OnErr result (self.new.holds.table ≡ self.old.holds.table) }
        ensures succeeds { 0 < self.old.holds.room → IsOk result }
        ensures room { self.old.holds.room ≤ self.new.holds.room + 1 }
        ensures rest { self.new ≡ record self.old { holds = self.new.holds } }
    {
        self.holds.put(id, flags == BUSY)
    }

    /// Notes that no transaction holds the volume of this number any more. It takes no memory, and leaves room for one that was held.
    pub fn free(&mut self, id: u32)
        ensures table { self.new.holds.table ≡ unset id self.old.holds.table }
        ensures kept { self.old.holds.room ≤ self.new.holds.room }
        ensures room { is_some (get id self.old.holds.table) ≡ true → self.old.holds.room < self.new.holds.room }
        ensures rest { self.new ≡ record self.old { holds = self.new.holds } }
    {
        self.holds.take(id);
    }

    /// Whether a transaction holds the volume of this number: 1 where it is offline, 2 where it is busy, and 0 where none does. It takes
    /// no memory.
    pub fn held(&self, id: u32) -> u32
        ensures value { result ≡ or_zero (get id self.now.holds.table) }
        ensures none { result ≡ 0 → get id self.now.holds.table ≡ None }
    {
        match self.holds.get(id) {
            Some(busy) => word(*busy),
            None => NOT_HELD,
        }
    }
}
