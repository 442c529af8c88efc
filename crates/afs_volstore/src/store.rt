//! A server's store: its volumes and what stands beside them, on a disk.

ghost use Rattle.std.specs.Prelude.{◌≡◌, ◌≤◌, ◌<◌, ◌+◌, Bool, None, Some, false, length, slice_get, IfNone, IfSome};
ghost use Rattle.std.specs.Option.{option_map};
ghost use Rattle.afs_num.specs.Nodes.{node_number};
ghost use Rattle.spec_ideal.specs.Tables.{get, AscendsFrom};
ghost use Rattle.spec_records.specs.Durable.{most_volumes, stamp_of};
ghost use Rattle.afs_shelves.specs.Shelving.{is_new_in, stored_as};
ghost use Rattle.afs_memory.specs.Called.{AreBytes, AreKnown};
ghost use Rattle.afs_volstore.specs.Stores.{IsCounted, IsKept};

use crate::held::{Held, Part};
use afs_disk::Disk;
use afs_num::records::{Mark, StoreRecord};
use afs_num::types::{Key, Node};
use afs_seats::Seats;
use afs_store::Store;
use afs_volume::Volume;
use std::alloc::Global;
use std::marker::Model;

/// All volumes of a server with its boot number, its stamps, its forwardings and the replies that outlive it, on its disk; and in
/// memory alone the volumes that transactions hold, each with whether it is busy.
#[derive(Drop)]
pub struct VolStore<D: Disk> {
    pub(crate) alloc: Global,
    pub(crate) store: Store<D, StoreRecord, Part, Held>,
    pub(crate) holds: Seats<bool>,
}

impl<D: Disk> Model for VolStore<D> {
    ghost use Rattle.afs_volstore.specs.Stores.{store_of, Store};

    ghost Value = { Store D };

    ghost view = { λ s. store_of s.store s.holds };
}

impl<D: Disk> VolStore<D> {
    /// How many records stand on the disk. It takes no memory.
    pub fn mark(&self) -> Mark
        ensures value { result ≡ record { generation = 0; records = self.now.count } }
        ensures kept { self.now.closed ≡ false → IsKept self.now.durable (D.seen self.now.disk) (D.may_leave self.now.disk) }
        ensures counted { self.now.closed ≡ false → IsCounted self.now.count (D.seen self.now.disk) }
        ensures capacity { self.now.durable.capacity ≡ D.limit self.now.disk }
    {
        self.store.mark()
    }

    /// The volume of this number. It takes no memory.
    pub fn volume(&self, id: u32) -> Option<&Volume>
        ensures some { IfSome result (λ v. get id self.now.durable.volumes ≡ Some (stored_as (is_new_in id self.now.durable.volumes) v.now)) }
        ensures none { IfNone result (get id self.now.durable.volumes ≡ None) }
        ensures id { IfSome result (λ v. v.now.head.id ≡ id) }
    {
        self.store.state().state.volume(id)
    }

    /// The volume at this place in order of the numbers, from 0. There are no more than a server may have. It takes no memory.
    pub fn volume_at(&self, place: u32) -> Option<&Volume>
        ensures some { IfSome result (λ v. (is_new : Bool) × (slice_get self.now.durable.volumes place ≡ Some (v.now.head.id, stored_as is_new v.now))) }
        ensures none { IfNone result (slice_get self.now.durable.volumes place ≡ None) }
        ensures few { length self.now.durable.volumes ≤ most_volumes }
    {
        match self.store.state().state.shelf_at(place) {
            Some(shelf) => Some(&shelf.volume),
            None => None,
        }
    }

    /// The stamp of this family of volumes, 0 where it has none. It takes no memory.
    pub fn stamp(&self, family: u32) -> u32
        ensures { result ≡ stamp_of family self.now.durable }
    {
        self.store.state().state.stamp(family)
    }

    /// The server to which calls for this volume are to go. It takes no memory.
    pub fn forwarding(&self, id: u32) -> Option<Node>
        ensures { option_map node_number result ≡ get id self.now.durable.forwardings }
    {
        self.store.state().state.forwarding(id)
    }

    /// The last reply to this caller that has to outlive the server, with the key of its call. It takes no memory.
    pub fn kept(&self, caller: Node) -> Option<(Key, &[u8])>
        ensures some { IfSome result (λ k. get (node_number caller) self.now.durable.kept ≡ Some (record { epoch = k.0.epoch; number = k.0.number; reply = k.1.now })) }
        ensures none { IfNone result (get (node_number caller) self.now.durable.kept ≡ None) }
        ensures caller { IfSome result (λ k. k.0.node ≡ caller) }
    {
        match self.store.state().state.kept(caller.number()) {
            Some(kept) => Some((
                Key {
                    node: caller,
                    epoch: kept.epoch,
                    number: kept.number,
                },
                kept.reply.as_slice(),
            )),
            None => None,
        }
    }

    /// The kept reply at this place in order of the callers' numbers, from 0, with the key of its call. It takes no memory.
    pub fn kept_at(&self, place: u32) -> Option<(Key, &[u8])>
        ensures some { IfSome result (λ k. slice_get self.now.durable.kept place ≡ Some (node_number k.0.node, record { epoch = k.0.epoch; number = k.0.number; reply = k.1.now })) }
        ensures none { IfNone result (slice_get self.now.durable.kept place ≡ None) }
        ensures ordered { AscendsFrom 0 self.now.durable.kept }
        ensures nodes { AreKnown self.now.durable.kept }
        ensures bytes { AreBytes self.now.durable.kept }
    {
        match self.store.state().state.kept_at(place) {
            Some(kept) => Some((
                Key {
                    node: kept.caller,
                    epoch: kept.epoch,
                    number: kept.number,
                },
                kept.reply.as_slice(),
            )),
            None => None,
        }
    }

    /// Whether the volume is there and is new: made under no stamp, and never yet with flags 0. It takes no memory.
    pub fn is_new(&self, id: u32) -> bool
        ensures { result ≡ is_new_in id self.now.durable.volumes }
    {
        self.store.state().state.is_new(id)
    }

    /// The boot number. It takes no memory.
    pub fn boot_number(&self) -> u32
        ensures { result ≡ self.now.durable.boot }
    {
        self.store.state().state.boot
    }

    /// The server whose disk it is. It takes no memory.
    pub fn node(&self) -> Node
        ensures { result ≡ self.now.node }
    {
        self.store.node()
    }

    /// Draws the next number of the server's own calls: 1, 2, 3, .. since the disk was attached. It takes no memory.
    pub fn next_number(&mut self) -> u32
        requires { self.old.drawn < 4294967295 }
        ensures number { result ≡ self.old.drawn + 1 }
        ensures drawn { self.new ≡ record self.old { drawn = result } }
    {
        self.store.next_number()
    }

    /// The number of the server's own calls that was drawn last, 0 before the first. It takes no memory.
    pub fn last_number(&self) -> u32
        ensures { result ≡ self.now.drawn }
    {
        self.store.last_number()
    }

    /// The disk.
    pub fn into_disk(self) -> D
        ensures { result ≡ self.disk }
    {
        let VolStore {
            alloc: _,
            store,
            holds: _,
        } = self;
        store.into_disk()
    }
}
