//! What is found of the volumes in memory, and room for more of them.

ghost use Rattle.std.specs.Prelude.{◌≡◌, ◌≤◌, None, Some, [], slice_get, IfNone, IfSome, OnOk};
ghost use Rattle.std.specs.Option.{option_copied, option_map};
ghost use Rattle.afs_num.specs.Nodes.{node_number};
ghost use Rattle.spec_ideal.specs.Tables.{get};
ghost use Rattle.spec_fold.specs.Deeds.{has_volume, has_volume_room};
ghost use Rattle.afs_shelves.specs.Shelving.{is_new_in, kept_on, shelved, stored_as, HasSeats};

use crate::shelf::Shelf;
use crate::shelves::Shelves;
use afs_num::types::{Mem, Node};
use afs_seats::Seats;
use afs_volume::Volume;
use std::alloc::Global;

/// How many volumes a server has at most.
const MOST_VOLUMES: usize = 64;

impl Shelves {
    /// No volumes. It takes no memory.
    pub fn new(alloc: Global) -> Shelves
        ensures volumes { result.volumes.table ≡ [] }
        ensures forwardings { result.forwardings.table ≡ [] }
    {
        Shelves {
            alloc,
            volumes: Seats::new(alloc),
            forwardings: Seats::new(alloc),
        }
    }

    /// The volume of this number, and whether it is new. It takes no memory.
    pub fn shelf(&self, id: u32) -> Option<&Shelf>
        ensures value { option_copied result ≡ get id self.now.volumes.table }
        ensures some { IfSome result (λ s. get id (kept_on self.now).volumes ≡ Some (shelved s.now)) }
        ensures none { IfNone result (get id (kept_on self.now).volumes ≡ None) }
        ensures id { IfSome result (λ s. s.now.volume.head.id ≡ id) }
    {
        self.volumes.get(id)
    }

    /// The volume of this number. It takes no memory.
    pub fn volume(&self, id: u32) -> Option<&Volume>
        ensures some { IfSome result (λ v. get id (kept_on self.now).volumes ≡ Some (stored_as (is_new_in id (kept_on self.now).volumes) v.now)) }
        ensures none { IfNone result (get id (kept_on self.now).volumes ≡ None) }
        ensures id { IfSome result (λ v. v.now.head.id ≡ id) }
    {
        match self.shelf(id) {
            Some(shelf) => Some(&shelf.volume),
            None => None,
        }
    }

    /// The volume at this place in order of the numbers, from 0, and whether it is new. It takes no memory.
    pub fn shelf_at(&self, place: u32) -> Option<&Shelf>
        ensures some { IfSome result (λ s. slice_get (kept_on self.now).volumes place ≡ Some (s.now.volume.head.id, shelved s.now)) }
        ensures none { IfNone result (slice_get (kept_on self.now).volumes place ≡ None) }
    {
        match self.volumes.at(place as usize) {
            Some(item) => Some(&item.1),
            None => None,
        }
    }

    /// Whether the volume of this number is there and new. It takes no memory.
    pub fn is_new(&self, id: u32) -> bool
        ensures { result ≡ is_new_in id (kept_on self.now).volumes }
    {
        match self.shelf(id) {
            Some(shelf) => shelf.is_new,
            None => false,
        }
    }

    /// The server to which calls for this volume are to go. It takes no memory.
    pub fn forwarding(&self, id: u32) -> Option<Node>
        ensures { option_map node_number result ≡ get id (kept_on self.now).forwardings }
    {
        self.forwardings.get(id).copied()
    }

    /// Whether the volume of this number is there. It takes no memory.
    pub fn has_volume(&self, id: u32) -> bool
        ensures { result ≡ has_volume id (kept_on self.now) }
    {
        self.shelf(id).is_some()
    }

    /// Whether one more volume may be made. It takes no memory.
    pub fn has_volume_room(&self) -> bool
        ensures { result ≡ has_volume_room (kept_on self.now) }
    {
        self.volumes.len() < MOST_VOLUMES
    }

    /// Makes room for one volume and one forwarding more.
    pub fn reserve_one(&mut self) -> Mem<()>
        ensures room { OnOk result (HasSeats self.new) }
        ensures same { self.new ≡ record self.old { volumes = self.new.volumes; forwardings = self.new.forwardings; shelved = self.new.shelved } }
        ensures volumes { self.new.volumes.table ≡ self.old.volumes.table }
        ensures forwardings { self.new.forwardings.table ≡ self.old.forwardings.table }
        ensures grows { (self.old.volumes.room ≤ self.new.volumes.room) × (self.old.forwardings.room ≤ self.new.forwardings.room) }
    {
        self.volumes.reserve(1)?;
        self.forwardings.reserve(1)?;
        Ok(())
    }
}
