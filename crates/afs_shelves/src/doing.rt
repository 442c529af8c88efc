//! Deeds are done. What they take memory for was made beforehand, and room for it, so that none of this takes any.

ghost use Rattle.std.specs.Prelude.{◌≡◌, ◌≤◌, ◌<◌, ◌+◌, Some, true, filter, is_some, not};
ghost use Rattle.afs_num.specs.Nodes.{node_number};
ghost use Rattle.spec_ideal.specs.Tables.{get, set, unset, AscendsFrom};
ghost use Rattle.spec_records.specs.Durable.{is_flagged, Durable};
ghost use Rattle.spec_fold.specs.Deeds.{done_by, flagged, has_volume, with_release};
ghost use Rattle.afs_shelves.specs.Deeds.{create_body, deed_body, IsCloneIn, IsCreated, IsRestoredIn, SuitsDeed};
ghost use Rattle.afs_shelves.specs.Shelving.{kept_on, shelved, stored_as, with_shelves, HasSeats, IsAltered, IsReplaced};
ghost use Rattle.afs_shelves.specs.declared.deed.Deed.TheVariants as deeds;
ghost use Rattle.afs_volume.specs.Taking.{stored_of};

use crate::deed::{CloneDeed, Deed};
use crate::shelf::Shelf;
use crate::shelves::Shelves;
use crate::telling::is_flagged;
use afs_num::types::Node;
use afs_seats::Seats;
use afs_volume::Volume;
use std::mem::replace;

/// The volume with this release number.
fn released(volume: Volume, release: u32) -> Volume
    ensures head { result.head ≡ record volume.head { release = release } }
    ensures vnodes { result.vnodes ≡ volume.vnodes }
{
    let mut volume = volume;
    volume.head.release = release;
    volume
}

/// The volume whose release number is another.
fn with_release(shelf: Shelf, release: u32) -> Shelf
    ensures value { shelved result ≡ with_release release (shelved shelf) }
    ensures id { result.volume.head.id ≡ shelf.volume.head.id }
{
    let Shelf { volume, is_new } = shelf;
    Shelf {
        volume: released(volume, release),
        is_new,
    }
}

/// The volume with these flags. With flags 0 it isn't new any more.
fn flagged(shelf: Shelf, flags: u32) -> Shelf
    ensures value { shelved result ≡ flagged flags (shelved shelf) }
    ensures id { result.volume.head.id ≡ shelf.volume.head.id }
{
    let Shelf { volume, is_new } = shelf;
    let mut volume = volume;
    volume.set_flags(flags);
    Shelf {
        volume,
        is_new: flags != 0 && is_new,
    }
}

/// The volumes that stay at a start. It takes no memory.
fn unflagged(volumes: Seats<Shelf>) -> Seats<Shelf>
    ensures { result.table ≡ filter (λ p. not (is_flagged (shelved p.1))) volumes.table }
{
    let mut items = volumes.into_items();
    items.retain(|item| !is_flagged(&item.1));
    Seats::from_items(items)
}

impl Shelves {
    /// Puts a volume in the place of the one with its number, or between its neighbours, where there is room.
    fn put(&mut self, shelf: Shelf)
        requires { 0 < self.old.volumes.room }
        ensures table { self.new.volumes.table ≡ set shelf.volume.head.id shelf self.old.volumes.table }
        ensures rest { self.new ≡ record self.old { volumes = self.new.volumes; shelved = self.new.shelved } }
        ensures room { self.old.volumes.room ≤ self.new.volumes.room + 1 }
    {
        match self.volumes.put(shelf.volume.head.id, shelf) {
            Ok(()) => {}
            Err(_) => unreachable!(),
        }
    }

    /// Takes the volume of this number out.
    fn take(&mut self, id: u32) -> Shelf
        requires { is_some (get id self.old.volumes.table) ≡ true }
        ensures value { get id self.old.volumes.table ≡ Some result }
        ensures id { result.volume.head.id ≡ id }
        ensures table { self.new.volumes.table ≡ unset id self.old.volumes.table }
        ensures rest { self.new ≡ record self.old { volumes = self.new.volumes; shelved = self.new.shelved } }
        ensures room { self.old.volumes.room < self.new.volumes.room }
        ensures ascends { AscendsFrom 0 self.old.volumes.table }
    {
        match self.volumes.take(id) {
            Some(shelf) => shelf,
            None => unreachable!(),
        }
    }
}

impl Shelves {
    /// A volume that is new here is put, and a forwarding of its number is forgotten.
    fn add(&mut self, shelf: Shelf)
        requires { 0 < self.old.volumes.room }
        ensures volumes { self.new.volumes.table ≡ set shelf.volume.head.id shelf self.old.volumes.table }
        ensures forwardings { self.new.forwardings.table ≡ unset shelf.volume.head.id self.old.forwardings.table }
    {
        self.forwardings.take(shelf.volume.head.id);
        self.put(shelf);
    }

    /// The volume of this number goes.
    fn remove(&mut self, id: u32)
        ensures volumes { self.new.volumes.table ≡ unset id self.old.volumes.table }
        ensures forwardings { self.new.forwardings ≡ self.old.forwardings }
    {
        self.volumes.take(id);
    }

    /// The release number of the volume of this number is another.
    fn release(&mut self, id: u32, release: u32)
        requires { is_some (get id self.old.volumes.table) ≡ true }
        ensures altered { IsAltered id (with_release release) self.old.volumes.table self.new.volumes.table }
        ensures room { self.old.volumes.room ≤ self.new.volumes.room }
        ensures forwardings { self.new.forwardings ≡ self.old.forwardings }
    {
        let shelf = self.take(id);
        self.put(with_release(shelf, release));
    }

    /// The volume of this number gets these flags.
    fn set_flags(&mut self, id: u32, flags: u32)
        requires { is_some (get id self.old.volumes.table) ≡ true }
        ensures altered { IsAltered id (flagged flags) self.old.volumes.table self.new.volumes.table }
        ensures forwardings { self.new.forwardings ≡ self.old.forwardings }
    {
        let shelf = self.take(id);
        self.put(flagged(shelf, flags));
    }

    /// This volume stands in the place of the one with its number, and is new where that was.
    fn replace(&mut self, volume: Volume)
        requires { is_some (get volume.head.id self.old.volumes.table) ≡ true }
        ensures replaced { IsReplaced volume self.old.volumes.table self.new.volumes.table }
        ensures forwardings { self.new.forwardings ≡ self.old.forwardings }
    {
        let Shelf { volume: _, is_new } = self.take(volume.head.id);
        self.put(Shelf { volume, is_new });
    }

    /// A clone is put where its number is free, or in the place of the one that it was made anew of; its volume has its release
    /// number, too.
    fn put_clone(&mut self, clone: CloneDeed)
        requires there { is_some (get clone.source self.old.volumes.table) ≡ true }
        requires made { IsCloneIn (kept_on self.old) clone }
        requires room { 0 < self.old.volumes.room }
        ensures { (d : Durable) → done_by (deed_body (deeds.Clone clone)) (with_shelves d self.old) ≡ with_shelves d self.new }
    {
        let CloneDeed {
            source,
            release,
            volume,
            ..
        } = clone;
        let id = volume.head.id;
        let is_there = self.has_volume(id);
        let is_new = self.is_new(id);
        self.release(source, release);
        if is_there {
            self.put(Shelf { volume, is_new });
        } else {
            self.add(Shelf { volume, is_new });
        }
    }

    /// A volume is forwarded to this server, where there is room.
    fn forward_to(&mut self, id: u32, to: Node)
        requires { 0 < self.old.forwardings.room }
        ensures forwardings { self.new.forwardings.table ≡ set id to self.old.forwardings.table }
        ensures volumes { self.new.volumes ≡ self.old.volumes }
    {
        match self.forwardings.put(id, to) {
            Ok(()) => {}
            Err(_) => unreachable!(),
        }
    }

    /// A server starts: the flagged volumes go.
    pub fn drop_flagged(&mut self)
        ensures volumes { self.new.volumes.table ≡ filter (λ p. not (is_flagged (shelved p.1))) self.old.volumes.table }
        ensures forwardings { self.new.forwardings ≡ self.old.forwardings }
    {
        let volumes = replace(&mut self.volumes, Seats::new(self.alloc));
        self.volumes = unflagged(volumes);
    }

    /// Does what a record says that can be taken, and for which there is room.
    pub fn do_deed(&mut self, deed: Deed)
        requires suits { SuitsDeed deed (kept_on self.old) }
        requires room { HasSeats self.old }
        ensures { (d : Durable) → done_by (deed_body deed) (with_shelves d self.old) ≡ with_shelves d self.new }
    {
        match deed {
            Deed::Create(shelf) => self.add(shelf),
            Deed::Delete(id) => self.remove(id),
            Deed::Clone(clone) => self.put_clone(clone),
            Deed::Restore(restored) => self.replace(restored.volume),
            Deed::Flags(id, flags) => self.set_flags(id, flags),
            Deed::Forward(id, to) => self.forward_to(id, to),
            Deed::Stamp => {}
        }
    }
}
