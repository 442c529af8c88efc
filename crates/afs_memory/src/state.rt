//! What is found in memory of what a disk keeps, and what a record's head and a start change there.

ghost use Rattle.std.specs.Prelude.{◌≡◌, ◌≤◌, ◌<◌, None, Some, [], IfSome, IfNone, OnOk, nat_eq, slice_get, if◌then◌else◌};
ghost use Rattle.std.specs.Option.{option_map};
ghost use Rattle.afs_num.specs.Nodes.{node_number};
ghost use Rattle.afs_xdr.specs.Words.{IsBytes};
ghost use Rattle.spec_ideal.specs.Tables.{get, set, AscendsFrom};
ghost use Rattle.spec_records.specs.Durable.{booted, noted, or_zero};
ghost use Rattle.afs_shelves.specs.Shelving.{is_new_in, shelved, stored_as};
ghost use Rattle.afs_memory.specs.Called.{AreBytes, AreKnown, IsCaller};
ghost use Rattle.afs_memory.specs.States.{kept_in, kept_seen, parts_of};

use crate::memory::{KeptReply, State};
use afs_num::records::RecordHead;
use afs_num::sequences::Octets;
use afs_num::types::{Mem, Node};
use afs_seats::Seats;
use afs_shelves::shelf::Shelf;
use afs_shelves::shelves::Shelves;
use afs_volume::Volume;
use std::alloc::Global;

/// The boot number of a server whose first record is just being taken.
const FIRST_BOOT: u32 = 1;

/// Bytes are bytes.
fn are_bytes(bytes: &[u8])
    ensures { IsBytes bytes.now }
{
    let _ = bytes.len();
}

impl State {
    /// What stands on a disk without records. It takes no memory.
    pub fn new(alloc: Global) -> State
        ensures boot { result.boot ≡ 1 }
        ensures volumes { result.shelves.volumes.table ≡ [] }
        ensures forwardings { result.shelves.forwardings.table ≡ [] }
        ensures stamps { result.stamps.table ≡ [] }
        ensures kept { result.kept.table ≡ [] }
    {
        State {
            alloc,
            boot: FIRST_BOOT,
            shelves: Shelves::new(alloc),
            stamps: Seats::new(alloc),
            kept: Seats::new(alloc),
        }
    }

    /// The volume of this number.
    pub fn volume(&self, id: u32) -> Option<&Volume>
        ensures some { IfSome result (λ v. get id (parts_of self.now).volumes ≡ Some (stored_as (is_new_in id (parts_of self.now).volumes) v.now)) }
        ensures none { IfNone result (get id (parts_of self.now).volumes ≡ None) }
        ensures id { IfSome result (λ v. v.now.head.id ≡ id) }
    {
        self.shelves.volume(id)
    }

    /// The volume at this place in order of the numbers, from 0, and whether it is new.
    pub fn shelf_at(&self, place: u32) -> Option<&Shelf>
        ensures some { IfSome result (λ s. slice_get (parts_of self.now).volumes place ≡ Some (s.now.volume.head.id, shelved s.now)) }
        ensures none { IfNone result (slice_get (parts_of self.now).volumes place ≡ None) }
    {
        self.shelves.shelf_at(place)
    }

    /// The stamp of this family, or 0.
    pub fn stamp(&self, family: u32) -> u32
        ensures { result ≡ or_zero (get family self.now.stamps.table) }
    {
        match self.stamps.get(family) {
            Some(stamp) => *stamp,
            None => 0,
        }
    }

    /// The kept reply of the caller of this number.
    pub fn kept(&self, caller: u32) -> Option<&KeptReply>
        ensures some { IfSome result (λ k. get caller (parts_of self.now).kept ≡ Some (kept_seen k.now)) }
        ensures none { IfNone result (get caller (parts_of self.now).kept ≡ None) }
    {
        self.kept.get(caller)
    }

    /// The kept reply at this place in order of the callers' numbers, from 0.
    pub fn kept_at(&self, place: u32) -> Option<&KeptReply>
        ensures some { IfSome result (λ k. slice_get (parts_of self.now).kept place ≡ Some (node_number k.now.caller, kept_seen k.now)) }
        ensures none { IfNone result (slice_get (parts_of self.now).kept place ≡ None) }
        ensures ordered { AscendsFrom 0 (parts_of self.now).kept }
        ensures nodes { AreKnown (parts_of self.now).kept }
        ensures bytes { AreBytes (parts_of self.now).kept }
    {
        match self.kept.at(place as usize) {
            Some(item) => Some(&item.1),
            None => None,
        }
    }

    /// The server to which calls for a volume are to go.
    pub fn forwarding(&self, id: u32) -> Option<Node>
        ensures { option_map node_number result ≡ get id (parts_of self.now).forwardings }
    {
        self.shelves.forwarding(id)
    }

    /// Whether the volume of this number is there and new.
    pub fn is_new(&self, id: u32) -> bool
        ensures { result ≡ is_new_in id (parts_of self.now).volumes }
    {
        self.shelves.is_new(id)
    }

    /// Makes room for one stamp and one reply more.
    pub fn reserve_head(&mut self) -> Mem<()>
        ensures room { OnOk result ((0 < self.new.stamps.room) × (0 < self.new.kept.room)) }
        ensures same { self.new ≡ record self.old { stamps = self.new.stamps; kept = self.new.kept; called = self.new.called } }
        ensures stamps { self.new.stamps.table ≡ self.old.stamps.table }
        ensures kept { self.new.kept.table ≡ self.old.kept.table }
        ensures grows { (self.old.stamps.room ≤ self.new.stamps.room) × (self.old.kept.room ≤ self.new.kept.room) }
    {
        self.stamps.reserve(1)?;
        self.kept.reserve(1)?;
        Ok(())
    }

    /// A new boot number; the flagged volumes go. It takes no memory.
    pub fn start(&mut self, boot: u32)
        ensures parts { parts_of self.new ≡ booted boot (parts_of self.old) }
        ensures rest { (self.new.stamps ≡ self.old.stamps) × (self.new.kept ≡ self.old.kept) }
    {
        self.shelves.drop_flagged();
        self.boot = boot;
    }

    /// Keeps a stamp, where one is raised. It takes no memory.
    fn raise(&mut self, family: u32, stamp: u32)
        requires { 0 < self.old.stamps.room }
        ensures table { self.new.stamps.table ≡ (if nat_eq stamp 0 then self.old.stamps.table else set family stamp self.old.stamps.table) }
        ensures rest { self.new ≡ record self.old { stamps = self.new.stamps } }
    {
        if stamp == 0 {
            return;
        }
        match self.stamps.put(family, stamp) {
            Ok(()) => {}
            Err(_) => unreachable!(),
        }
    }

    /// Keeps a reply, where it has a caller. It takes no memory.
    fn keep(&mut self, caller: Option<Node>, epoch: u32, number: u32, reply: Octets)
        requires caller { IsCaller caller }
        requires room { 0 < self.old.kept.room }
        ensures table { self.new.kept.table ≡ kept_in caller epoch number reply self.old.kept.table }
        ensures rest { self.new ≡ record self.old { kept = self.new.kept; called = self.new.called } }
    {
        let Some(caller) = caller else {
            return;
        };
        are_bytes(reply.as_slice());
        let reply = KeptReply {
            caller,
            epoch,
            number,
            reply,
        };
        match self.kept.put(caller.number(), reply) {
            Ok(()) => {}
            Err(_) => unreachable!(),
        }
    }

    /// Keeps what a record's head says. It takes no memory.
    pub fn note(&mut self, head: RecordHead)
        requires caller { IsCaller head.caller }
        requires room { (0 < self.old.stamps.room) × (0 < self.old.kept.room) }
        ensures { parts_of self.new ≡ noted head (parts_of self.old) }
    {
        let RecordHead {
            family,
            stamp,
            caller,
            epoch,
            number,
            reply,
        } = head;
        self.raise(family, stamp);
        self.keep(caller, epoch, number, reply);
    }
}
