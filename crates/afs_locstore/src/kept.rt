//! The replies that outlive the database, by the numbers of their callers.

ghost use Rattle.std.specs.Prelude.{◌≡◌, ◌≤◌, ◌<◌, [], IfNone, IfSome, None, OnOk, Some, slice_get};
ghost use Rattle.afs_num.specs.Nodes.{node_number};
ghost use Rattle.afs_xdr.specs.Words.{IsBytes};
ghost use Rattle.spec_ideal.specs.Tables.{set, AscendsFrom};
ghost use Rattle.afs_locstore.specs.Kept.{AreOfNodes, IsCaller};

use afs_num::sequences::Octets;
use afs_num::types::{Key, Mem, Node};
use afs_seats::Seats;
use std::alloc::Global;
use std::marker::Model;

/// The last reply to a caller that has to outlive the database, and the call that it answers.
#[derive(Drop)]
pub struct KeptReply {
    pub caller: Node,
    pub epoch: u32,
    pub number: u32,
    pub reply: Octets,
}

/// One of these for each caller that ever changed something.
#[derive(Drop)]
pub struct KeptReplies {
    seats: Seats<KeptReply>,
}

impl Model for KeptReplies {
    ghost use Rattle.spec_records.specs.Durable.{Kept};
    ghost use Rattle.afs_seats.specs.Seated.{seen_as, Seated};
    ghost use Rattle.afs_locstore.specs.Kept.{kept_seen, AreCalled};

    ghost Value = { Seated Kept };

    ghost view = { λ k. record { table = seen_as kept_seen k.seats.table; room = k.seats.room } };

    ghost invariant = { λ k. AreCalled k.seats.table };
}

/// Bytes are bytes.
fn are_bytes(bytes: &[u8])
    ensures { IsBytes bytes.now }
{
    let _ = bytes.len();
}

impl KeptReplies {
    /// No replies. It takes no memory.
    pub fn new(alloc: Global) -> KeptReplies
        ensures { result.table ≡ [] }
    {
        KeptReplies {
            seats: Seats::new(alloc),
        }
    }

    /// Each reply stands by the number of its caller, which is a node's, and these ascend; each is bytes. Nothing is done.
    pub fn are_of_nodes(&self)
        ensures nodes { AreOfNodes self.now.table }
        ensures ordered { AscendsFrom 0 self.now.table }
    {
        let _ = self.seats.len();
    }

    /// The reply at this place in order of the callers' numbers, from 0, with the key of its call. It takes no memory.
    pub fn at(&self, place: u32) -> Option<(Key, &[u8])>
        ensures some { IfSome result (λ k. slice_get self.now.table place ≡ Some (node_number k.0.node, record { epoch = k.0.epoch; number = k.0.number; reply = k.1.now })) }
        ensures none { IfNone result (slice_get self.now.table place ≡ None) }
    {
        match self.seats.at(place as usize) {
            Some(item) => Some((
                Key {
                    node: item.1.caller,
                    epoch: item.1.epoch,
                    number: item.1.number,
                },
                item.1.reply.as_slice(),
            )),
            None => None,
        }
    }

    /// Makes room for one reply more.
    pub fn reserve(&mut self) -> Mem<()>
        ensures room { OnOk result (0 < self.new.room) }
        ensures table { self.new.table ≡ self.old.table }
        ensures kept { self.old.room ≤ self.new.room }
    {
        self.seats.reserve(1)
    }

    /// Keeps a reply to this call of a node of the cell, in the place of the one to the caller's call before. It takes no memory.
    pub fn keep(&mut self, caller: Node, epoch: u32, number: u32, reply: Octets)
        requires caller { IsCaller (Some caller) }
        requires room { 0 < self.old.room }
        ensures { self.new.table ≡ set (node_number caller) (record { epoch = epoch; number = number; reply = reply }) self.old.table }
    {
        are_bytes(reply.as_slice());
        let kept = KeptReply {
            caller,
            epoch,
            number,
            reply,
        };
        match self.seats.put(caller.number(), kept) {
            Ok(()) => {}
            Err(_) => unreachable!(),
        }
    }
}
