ghost use Rattle.std.specs.Prelude.{◌≡◌, Some, None, nat_eq, ◌&&◌};
ghost use Rattle.afs_num.specs.Nodes.{same_node};
ghost use Rattle.spec_model.specs.Calls.{call_seat, compared, is_last_call, key_of, pair_below, repeated};
ghost use Rattle.afs_call.specs.Admitting.{means};

use afs_num::keyed::{Keyed, find_keyed};
use afs_num::types::{Head, Key, Node};
use std::marker::Model;

/// What becomes of a call.
#[derive(Drop)]
pub enum Admit<'a, R: Drop> {
    /// It runs.
    Run,
    /// It has ended, and this reply is sent again.
    Kept(&'a R),
    /// It hasn't ended, and gets no answer.
    InProgress,
    /// Its caller has made a newer call, and it gets no answer.
    Old,
    /// It was made for another boot; the callee tells its boot number, which is this one.
    WrongBoot(u32),
}

// The last call of a caller, and its reply: none while the call is in progress.
#[derive(Drop)]
pub struct Seat<R: Drop> {
    caller: Node,
    epoch: u32,
    number: u32,
    reply: Option<R>,
}

impl<R: Drop> Model for Seat<R> {
    ghost use Rattle.spec_model.specs.Calls.{CallSeat};

    ghost Value = { CallSeat R };

    ghost view = { λ s. record { caller = s.caller; epoch = s.epoch; number = s.number; reply = s.reply } };
}

impl<R: Drop> Keyed for Seat<R> {
    type Key = Node;

    ghost key = { λ s. s.caller };

    ghost same = { same_node };

    fn key(&self) -> Node {
        self.caller
    }

    fn is_under(&self, other: &Node) -> bool {
        self.caller.is(other)
    }
}

/// The key of the call of this header.
pub fn key_of(head: &Head) -> Key
    ensures { result ≡ key_of head.now }
{
    Key {
        node: head.from,
        epoch: head.epoch,
        number: head.number,
    }
}

fn is_below(epoch: u32, number: u32, other_epoch: u32, other_number: u32) -> bool
    ensures { result ≡ pair_below epoch number other_epoch other_number }
{
    if epoch < other_epoch {
        true
    } else {
        epoch == other_epoch && number < other_number
    }
}

impl<R: Drop> Seat<R> {
    pub fn begun(key: Key) -> Seat<R>
        ensures { result ≡ record { caller = key.node; epoch = key.epoch; number = key.number; reply = None } }
    {
        Seat {
            caller: key.node,
            epoch: key.epoch,
            number: key.number,
            reply: None,
        }
    }

    pub fn ended(key: Key, reply: R) -> Seat<R>
        ensures { result ≡ record { caller = key.node; epoch = key.epoch; number = key.number; reply = Some reply } }
    {
        Seat {
            caller: key.node,
            epoch: key.epoch,
            number: key.number,
            reply: Some(reply),
        }
    }

    pub fn is_for(&self, key: &Key) -> bool
        ensures { result ≡ (nat_eq self.now.epoch key.now.epoch && nat_eq self.now.number key.now.number) }
    {
        self.epoch == key.epoch && self.number == key.number
    }

    fn last(&self) -> Admit<'_, R>
        ensures { means result ≡ repeated self.now.reply }
    {
        match &self.reply {
            Some(reply) => Admit::Kept(reply),
            None => Admit::InProgress,
        }
    }

    /// What becomes of this caller's call of this epoch and number.
    pub fn admit(&self, epoch: u32, number: u32) -> Admit<'_, R>
        ensures { means result ≡ compared epoch number self.now }
    {
        if is_below(epoch, number, self.epoch, self.number) {
            return Admit::Old;
        }
        if is_below(self.epoch, self.number, epoch, number) {
            return Admit::Run;
        }
        self.last()
    }
}

/// Whether this is the last call of its caller.
pub fn is_last<R: Drop>(seats: &[Seat<R>], key: &Key) -> bool
    ensures { result ≡ is_last_call key.now (call_seat key.now.node seats.now) }
{
    match find_keyed(seats, &key.node) {
        Some(seat) => seat.is_for(key),
        None => false,
    }
}
