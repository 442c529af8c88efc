ghost use Rattle.std.specs.Prelude.{◌≡◌, ◌+◌, ◌≤◌, [], length, Some, OnOk, OnErr};
ghost use Rattle.afs_num.specs.Keyed.{HasRoom, KeepsRoom};
ghost use Rattle.spec_model.specs.Calls.{Calls, runs, call_seat, call_seated, paired, admitted, started, finished};
ghost use Rattle.afs_call.specs.Admitting.{means};

use crate::seat::{Admit, Seat, is_last, key_of};
use afs_num::keyed::{find_keyed, put_last};
use afs_num::types::{Head, Key, Mem};
use std::alloc::Global;
use std::marker::Model;

/// What a callee knows of its callers in one boot: of each one, its last call and the reply to it.
#[derive(Drop)]
pub struct CallTable<R: Drop> {
    boot: u32,
    seats: Vec<Seat<R>>,
}

impl<R: Drop> Model for CallTable<R> {
    ghost use Rattle.std.specs.Prelude.{◌-◌, length};
    ghost use Rattle.std.specs.Vec.{vec_capacity};
    ghost use Rattle.spec_model.specs.Calls.{Calls};

    ghost Value = { Calls R };

    ghost view = { λ t. record { boot = t.boot; seats = t.seats.items; room = vec_capacity t.seats - length t.seats.items } };
}

impl<R: Drop> CallTable<R> {
    /// A table without callers. It takes no memory.
    pub fn new(alloc: Global, boot: u32) -> CallTable<R>
        ensures boot { result.boot ≡ boot }
        ensures seats { result.seats ≡ [] }
    {
        CallTable {
            boot,
            seats: Vec::new(alloc),
        }
    }

    /// The callee's boot number.
    pub fn boot(&self) -> u32
        ensures { result ≡ self.now.boot }
    {
        self.boot
    }

    /// Makes room for so many more callers.
    pub fn reserve(&mut self, callers: u32) -> Mem<()>
        ensures room { OnOk result (callers ≤ self.new.room) }
        ensures boot { self.new.boot ≡ self.old.boot }
        ensures seats { self.new.seats ≡ self.old.seats }
        ensures kept { self.old.room ≤ self.new.room }
        ensures err { OnErr result (self.new ≡ self.old) }
    {
        self.seats.reserve(callers as usize)?;
        Ok(())
    }

    /// What becomes of a call. It takes no memory.
    pub fn admit(&self, head: &Head) -> Admit<'_, R>
        ensures { means result ≡ admitted self.now.boot self.now.seats head.now }
    {
        if head.boot != self.boot {
            return Admit::WrongBoot(self.boot);
        }
        match find_keyed(&self.seats, &head.from) {
            Some(seat) => seat.admit(head.epoch, head.number),
            None => Admit::Run,
        }
    }

    /// A call that is to run begins. It takes no memory; a caller's first call needs room for one caller.
    pub fn start(&mut self, key: Key)
        requires runs { paired key.epoch key.number (call_seat key.node self.old.seats) ≡ runs }
        requires room { HasRoom (call_seat key.node self.old.seats) self.old.room }
        ensures boot { self.new.boot ≡ self.old.boot }
        ensures seats { self.new.seats ≡ started key self.old.seats }
        ensures room { KeepsRoom (call_seat key.node self.old.seats) self.old.room self.new.room }
    {
        put_last(&mut self.seats, Seat::begun(key));
    }

    /// A call that is to run ends in the step in which it begins, with this reply, which is kept. It takes no memory; a caller's
    /// first call needs room for one caller.
    pub fn answer(&mut self, key: Key, reply: R)
        requires runs { paired key.epoch key.number (call_seat key.node self.old.seats) ≡ runs }
        requires room { HasRoom (call_seat key.node self.old.seats) self.old.room }
        ensures boot { self.new.boot ≡ self.old.boot }
        ensures seats { self.new.seats ≡ call_seated (record { caller = key.node; epoch = key.epoch; number = key.number; reply = Some reply }) self.old.seats }
        ensures room { KeepsRoom (call_seat key.node self.old.seats) self.old.room self.new.room }
    {
        put_last(&mut self.seats, Seat::ended(key, reply));
    }

    /// A call that was admitted to run ends with this reply, which is kept.
    pub fn keep(&mut self, head: &Head, reply: R) -> Mem<()>
        requires { admitted self.old.boot self.old.seats head.now ≡ runs }
        ensures boot { self.new.boot ≡ self.old.boot }
        ensures seats { OnOk result (self.new.seats ≡ call_seated (record { caller = head.now.from; epoch = head.now.epoch; number = head.now.number; reply = Some reply }) self.old.seats) }
        ensures err { OnErr result (self.new ≡ self.old) }
    {
        self.reserve(1)?;
        self.answer(key_of(head), reply);
        Ok(())
    }

    /// A call has ended with this reply, which is kept where the call is still its caller's last one. It takes no
    /// memory.
    pub fn finish(&mut self, key: Key, reply: R)
        ensures boot { self.new.boot ≡ self.old.boot }
        ensures seats { self.new.seats ≡ finished key reply self.old.seats }
        ensures room { self.old.room ≤ self.new.room }
    {
        if is_last(&self.seats, &key) {
            put_last(&mut self.seats, Seat::ended(key, reply));
        }
    }
}
