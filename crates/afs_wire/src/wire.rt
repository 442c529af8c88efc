ghost use Rattle.std.specs.Prelude.{◌≡◌, ◌+◌, ◌-◌, ◌≤◌, ◌<◌, ◌^◌, [], ◌∷◌, ◌++◌, drop, length, take, slice_get, IfOk, IsOk, OnOk, OnErr};
ghost use Rattle.std.specs.Option.{option_copied};
ghost use Rattle.afs_num.specs.Places.{at_place};
ghost use Rattle.afs_wire.specs.Sent.{LetsGo};

use afs_num::types::{Mem, Parcel, Parcels};
use std::alloc::{AllocError, Global};
use std::marker::Model;

/// No run sends so many messages.
const MOST_MESSAGES: u64 = 4_611_686_018_427_387_904;

/// The messages of a run, in the order in which they were sent, each with its bytes. The first of them may be let go.
#[derive(Debug, Drop)]
pub struct Wire {
    gone: u64,
    parcels: Vec<Parcel>,
}

impl Model for Wire {
    ghost use Rattle.std.specs.Prelude.{◌+◌, ◌-◌, ◌<◌, ◌^◌, length};
    ghost use Rattle.std.specs.Vec.{vec_capacity};
    ghost use Rattle.afs_wire.specs.Sent.{Sent};

    ghost Value = { Sent };

    ghost view = { λ w. record { gone = w.gone; messages = w.parcels.items; room = vec_capacity w.parcels - length w.parcels.items } };

    ghost invariant = { λ w. w.gone < 2 ^ 62 };
}

fn nth(parcels: &[Parcel], n: usize) -> Option<&Parcel>
    ensures { option_copied result ≡ slice_get parcels.entry.now n }
{
    parcels.get(n)
}

/// The messages behind the first so many come to the front, in their order.
fn bring_forward(parcels: &mut [Parcel], first: usize)
    requires { first ≤ length parcels.old }
    ensures front { take (length parcels.old - first) parcels.new ≡ drop first parcels.old }
    ensures len { length parcels.new ≡ length parcels.old }
{
    for i in 0..parcels.len() - first {
        parcels.swap(i, i + first);
    }
}

impl Wire {
    /// A wire without messages. It takes no memory.
    pub fn new(alloc: Global) -> Wire
        ensures gone { result.gone ≡ 0 }
        ensures messages { result.messages ≡ [] }
    {
        Wire {
            gone: 0,
            parcels: Vec::new(alloc),
        }
    }

    /// Makes room for so many more messages.
    pub fn reserve(&mut self, messages: usize) -> Mem<()>
        ensures room { OnOk result (messages ≤ self.new.room) }
        ensures gone { self.new.gone ≡ self.old.gone }
        ensures messages { self.new.messages ≡ self.old.messages }
        ensures kept { self.old.room ≤ self.new.room }
        ensures err { OnErr result (self.new ≡ self.old) }
    {
        self.parcels.reserve(messages)?;
        Ok(())
    }

    /// Sends these messages one after another, for which there is room. It takes no memory.
    pub fn send_all(&mut self, parcels: Parcels)
        requires { length parcels ≤ self.old.room }
        ensures gone { self.new.gone ≡ self.old.gone }
        ensures sent { self.new.messages ≡ self.old.messages ++ parcels }
        ensures kept { self.old.room ≤ self.new.room + length parcels }
    {
        let mut parcels = parcels.into_vec();
        match self.parcels.append(&mut parcels) {
            Ok(()) => {}
            Err(_) => unreachable!(),
        }
    }

    /// How many were sent.
    pub fn count(&self) -> u64
        ensures count { result ≡ self.now.gone + length self.now.messages }
        ensures few { result < 2 ^ 63 + 2 ^ 62 }
    {
        self.gone + self.parcels.len() as u64
    }

    /// The message of this place, if it wasn't let go: none where nothing was sent there. It takes no memory.
    pub fn get(&self, place: u64) -> Option<&Parcel>
        requires { self.now.gone < place }
        ensures { option_copied result ≡ at_place self.now.messages (place - self.now.gone) }
    {
        nth(&self.parcels, (place - self.gone - 1) as usize)
    }

    /// The messages behind those of the first places, in the order in which they were sent. It takes no memory.
    pub fn behind(&self, places: u64) -> &[Parcel]
        requires { (self.now.gone ≤ places) × (places ≤ self.now.gone + length self.now.messages) }
        ensures messages { result.now ≡ drop (places - self.now.gone) self.now.messages }
    {
        self.parcels.split_at((places - self.gone) as usize).1
    }

    /// Messages of the first places are let go, so that they can't be had any more: all of them, or none yet where they are less than
    /// half of those that are kept, rounded down. It takes no memory.
    pub fn let_go(&mut self, places: u64)
        ensures { LetsGo places self.old self.new }
    {
        let kept = self.parcels.len();
        if places <= self.gone || MOST_MESSAGES <= places {
            return;
        }
        let some = ((places - self.gone) as usize).min(kept);
        if some < kept / 2 {
            return;
        }
        bring_forward(&mut self.parcels, some);
        self.parcels.truncate(kept - some);
        self.gone += some as u64;
    }
}
