//! The database's memory, as its store changes it.

ghost use Rattle.std.specs.Prelude.{◌≡◌};
ghost use Rattle.spec_records.specs.Changes.{no_head};
ghost use Rattle.spec_records.specs.LocDurable.{loc_boot_record};
ghost use Rattle.spec_records.specs.LocRecords.{FitsLocRecord};
ghost use Rattle.spec_records.specs.Records.{head_form};

use crate::attaching::take_one;
use crate::memory::State;
use crate::ready::Ready;
use crate::readying::ready;
use afs_locrecord::types::{Body, LocRecord};
use afs_num::records::RecordHead;
use afs_num::sequences::Octets;
use afs_num::types::{Mem, Node};
use afs_record::faults;
use afs_store::{Fold, Store, Unfit};
use spec_history::lines::Lines;
use std::alloc::Global;
use std::marker::Model;

/// What the database's disk keeps, as contracts see it. No value of it is made.
#[derive(Drop)]
pub struct Part;

impl Model for Part {
    ghost use Rattle.spec_records.specs.LocDurable.{nothing_listed, LocDurable};

    ghost Value = { LocDurable };

    ghost view = { λ _. nothing_listed 0 };
}

/// What the database's memory holds of its disk.
#[derive(Drop)]
pub struct Held {
    pub state: State,
}

/// All of it, on a disk.
pub type LocStore<D> = Store<D, LocRecord, Part, Held>;

/// The head of a record that keeps no reply.
#[tactic(auto, unfolding(spec_records::specs::Records::head_form))]
pub fn no_head(alloc: Global) -> RecordHead
    ensures value { result ≡ no_head }
    ensures fits { head_form.Fits result }
{
    RecordHead {
        family: 0,
        stamp: 0,
        caller: None,
        epoch: 0,
        number: 0,
        reply: Octets::new(alloc),
    }
}

/// The record of a start with this boot number.
fn start_record(alloc: Global, boot: u32) -> LocRecord
    ensures record { result ≡ loc_boot_record boot }
    ensures fits { FitsLocRecord result }
{
    LocRecord {
        head: no_head(alloc),
        body: Body::Boot { boot },
    }
}

impl Fold<LocRecord, Part> for Held {
    ghost use Rattle.afs_locstore.specs.LocFold.{loc_fold};
    ghost use Rattle.afs_locstore.specs.LocSound.{loc_sound};

    type Ready = Ready;

    ghost fold = { loc_fold };

    ghost sound = { loc_sound };

    fn nothing(alloc: Global) -> Held {
        Held {
            state: State::new(alloc),
        }
    }

    fn take(
        &mut self,
        alloc: Global,
        node: Node,
        first: bool,
        wanted: bool,
        bytes: &[u8],
    ) -> Result<Lines, Unfit> {
        match take_one(alloc, node, &mut self.state, first, wanted, bytes) {
            Ok(lines) => Ok(lines),
            Err(faults::Unfit::Bad) => Err(Unfit::Bad),
            Err(faults::Unfit::OutOfMemory) => Err(Unfit::OutOfMemory),
        }
    }

    fn ready(&self, alloc: Global, rec: &LocRecord) -> Result<Ready, Unfit> {
        match ready(alloc, rec) {
            Ok(ready) => Ok(ready),
            Err(_) => Err(Unfit::OutOfMemory),
        }
    }

    fn bytes(ready: &Ready) -> &[u8] {
        ready.bytes.as_slice()
    }

    fn reserve(&mut self, ready: &Ready) -> Mem<()> {
        self.state.reserve(&ready.redo)
    }

    fn redo(&mut self, ready: Ready) {
        let Ready {
            bytes: _,
            head,
            redo,
        } = ready;
        self.state.redo(head, redo);
    }

    fn boot(&self) -> u32 {
        self.state.boot
    }

    fn start(alloc: Global, boot: u32) -> LocRecord {
        start_record(alloc, boot)
    }
}
