//! A server's memory, as its store changes it.

ghost use Rattle.std.specs.Prelude.{◌≡◌};
ghost use Rattle.spec_fold.specs.Orders.{AreFew, AreFew-prop};
ghost use Rattle.afs_memory.specs.States.{parts_of};
ghost use Rattle.afs_volstore.specs.Unfitting.{unfit_of};

use crate::attaching::take_one;
use crate::creating::start_record;
use afs_memory::memory::State;
use afs_num::records::StoreRecord;
use afs_num::types::{Mem, Node};
use afs_readying::prepared::Prepared;
use afs_readying::readying::ready;
use afs_record::faults;
use afs_store::{Fold, Unfit};
use spec_history::lines::Lines;
use std::alloc::Global;
use std::marker::Model;

/// What a server's disk keeps, as contracts see it. No value of it is made.
#[derive(Drop)]
pub struct Part;

impl Model for Part {
    ghost use Rattle.spec_records.specs.Durable.{Durable, nothing_on};

    ghost Value = { Durable };

    ghost view = { λ _. nothing_on 0 };
}

/// What a server's memory holds: its volumes, no more of them than a server may have, and what stands beside them.
#[derive(Drop)]
pub struct Held {
    pub state: State,
    ghost few: { AreFew (parts_of state).volumes } by { AreFew-prop (parts_of state).volumes },
}

/// Why a record isn't taken, as the store says it.
fn unfit(fault: faults::Unfit) -> Unfit
    ensures { result ≡ unfit_of fault }
{
    match fault {
        faults::Unfit::Bad => Unfit::Bad,
        faults::Unfit::OutOfMemory => Unfit::OutOfMemory,
    }
}

impl Fold<StoreRecord, Part> for Held {
    ghost use Rattle.afs_volstore.specs.VolumeFold.{volume_fold};
    ghost use Rattle.afs_volstore.specs.VolumeLaws.{volume_sound};

    type Ready = Prepared;

    ghost fold = { volume_fold };

    ghost sound = { volume_sound };

    fn nothing(alloc: Global) -> Held {
        Held {
            state: State::new(alloc),
        }
    }

    fn take(
        &mut self,
        alloc: Global,
        node: Node,
        first: bool,
        wanted: bool,
        bytes: &[u8],
    ) -> Result<Lines, Unfit> {
        match take_one(alloc, node, &mut self.state, first, wanted, bytes) {
            Ok(lines) => Ok(lines),
            Err(fault) => {
                // The record may have been done by half, so nothing of this is kept.
                self.state = State::new(alloc);
                Err(unfit(fault))
            }
        }
    }

    fn ready(&self, _alloc: Global, rec: &StoreRecord) -> Result<Prepared, Unfit> {
        match ready(&self.state, rec) {
            Ok(ready) => Ok(ready),
            Err(fault) => Err(unfit(fault)),
        }
    }

    fn bytes(ready: &Prepared) -> &[u8] {
        ready.bytes.as_slice()
    }

    fn reserve(&mut self, ready: &Prepared) -> Mem<()> {
        self.state.reserve(&ready.redo)
    }

    fn redo(&mut self, ready: Prepared) {
        let Prepared {
            bytes: _,
            head,
            redo,
        } = ready;
        self.state.redo(head, redo);
    }

    fn boot(&self) -> u32 {
        self.state.boot
    }

    fn start(alloc: Global, boot: u32) -> StoreRecord {
        start_record(alloc, boot)
    }
}
