//! The record of a change is put on the disk, and then the change is done.

ghost use Rattle.std.specs.Prelude.{◌≡◌, ◌<◌, ◌+◌, Some, false, true, pos, IfOk, IsErrOf, IsSome};
ghost use Rattle.afs_disk.specs.Words.{SameDiskBy};
ghost use Rattle.afs_journal.specs.Words.{SameCountsBy};
ghost use Rattle.spec_ideal.specs.Tables.{get};
ghost use Rattle.spec_model.specs.Heads.{IsSoundHead};
ghost use Rattle.spec_records.specs.Durable.{has_room};
ghost use Rattle.spec_fold.specs.Fold.{folded};
ghost use Rattle.spec_records.specs.Records.{FitsRecord};
ghost use Rattle.spec_rows.specs.ServerRow as rows;
ghost use Rattle.spec_rows.specs.ServerRow.{is_client, roomed};
ghost use Rattle.afs_memory.specs.Named.{IsNamed};
ghost use Rattle.afs_decisions.specs.Deciding.{CanBeTold, IsMade};
ghost use Rattle.afs_callbacks.specs.Saving.{CanBeWritten};
ghost use Rattle.afs_server.specs.Handling.{turn_then, server_seen, RefusesNow, CanStep, ServesOver};
ghost use Rattle.afs_server.specs.Putting.{Took};
ghost use Rattle.afs_server.specs.Saving.{Puts, CanPut};
ghost use Rattle.afs_decisions.specs.declared.decided.Decided.TheVariants as decided;
ghost use Rattle.afs_server_parts.specs.declared.faults.NodeFault.TheVariants as faults;
ghost use Rattle.afs_sharing.specs.Stores.{OnDisk, Prepares};
ghost use Rattle.afs_sharing.specs.Callers.{IsToRun};

use crate::answering::keep_reply;
use crate::server::FileServer;
use afs_callbacks::saving::Planned;
use afs_disk::Disk;
use afs_num::faults::StoreFault;
use afs_num::records::StoreRecord;
use afs_num::types::{Head, Mem};
use afs_server_parts::faults::NodeFault;
use afs_sharing::committing::commit;
use afs_sharing::drawing::stand;
use afs_volstore::VolStore;
use afs_volume::{ReadyChange, ReadyNames};
use spec_history::lines::Outs;
use std::alloc::AllocError;

/// A promise lasts so many ticks.
const PROMISE_TICKS: u32 = 7200;

/// The record doesn't fit.
const NO_ROOM: i32 = 108;

/// Prepares the record of a change where there is room for it. The names of its vnodes come with it.
fn prepare<D: Disk>(store: &mut VolStore<D>, rec: &StoreRecord, names: ReadyNames) -> Mem<bool>
    requires fits { FitsRecord rec.now }
    requires taken { IsSome (folded rec.now store.old.durable) }
    requires up { store.old.closed ≡ false }
    requires named { IsNamed rec.now.body names }
    ensures room { IfOk result (λ b. b ≡ has_room store.old.durable rec.now) }
    ensures prepares { Prepares rec.now store.old store.new result }
    ensures disk { SameDiskBy D.Disk store.old.disk store.new.disk }
    ensures counts { SameCountsBy D.Disk store.old.disk store.new.disk }
{
    match store.prepare_change(rec, names) {
        Ok(()) => Ok(true),
        Err(StoreFault::Full(..)) => Ok(false),
        Err(StoreFault::OutOfMemory) => Err(AllocError),
        Err(_) => unreachable!(),
    }
}

impl FileServer {
    /// The record of a change, which is prepared, is put on the disk, and then the rest of the change is done.
    fn put<D: Disk>(
        &mut self,
        store: &mut VolStore<D>,
        head: &Head,
        planned: Planned,
        now: u32,
    ) -> Result<Outs, NodeFault>
        requires can { CanPut head.now now planned self.old store.old }
        requires prepared { store.old.prepared ≡ Some planned.rec }
        ensures puts { Puts head.now now planned self.old self.new store.old store.new result }
        ensures disk { OnDisk D.Disk (Some planned.rec) store.old.durable store.old.disk store.new.disk result }
    {
        self.callers.reserve(1)?;
        self.callbacks
            .grant(head.from, planned.granted.as_slice(), now + PROMISE_TICKS)?;
        commit(store)?;
        let (ended, kept, withdrawn) = planned.into_rest();
        keep_reply(&mut self.callers, head, kept);
        self.callbacks.withdraw(&withdrawn, now);
        let outs = self.keep(store, ended);
        Ok(outs)
    }

    /// The call of this header is refused, since there is no room for its record.
    fn refuse_full<D: Disk>(
        &mut self,
        store: &mut VolStore<D>,
        head: &Head,
        now: u32,
    ) -> Result<Outs, NodeFault>
        requires serves { ServesOver self.old store.old }
        requires head { IsSoundHead head.now }
        requires runs { IsToRun head.now self.old.seats }
        ensures answers { RefusesNow head.now (pos 108) now self.old self.new store.old store.new result }
        ensures up { IsErrOf result faults.Down → ⊥ }
    {
        let outs = self.refuse(store, head, NO_ROOM, now)?;
        Ok(outs)
    }

    /// What a change comes to is put on the disk where there is room for its record; else its call is refused.
    fn put_or_refuse<D: Disk>(
        &mut self,
        store: &mut VolStore<D>,
        head: &Head,
        room: bool,
        planned: Planned,
        now: u32,
    ) -> Result<Outs, NodeFault>
        requires serves { ServesOver self.old store.old }
        requires head { IsSoundHead head.now }
        requires can { CanPut head.now now planned self.old store.old }
        requires prepared { room ≡ true → store.old.prepared ≡ Some planned.rec }
        ensures puts { room ≡ true → Puts head.now now planned self.old self.new store.old store.new result }
        ensures disk { room ≡ true → OnDisk D.Disk (Some planned.rec) store.old.durable store.old.disk store.new.disk result }
        ensures answers { room ≡ false → RefusesNow head.now (pos 108) now self.old self.new store.old store.new result }
        ensures up { room ≡ false → IsErrOf result faults.Down → ⊥ }
    {
        if room {
            self.put(store, head, planned, now)
        } else {
            self.refuse_full(store, head, now)
        }
    }

    /// The call of this header makes this change of the volume of this number, where there is room for its record.
    pub(crate) fn save<D: Disk>(
        &mut self,
        store: &mut VolStore<D>,
        head: &Head,
        id: u32,
        change: ReadyChange,
        now: u32,
    ) -> Result<Outs, NodeFault>
        requires can { CanStep self.old store.old now }
        requires head { IsSoundHead head.now }
        requires client { is_client head.now.from ≡ true }
        requires runs { IsToRun head.now self.old.seats }
        requires told { CanBeTold head.now.opcode (decided.Changes id change) }
        requires fits { CanBeWritten change }
        requires made { (c : rows.Change) × ((get id store.old.durable.volumes ≡ Some c.before) × IsMade now id c change) }
        ensures { (c : rows.Change) → get id store.old.durable.volumes ≡ Some c.before → IsMade now id c change →
            let d = roomed (server_seen self.old store.old) now head.now c in
            Took D.Disk now d (turn_then self.old store.old now d) self.old self.new store.old store.new result }
    {
        let (change, names) = change.into_parts();
        let planned = self
            .callbacks()
            .plan_change(stand(store), head, id, change, now)?;
        let room = prepare(store, &planned.rec, names)?;
        self.put_or_refuse(store, head, room, planned, now)
    }
}
