//! The disk of a store that is there is taken up anew.

ghost use Rattle.std.specs.Prelude.{◌≡◌, ◌≤◌, ◌+◌, ℕ, List, Some, false, MatchResult, OnOk};
ghost use Rattle.afs_journal.specs.Log.{IsJournal};
ghost use Rattle.afs_store.specs.Rereading.{disk_after, IsAttached, IsMade, IsNotMade, IsRefused};
ghost use Rattle.afs_store.specs.Stores.{IsCounted, IsKept, Stands};
ghost use Rattle.afs_store.specs.Words.{IsTakenUpBy};
ghost use Rattle.afs_disk.specs.Words.{SameFaults};

use crate::fold::Fold;
use crate::opening::made;
use crate::store::Store;
use crate::taking_up::take_up;
use afs_disk::{Disk, Fuse};
use afs_journal::Journal;
use afs_num::faults::StoreFault;
use afs_num::types::Node;
use std::alloc::Global;

/// A store over a journal. Where that is as long as the one whose records made this, its records make this too; else they are
/// taken anew.
fn remade<D: Disk, R: Drop, T: Drop, S: Fold<R, T>>(
    alloc: Global,
    journal: Journal<D>,
    node: Node,
    state: S,
    len: u64,
) -> Result<Store<D, R, T, S>, (StoreFault, D)>
    requires counted { IsCounted journal.count (D.seen journal.disk) }
    requires ends { D.size journal.disk ≡ journal.gate + 1 }
    requires rests { (bytes : List ℕ) → D.seen journal.disk ≡ Some bytes → IsJournal journal.found (D.seen journal.disk) (D.may_leave journal.disk) }
    requires kept { IsKept S.fold (S.fold.placed len (D.limit journal.disk) (S.fold.held state)) (D.seen journal.disk) (D.may_leave journal.disk) }
    ensures { MatchResult result (IsMade (Stands S.fold) S.fold.capacity D.seen D.may_leave D.limit node journal) (IsNotMade S.fold.first_bad journal) }
{
    if journal.len() == len {
        return Ok(Store::of(alloc, journal, node, state));
    }
    drop(state);
    let (store, _lines) = made(alloc, journal, node, false)?;
    Ok(store)
}

/// A store over a disk. Where its journal is as long as the one whose records made this, its records aren't taken anew.
fn again<D: Disk, R: Drop, T: Drop, S: Fold<R, T>>(
    alloc: Global,
    disk: D,
    node: Node,
    state: S,
    len: u64,
) -> Result<Store<D, R, T, S>, (StoreFault, D)>
    requires limit { D.limit disk ≤ 268435456 }
    requires kept { IsKept S.fold (S.fold.placed len (D.limit disk) (S.fold.held state)) (D.seen disk) (D.may_leave disk) }
    ensures disk { IsTakenUpBy D.Disk disk (disk_after result) }
    ensures quiet { OnOk result (SameFaults D.Disk disk (disk_after result)) }
    ensures attached { MatchResult result (IsAttached (Stands S.fold) S.fold.capacity D.seen D.may_leave D.calls D.setting D.limit node disk) (IsRefused S.fold.first_bad D.seen D.faults D.own_faults D.calls D.setting D.limit disk) }
{
    let journal = take_up(alloc, disk)?;
    remade(alloc, journal, node, state, len)
}

impl<D: Disk, R: Drop, T: Drop, S: Fold<R, T>> Store<Fuse<D>, R, T, S> {
    /// The disk is taken out of its fuse, and a store is made of it as `attach` makes one, with the same device calls. Where the
    /// journal that is found there is as long as that of this store, its records aren't taken anew: the store has what they make.
    pub fn attach_again(self) -> Result<Store<D, R, T, S>, (StoreFault, D)>
        requires open { self.closed ≡ false }
        requires limit { D.limit self.disk.disk ≤ 268435456 }
        ensures was { IsKept S.fold self.durable (D.seen self.disk.disk) (D.may_leave self.disk.disk) × (S.fold.capacity self.durable ≡ D.limit self.disk.disk) }
        ensures disk { IsTakenUpBy D.Disk self.disk.disk (disk_after result) }
        ensures quiet { OnOk result (SameFaults D.Disk self.disk.disk (disk_after result)) }
        ensures attached { MatchResult result (IsAttached (Stands S.fold) S.fold.capacity D.seen D.may_leave D.calls D.setting D.limit self.node self.disk.disk) (IsRefused S.fold.first_bad D.seen D.faults D.own_faults D.calls D.setting D.limit self.disk.disk) }
    {
        let Store {
            alloc,
            journal,
            node,
            state,
            prepared,
            drawn: _,
            records: _,
            kept: _,
        } = self;
        drop(prepared);
        let len = journal.len();
        let disk = journal.into_disk().into_inner();
        again(alloc, disk, node, state, len)
    }
}
