//! A store is made of a disk at a restart.

ghost use Rattle.std.specs.Prelude.{◌≡◌, ◌≤◌, ◌+◌, ℕ, List, Some, IfErr, IfOk, MatchResult};
ghost use Rattle.afs_journal.specs.Log.{IsJournal};
ghost use Rattle.afs_journal.specs.Records.{whole_records};
ghost use Rattle.afs_store.specs.Folds.{TellsLast};
ghost use Rattle.afs_store.specs.Opening.{lines_begun, same_mark};
ghost use Rattle.afs_store.specs.Rereading.{IsAttached, IsMade, IsNotMade, IsRefused};
ghost use Rattle.afs_store.specs.Stores.{IsCounted, Stands};
ghost use Rattle.afs_store.specs.Words.{IsTakenUpBy};
ghost use Rattle.afs_disk.specs.Words.{SameFaults};

use crate::fold::Fold;
use crate::replaying::fold;
use crate::store::Store;
use crate::taking_up::take_up;
use afs_disk::Disk;
use afs_journal::Journal;
use afs_num::faults::StoreFault;
use afs_num::records::Mark;
use afs_num::types::Node;
use spec_history::lines::Lines;
use std::alloc::Global;

/// Whether the mark that was told is that of the disk.
fn is_told<D: Disk>(journal: &Journal<D>, told: Mark) -> bool
    ensures { result ≡ same_mark (record { generation = 0; records = journal.now.count }) told }
{
    told.generation == 0 && told.records as u64 == journal.count()
}

/// A store over a journal that was taken up, with what its records make; and the lines of the last, where they are wanted.
pub(crate) fn made<D: Disk, R: Drop, T: Drop, S: Fold<R, T>>(
    alloc: Global,
    journal: Journal<D>,
    node: Node,
    wanted: bool,
) -> Result<(Store<D, R, T, S>, Lines), (StoreFault, D)>
    requires counted { IsCounted journal.count (D.seen journal.disk) }
    requires ends { D.size journal.disk ≡ journal.gate + 1 }
    requires rests { (bytes : List ℕ) → D.seen journal.disk ≡ Some bytes → IsJournal journal.found (D.seen journal.disk) (D.may_leave journal.disk) }
    ensures made { MatchResult result (λ r. IsMade (Stands S.fold) S.fold.capacity D.seen D.may_leave D.limit node journal r.0) (IsNotMade S.fold.first_bad journal) }
    ensures lines { IfOk result (λ r. TellsLast S.fold node wanted journal.found r.1) }
{
    match fold::<R, T, S>(alloc, node, journal.records(), wanted) {
        Ok((state, lines)) => Ok((Store::of(alloc, journal, node, state), lines)),
        Err(fault) => Err((fault, journal.into_disk())),
    }
}

impl<D: Disk, R: Drop, T: Drop, S: Fold<R, T>> Store<D, R, T, S> {
    /// The first half of a restart: takes the records of a disk one after the other. The lines are the effect lines of the
    /// last record where the disk's mark isn't the one that was told, else none. `BadRecord` with the number of the first
    /// record that can't be taken. Each refusal hands the disk back; a crash at any moment leaves records that one before
    /// the call might have left.
    pub fn attach(
        alloc: Global,
        disk: D,
        node: Node,
        told: Mark,
    ) -> Result<(Store<D, R, T, S>, Lines), (StoreFault, D)>
        requires { D.limit disk ≤ 268435456 }
        ensures disk { MatchResult result
            (λ r. IsTakenUpBy D.Disk disk r.0.disk)
            (λ e. IsTakenUpBy D.Disk disk e.1) }
        ensures attached { MatchResult result
            (λ r. IsAttached (Stands S.fold) S.fold.capacity D.seen D.may_leave D.calls D.setting D.limit node disk r.0)
            (IsRefused S.fold.first_bad D.seen D.faults D.own_faults D.calls D.setting D.limit disk) }
        ensures lines { IfOk result (λ r. (bytes : List ℕ) → D.seen disk ≡ Some bytes → lines_begun S.fold node told (D.limit disk) (whole_records bytes) ≡ Some r.1) }
        ensures quiet { IfOk result (λ r. SameFaults D.Disk disk r.0.disk) }
        ensures reads { IfErr result (λ e. (bytes now : List ℕ) → D.seen disk ≡ Some bytes → D.seen e.1 ≡ Some now → whole_records now ≡ whole_records bytes) }
    {
        let journal = take_up(alloc, disk)?;
        let wanted = !is_told(&journal, told);
        match made(alloc, journal, node, wanted) {
            Ok((store, lines)) => Ok((store, lines)),
            Err(refused) => Err(refused),
        }
    }
}
