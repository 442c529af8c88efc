//! A journal is begun on a disk, and a store is made of it with its first record.

ghost use Rattle.std.specs.Prelude.{◌≡◌, ◌≤◌, ◌+◌, ◌++◌, ◌∷◌, ◌⊎◌, ℕ, List, [], None, Some, true, false, is_some, length, IfErr, IfOk, IsOk, IsSome, MatchResult, OnOk};
ghost use Rattle.afs_num.specs.declared.faults.StoreFault.TheVariants as faults;
ghost use Rattle.afs_disk.specs.Disk.{LeavesJust};
ghost use Rattle.afs_disk.specs.Words.{LeavesOnlyBy, TellsOn, SameFaults, PassesBy};
ghost use Rattle.afs_journal.specs.Log.{IsJournal};
ghost use Rattle.afs_journal.specs.Records.{whole_records, IsBeforeOrAfter};
ghost use Rattle.afs_store.specs.Folds.{taken_as};
ghost use Rattle.afs_store.specs.Stores.{IsKept};
ghost use Rattle.afs_store.specs.Words.{ServedBy, IsCausedBy, MovedBy};

use crate::committing::{append, place};
use crate::fold::{Fold, Unfit};
use crate::store::Store;
use crate::taking_up::take_up;
use afs_disk::Disk;
use afs_journal::Journal;
use afs_num::faults::StoreFault;
use afs_num::types::Node;
use std::alloc::Global;

/// Cuts a disk to nothing. An empty one stays as it is.
fn clear<D: Disk>(disk: &mut D) -> Result<(), StoreFault>
    ensures empty { OnOk result (D.size disk.new ≡ 0) }
    ensures told { TellsOn D.Disk disk.old disk.new }
    ensures untouched { D.size disk.old ≡ 0 → (disk.new ≡ disk.old) × IsOk result }
    ensures moved { MovedBy 1 D.Disk disk.old disk.new }
    ensures served { ServedBy D.Disk disk.old disk.new result }
    ensures refusals { IfErr result (λ e. (e ≡ faults.Failed) ⊎ (e ≡ faults.OutOfMemory)) }
{
    if disk.len() == 0 {
        return Ok(());
    }
    match disk.room(0, 0) {
        Ok(()) => {}
        Err(_) => return Err(StoreFault::OutOfMemory),
    }
    match disk.cut(0) {
        Ok(()) => Ok(()),
        Err(_) => Err(StoreFault::Failed),
    }
}

/// Begins a journal on a disk.
pub fn begin<D: Disk>(alloc: Global, disk: D) -> Result<Journal<D>, (StoreFault, D)>
    requires { D.limit disk ≤ 268435456 }
    ensures empty { IfOk result (λ j. (j.gate ≡ 0) × ((j.count ≡ 0) × (j.closed ≡ false))) }
    ensures begun { IfOk result (λ j. IsSome (D.seen disk) → IsJournal [] (D.seen j.disk) (D.may_leave j.disk)) }
    ensures told { MatchResult result (λ j. TellsOn D.Disk disk j.disk) (λ e. TellsOn D.Disk disk e.1) }
    ensures any_moment { D.seen disk ≡ Some [] → LeavesJust [] (D.may_leave disk) → MatchResult result
        (λ j. LeavesOnlyBy D.Disk disk j.disk (λ c. whole_records c ≡ []))
        (λ e. LeavesOnlyBy D.Disk disk e.1 (λ c. whole_records c ≡ [])) }
    ensures ok { IfOk result (λ j. MovedBy 7 D.Disk disk j.disk × PassesBy D.Disk disk j.disk) }
    ensures quiet { IfOk result (λ j. SameFaults D.Disk disk j.disk) }
    ensures err { IfErr result (λ e. MovedBy 7 D.Disk disk e.1 × IsCausedBy D.Disk disk e.1 e.0) }
    ensures refusals { IfErr result (λ e. (e.0 ≡ faults.Failed) ⊎ (e.0 ≡ faults.OutOfMemory)) }
{
    let mut disk = disk;
    match clear(&mut disk) {
        Ok(()) => {}
        Err(fault) => return Err((fault, disk)),
    }
    let journal = take_up(alloc, disk)?;
    Ok(journal)
}

/// Makes the first record ready, puts it on the disk, and does what it says.
fn put_first<D: Disk, R: Drop, T: Drop, S: Fold<R, T>>(
    alloc: Global,
    journal: &mut Journal<D>,
    state: &mut S,
    rec: &R,
) -> Result<(), StoreFault>
    requires fits { S.fold.Fits rec.now }
    requires taken { is_some (S.fold.done rec.now (S.fold.held state.old)) ≡ true }
    requires open { journal.old.closed ≡ false }
    requires room { journal.old.gate + length (S.fold.spelled rec.now) + 10 ≤ D.limit journal.old.disk }
    ensures held { OnOk result (S.fold.done rec.now (S.fold.held state.old) ≡ Some (S.fold.held state.new)) }
    ensures number { OnOk result ((journal.new.count ≡ journal.old.count + 1) × ((journal.new.gate ≡ journal.old.gate + length (S.fold.spelled rec.now) + 9) × (journal.new.closed ≡ false))) }
    ensures seen { TellsOn D.Disk journal.old.disk journal.new.disk }
    ensures added { OnOk result ((content : List ℕ) → D.seen journal.old.disk ≡ Some content → IsJournal (whole_records content ++ S.fold.spelled rec.now ∷ []) (D.seen journal.new.disk) (D.may_leave journal.new.disk)) }
    ensures any_moment { (content : List ℕ) → D.seen journal.old.disk ≡ Some content → LeavesJust content (D.may_leave journal.old.disk)
        → LeavesOnlyBy D.Disk journal.old.disk journal.new.disk (IsBeforeOrAfter (whole_records content) (S.fold.spelled rec.now)) }
    ensures moved { MovedBy 4 D.Disk journal.old.disk journal.new.disk }
    ensures served { ServedBy D.Disk journal.old.disk journal.new.disk result }
    ensures refusals { IfErr result (λ e. (e ≡ faults.Failed) ⊎ (e ≡ faults.OutOfMemory)) }
{
    let ready = match state.ready(alloc, rec) {
        Ok(ready) => ready,
        Err(Unfit::OutOfMemory) => return Err(StoreFault::OutOfMemory),
        Err(Unfit::Bad) => unreachable!(),
    };
    place::<D, R, T, S>(journal, state, &ready)?;
    append(journal, S::bytes(&ready))?;
    state.redo(ready);
    Ok(())
}

/// Puts the first record on a disk with a journal that has none, and makes a store of it.
pub fn filled<D: Disk, R: Drop, T: Drop, S: Fold<R, T>>(
    alloc: Global,
    journal: Journal<D>,
    node: Node,
    rec: &R,
) -> Result<Store<D, R, T, S>, (StoreFault, D)>
    requires fits { S.fold.Fits rec.now }
    requires first { S.fold.is_first rec.now ≡ true }
    requires taken { is_some (S.fold.done rec.now S.fold.nothing) ≡ true }
    requires empty { (journal.gate ≡ 0) × ((journal.count ≡ 0) × (journal.closed ≡ false)) }
    requires begun { IsSome (D.seen journal.disk) → IsJournal [] (D.seen journal.disk) (D.may_leave journal.disk) }
    requires room { length (S.fold.spelled rec.now) + 10 ≤ D.limit journal.disk }
    ensures made { IfOk result (λ s. taken_as S.fold true rec.now (S.fold.placed 1 (D.limit journal.disk) S.fold.nothing) ≡ Some s.durable) }
    ensures rest { IfOk result (λ s. s ≡ record { durable = s.durable; disk = s.disk; node = node; prepared = None; closed = false; count = 1; drawn = 0 }) }
    ensures kept { IfOk result (λ s. IsKept S.fold s.durable (D.seen s.disk) (D.may_leave s.disk)) }
    ensures first { IfOk result (λ s. IsSome (D.seen journal.disk) → IsJournal (S.fold.spelled rec.now ∷ []) (D.seen s.disk) (D.may_leave s.disk)) }
    ensures told { MatchResult result (λ s. TellsOn D.Disk journal.disk s.disk) (λ e. TellsOn D.Disk journal.disk e.1) }
    ensures refusals { IfErr result (λ e. (e.0 ≡ faults.Failed) ⊎ (e.0 ≡ faults.OutOfMemory)) }
    ensures any_moment { IsSome (D.seen journal.disk) → MatchResult result
        (λ s. LeavesOnlyBy D.Disk journal.disk s.disk (IsBeforeOrAfter [] (S.fold.spelled rec.now)))
        (λ e. LeavesOnlyBy D.Disk journal.disk e.1 (IsBeforeOrAfter [] (S.fold.spelled rec.now))) }
    ensures ok { IfOk result (λ s. MovedBy 4 D.Disk journal.disk s.disk × PassesBy D.Disk journal.disk s.disk) }
    ensures quiet { IfOk result (λ s. SameFaults D.Disk journal.disk s.disk) }
    ensures err { IfErr result (λ e. MovedBy 4 D.Disk journal.disk e.1 × IsCausedBy D.Disk journal.disk e.1 e.0) }
{
    let mut journal = journal;
    let mut state = S::nothing(alloc);
    match put_first::<D, R, T, S>(alloc, &mut journal, &mut state, rec) {
        Ok(()) => Ok(Store::of(alloc, journal, node, state)),
        Err(fault) => Err((fault, journal.into_disk())),
    }
}
