//! A disk is taken up: the records that are found on it.

ghost use Rattle.std.specs.Prelude.{◌≡◌, ◌≤◌, ◌+◌, ◌⊎◌, ℕ, List, [], Some, false, length, IfErr, IfOk, MatchResult};
ghost use Rattle.afs_num.specs.declared.faults.StoreFault.TheVariants as faults;
ghost use Rattle.afs_disk.specs.Words.{LeavesOnlyBy, TellsOn, SameFaults, PassesBy};
ghost use Rattle.afs_journal.specs.Log.{IsJournal, Rests, StandsAsBefore};
ghost use Rattle.afs_journal.specs.Records.{whole_records};
ghost use Rattle.afs_journal.specs.Words.{TakenBy};
ghost use Rattle.afs_store.specs.Words.{IsCausedBy};

use afs_disk::Disk;
use afs_journal::Journal;
use afs_num::faults::{JournalFault, StoreFault};
use std::alloc::Global;

/// Makes a journal at rest of a disk.
pub(crate) fn take_up<D: Disk>(alloc: Global, disk: D) -> Result<Journal<D>, (StoreFault, D)>
    requires { D.limit disk ≤ 268435456 }
    ensures found { IfOk result (λ j. (bytes : List ℕ) → D.seen disk ≡ Some bytes → j.found ≡ whole_records bytes) }
    ensures empty { IfOk result (λ j. D.size disk ≡ 0 → (j.found ≡ []) × (j.gate ≡ 0)) }
    ensures at_rest { IfOk result (λ j. (bytes : List ℕ) → D.seen disk ≡ Some bytes → IsJournal (whole_records bytes) (D.seen j.disk) (D.may_leave j.disk)) }
    ensures told { MatchResult result (λ j. TellsOn D.Disk disk j.disk) (λ e. TellsOn D.Disk disk e.1) }
    ensures counts { IfOk result (λ j. (j.count ≡ length j.found) × ((D.size j.disk ≡ j.gate + 1) × (j.closed ≡ false))) }
    ensures any_moment { (bytes : List ℕ) → D.seen disk ≡ Some bytes → MatchResult result
        (λ j. LeavesOnlyBy D.Disk disk j.disk (StandsAsBefore (D.may_leave disk)))
        (λ e. LeavesOnlyBy D.Disk disk e.1 (StandsAsBefore (D.may_leave disk))) }
    ensures ok { IfOk result (λ j. TakenBy D.Disk disk j.disk × PassesBy D.Disk disk j.disk) }
    ensures quiet { IfOk result (λ j. SameFaults D.Disk disk j.disk) }
    ensures err { IfErr result (λ e. TakenBy D.Disk disk e.1 × IsCausedBy D.Disk disk e.1 e.0) }
    ensures reads { IfErr result (λ e. (bytes now : List ℕ) → D.seen disk ≡ Some bytes → D.seen e.1 ≡ Some now → whole_records now ≡ whole_records bytes) }
    ensures rests { IfOk result (λ j. (bytes : List ℕ) → D.seen disk ≡ Some bytes → Rests bytes → D.calls j.disk ≡ D.calls disk + 2) }
    ensures limit { MatchResult result (λ j. D.limit j.disk ≡ D.limit disk) (λ e. D.limit e.1 ≡ D.limit disk) }
    ensures refusals { IfErr result (λ e. (e.0 ≡ faults.Failed) ⊎ (e.0 ≡ faults.OutOfMemory)) }
{
    match Journal::attach(alloc, disk) {
        Ok(journal) => Ok(journal),
        Err((JournalFault::Failed, disk)) => Err((StoreFault::Failed, disk)),
        Err((JournalFault::OutOfMemory, disk)) => Err((StoreFault::OutOfMemory, disk)),
        Err((JournalFault::Full(_, _), _)) => unreachable!(),
        Err((JournalFault::Closed, _)) => unreachable!(),
    }
}
