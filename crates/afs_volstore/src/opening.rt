//! A store is made of a disk at a restart.

ghost use Rattle.std.specs.Prelude.{◌≡◌, ◌≤◌, ◌+◌, ℕ, List, [], None, Some, false, length, IfOk, IfErr, MatchResult, IsSome};
ghost use Rattle.afs_num.specs.declared.faults.StoreFault.TheVariants as faults;
ghost use Rattle.afs_disk.specs.Words.{LeavesOnlyBy, TellsOn, SameFaults, PassesBy};
ghost use Rattle.afs_journal.specs.Log.{IsJournal, Rests, StandsAsBefore};
ghost use Rattle.afs_journal.specs.Records.{whole_records};
ghost use Rattle.afs_journal.specs.Words.{TakenBy};
ghost use Rattle.spec_fold.specs.Fold.{first_bad};
ghost use Rattle.afs_volstore.specs.Stands.{StandsForVolumes};
ghost use Rattle.afs_volstore.specs.Opening.{lines_begun, IsAttachFault};
ghost use Rattle.afs_volstore.specs.Stores.{IsKept};
ghost use Rattle.afs_store.specs.Words.{IsCausedBy};

use crate::held::{Held, Part};
use crate::store::VolStore;
use afs_disk::Disk;
use afs_num::faults::StoreFault;
use afs_num::records::{Mark, StoreRecord};
use afs_num::types::Node;
use afs_seats::Seats;
use afs_store::Store;
use spec_history::lines::Lines;
use std::alloc::Global;

impl<D: Disk> VolStore<D> {
    /// The first half of a restart: takes the records of a disk one after the other. The lines are the effect lines of the
    /// last record where the disk's mark isn't the one that was told, else none. `BadRecord` with the number of the first
    /// record that can't be taken. No volume is held. Each refusal hands the disk back; a crash at any moment leaves records that one before
    /// the call might have left.
    pub fn attach(
        alloc: Global,
        disk: D,
        node: Node,
        told: Mark,
    ) -> Result<(VolStore<D>, Lines), (StoreFault, D)>
        requires { D.limit disk ≤ 268435456 }
        ensures stands { IfOk result (λ r. (bytes : List ℕ) → D.seen disk ≡ Some bytes → StandsForVolumes bytes r.0.durable) }
        ensures lines { IfOk result (λ r. (bytes : List ℕ) → D.seen disk ≡ Some bytes → lines_begun node told (D.limit disk) (whole_records bytes) ≡ Some r.1) }
        ensures at_rest { IfOk result (λ r. (bytes : List ℕ) → D.seen disk ≡ Some bytes → IsJournal (whole_records bytes) (D.seen r.0.disk) (D.may_leave r.0.disk)) }
        ensures told { MatchResult result (λ r. TellsOn D.Disk disk r.0.disk) (λ e. TellsOn D.Disk disk e.1) }
        ensures count { IfOk result (λ r. (bytes : List ℕ) → D.seen disk ≡ Some bytes → r.0.count ≡ length (whole_records bytes)) }
        ensures rest { IfOk result (λ r. r.0 ≡ record { durable = r.0.durable; disk = r.0.disk; node = node; prepared = None; closed = false; count = r.0.count; drawn = 0; holds = r.0.holds }) }
        ensures free { IfOk result (λ r. r.0.holds.table ≡ []) }
        ensures capacity { IfOk result (λ r. r.0.durable.capacity ≡ D.limit disk) }
        ensures kept { IfOk result (λ r. IsSome (D.seen disk) → IsKept r.0.durable (D.seen r.0.disk) (D.may_leave r.0.disk)) }
        ensures bad { IfErr result (λ e. (n : ℕ) → e.0 ≡ faults.BadRecord n → (bytes : List ℕ) → D.seen disk ≡ Some bytes → first_bad (D.limit disk) (whole_records bytes) ≡ Some n) }
        ensures refusals { IfErr result (λ e. IsAttachFault e.0) }
        ensures any_moment { (bytes : List ℕ) → D.seen disk ≡ Some bytes → MatchResult result
            (λ r. LeavesOnlyBy D.Disk disk r.0.disk (StandsAsBefore (D.may_leave disk)))
            (λ e. LeavesOnlyBy D.Disk disk e.1 (StandsAsBefore (D.may_leave disk))) }
        ensures ok { IfOk result (λ r. TakenBy D.Disk disk r.0.disk × PassesBy D.Disk disk r.0.disk) }
        ensures quiet { IfOk result (λ r. SameFaults D.Disk disk r.0.disk) }
        ensures err { IfErr result (λ e. TakenBy D.Disk disk e.1 × IsCausedBy D.Disk disk e.1 e.0) }
        ensures reads { IfErr result (λ e. (bytes now : List ℕ) → D.seen disk ≡ Some bytes → D.seen e.1 ≡ Some now → whole_records now ≡ whole_records bytes) }
        ensures rests { IfOk result (λ r. (bytes : List ℕ) → D.seen disk ≡ Some bytes → Rests bytes → D.calls r.0.disk ≡ D.calls disk + 2) }
        ensures limit { MatchResult result (λ r. D.limit r.0.disk ≡ D.limit disk) (λ e. D.limit e.1 ≡ D.limit disk) }
    {
        match Store::<D, StoreRecord, Part, Held>::attach(alloc, disk, node, told) {
            Ok((store, lines)) => {
                let store = VolStore {
                    alloc,
                    store,
                    holds: Seats::new(alloc),
                };
                Ok((store, lines))
            }
            Err(refused) => Err(refused),
        }
    }
}
