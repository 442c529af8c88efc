//! A store is made of a disk at set-up.

ghost use Rattle.afs_store.specs.Stores.{IsSetUpFault};
ghost use Rattle.std.specs.Prelude.{◌≡◌, ◌≤◌, ◌<◌, ◌^◌, ◌∷◌, ◌⊎◌, ℕ, [], None, Some, true, false, is_some, length, map, IfErr, IfOk, IsSome, MatchResult};
ghost use Rattle.afs_num.specs.declared.faults.StoreFault.TheVariants as faults;
ghost use Rattle.afs_num.specs.declared.records.StoreRecord as records;
ghost use Rattle.afs_disk.specs.Disk.{LeavesJust};
ghost use Rattle.afs_disk.specs.Words.{LeavesOnlyBy, TellsOn, SameFaults, PassesBy};
ghost use Rattle.afs_journal.specs.Log.{IsJournal};
ghost use Rattle.spec_records.specs.Changes.{first_record};
ghost use Rattle.spec_fold.specs.SetUps.{set_up};
ghost use Rattle.spec_fold.specs.Fold.{body_taken, is_first};
ghost use Rattle.spec_records.specs.Durable.{Durable};
ghost use Rattle.spec_records.specs.Records.{record_bytes, FitsRecord};
ghost use Rattle.afs_volstore.specs.Opening.{CanBeSetUp, IsSetUpSoFar};
ghost use Rattle.afs_volstore.specs.Stores.{IsKept, IsCausedBy, MovedBy};

use crate::laying::{first_record, record_length};
use afs_disk::Disk;
use afs_num::faults::StoreFault;
use afs_num::records::StoreRecord;
use afs_num::types::{Mem, Node};
use afs_volstore::VolStore;
use afs_volstore::creating::{begin, filled};
use spec_history::scripts::VolumeLine;
use spec_records::laws::records_are_read_again;
use std::alloc::Global;

/// How many bytes a journal without records has.
const EMPTY: u64 = 1;

/// How many bytes a journal with one record has besides it.
const FRAME: u64 = 10;

/// The first record of a disk with these volumes, and how many bytes it has.
fn first_spelled(alloc: Global, volumes: &[&VolumeLine]) -> Mem<(StoreRecord, u64)>
    requires { CanBeSetUp (map (λ l. l.now) volumes.now) }
    ensures value { IfOk result (λ r. first_record (map (λ l. l.now) volumes.now) ≡ Some r.0) }
    ensures fits { IfOk result (λ r. FitsRecord r.0) }
    ensures taken { IfOk result (λ r. (d : Durable) → d.volumes ≡ [] → is_some (body_taken r.0.body d) ≡ true) }
    ensures first { IfOk result (λ r. is_first r.0.body ≡ true) }
    ensures length { IfOk result (λ r. r.1 ≡ length (record_bytes r.0)) }
    ensures small { IfOk result (λ r. r.1 < 2 ^ 63) }
{
    let rec = first_record(alloc, volumes)?;
    match record_length(alloc, &rec) {
        Ok(len) => Ok((rec, len)),
        Err(fault) => {
            drop(rec);
            Err(fault)
        }
    }
}

/// Sets a disk up for these volumes of one server: cuts it to nothing, and puts the first record on it. Each refusal
/// hands the disk back; where the record doesn't fit, as it was.
pub fn create<D: Disk>(
    alloc: Global,
    disk: D,
    node: Node,
    volumes: &[&VolumeLine],
) -> Result<VolStore<D>, (StoreFault, D)>
    requires limit { D.limit disk ≤ 268435456 }
    requires lines { CanBeSetUp (map (λ l. l.now) volumes.now) }
    ensures made { IfOk result (λ s. set_up (D.limit disk) (map (λ l. l.now) volumes.now) ≡ Some s.durable) }
    ensures rest { IfOk result (λ s. s ≡ record { durable = s.durable; disk = s.disk; node = node; prepared = None; closed = false; count = 1; drawn = 0; holds = s.holds }) }
    ensures free { IfOk result (λ s. s.holds.table ≡ []) }
    ensures kept { IfOk result (λ s. IsKept s.durable (D.seen s.disk) (D.may_leave s.disk)) }

    // Where the disk told its bytes, the first record alone stands there, and every crash leaves it.
    ensures first { IfOk result (λ s. IsSome (D.seen disk) → (r : records.StoreRecord) → first_record (map (λ l. l.now) volumes.now) ≡ Some r → IsJournal (record_bytes r ∷ []) (D.seen s.disk) (D.may_leave s.disk)) }
    ensures told { MatchResult result (λ s. TellsOn D.Disk disk s.disk) (λ e. TellsOn D.Disk disk e.1) }

    ensures full { IfErr result (λ e. (used capacity : ℕ) → e.0 ≡ faults.Full used capacity → (used ≡ 1) × ((capacity ≡ D.limit disk) × (set_up (D.limit disk) (map (λ l. l.now) volumes.now) ≡ None))) }
    ensures untouched { IfErr result (λ e. (used capacity : ℕ) → e.0 ≡ faults.Full used capacity → e.1 ≡ disk) }
    ensures refusals { IfErr result (λ e. IsSetUpFault e.0) }

    // Where the record doesn't fit no device call is made: Full comes before a disk's failure.
    ensures room { set_up (D.limit disk) (map (λ l. l.now) volumes.now) ≡ None → MatchResult result (λ s. ⊥)
        (λ e. (e.1 ≡ disk) × ((e.0 ≡ faults.OutOfMemory) ⊎ (e.0 ≡ faults.Full 1 (D.limit disk)))) }

    // On an empty disk a crash at any moment leaves no record, or the first.
    ensures any_moment { D.seen disk ≡ Some [] → LeavesJust [] (D.may_leave disk) → MatchResult result
        (λ s. LeavesOnlyBy D.Disk disk s.disk (IsSetUpSoFar (D.limit disk) (map (λ l. l.now) volumes.now)))
        (λ e. LeavesOnlyBy D.Disk disk e.1 (IsSetUpSoFar (D.limit disk) (map (λ l. l.now) volumes.now))) }

    // It makes at most twelve device calls.
    ensures ok { IfOk result (λ s. MovedBy 12 D.Disk disk s.disk × PassesBy D.Disk disk s.disk) }
    ensures quiet { IfOk result (λ s. SameFaults D.Disk disk s.disk) }
    ensures err { IfErr result (λ e. MovedBy 12 D.Disk disk e.1 × IsCausedBy D.Disk disk e.1 e.0) }
{
    records_are_read_again();
    let (rec, len) = match first_spelled(alloc, volumes) {
        Ok(first) => first,
        Err(_) => return Err((StoreFault::OutOfMemory, disk)),
    };
    let capacity = disk.capacity();
    if len + FRAME > capacity {
        drop(rec);
        return Err((StoreFault::Full(EMPTY, capacity), disk));
    }
    let journal = match begin(alloc, disk) {
        Ok(journal) => journal,
        Err(refused) => {
            drop(rec);
            return Err(refused);
        }
    };
    let store = filled(alloc, journal, node, &rec);
    drop(rec);
    store
}
