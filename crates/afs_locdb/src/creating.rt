//! The database is set up on a disk, for the volumes of a script.

ghost use Rattle.std.specs.Prelude.{◌≡◌, ◌≤◌, ◌<◌, ◌^◌, ◌∷◌, ◌⊎◌, ◌↔◌, ℕ, [], None, Some, false, length, IfErr, IfOk, IsSome, MatchResult};
ghost use Rattle.afs_disk.specs.Words.{LeavesOnlyBy, PassesBy, SameFaults, TellsOn};
ghost use Rattle.afs_store.specs.Words.{IsCausedBy, MovedBy};
ghost use Rattle.afs_num.specs.declared.faults.StoreFault.TheVariants as faults;
ghost use Rattle.afs_num.specs.declared.types.Node.TheVariants.{Loc};
ghost use Rattle.afs_disk.specs.Disk.{LeavesJust};
ghost use Rattle.afs_journal.specs.Log.{IsJournal};
ghost use Rattle.spec_records.specs.Entries.{entry_of_line};
ghost use Rattle.spec_records.specs.LocDurable.{lines_listed, loc_first_record, loc_set_up};
ghost use Rattle.spec_records.specs.LocRecords.{loc_record_bytes, FitsLocRecord};
ghost use Rattle.afs_store.specs.Stores.{IsKept, IsSetUpFault};
ghost use Rattle.afs_locstore.specs.LocFold.{loc_fold};
ghost use Rattle.afs_locdb.specs.Creating.{CanBeListed, IsSetUpSoFar};
ghost use Rattle.afs_locdb.specs.Seen.{Serves};

use crate::database::LocDb;
use afs_disk::Disk;
use afs_locrecord::records::encode_loc_record;
use afs_locrecord::types::{AllListed, Body, Listed, LocRecord};
use afs_locstore::held::{Held, Part, no_head};
use afs_num::faults::StoreFault;
use afs_num::location_calls::{LocEntry, LocSite, LocSites};
use afs_num::types::{Mem, Node};
use afs_store::beginning::{begin, filled};
use spec_history::scripts::{VolumeLine, VolumeLines};
use spec_records::laws::loc_records_are_read_again;
use std::alloc::Global;

/// How many bytes a journal without records has.
const EMPTY: u64 = 1;

/// How many bytes a journal with one record has besides it.
const FRAME: u64 = 10;

/// Volumes are numbered from here on.
const FIRST_ID: u32 = 536_870_912;

/// And stamps from here.
const FIRST_STAMP: u32 = 1;

/// The flag of the site of a read-write volume.
const READ_WRITE_SITE: u32 = 4;

/// The flag of a family that has a read-write volume.
const HAS_READ_WRITE: u32 = 4_096;

/// The entry of a volume of a script, which has no copies.
fn entry_of(alloc: Global, line: &VolumeLine) -> Mem<LocEntry>
    ensures { IfOk result (λ e. e ≡ entry_of_line line.now) }
{
    let mut sites = LocSites::new(alloc);
    sites.push(LocSite {
        server: line.server as u32,
        flags: READ_WRITE_SITE,
    })?;
    Ok(LocEntry {
        name: line.name.copy(alloc)?,
        read_write: line.id,
        read_only: 0,
        backup: 0,
        flags: HAS_READ_WRITE,
        sites,
    })
}

/// The entries of set-up, unlocked.
fn entries_of(alloc: Global, volumes: &[VolumeLine]) -> Mem<AllListed>
    ensures { IfOk result (λ ls. ls ≡ lines_listed volumes.now) }
{
    let mut entries = AllListed::new(alloc);
    for line in volumes {
        entries.push(Listed {
            entry: entry_of(alloc, line)?,
            lock: None,
        })?;
    }
    Ok(entries)
}

/// The first record of a disk with these volumes.
fn first_of(alloc: Global, volumes: &VolumeLines) -> Mem<LocRecord>
    requires { CanBeListed volumes.now }
    ensures { IfOk result (λ r. r ≡ loc_first_record volumes.now) }
{
    let entries = entries_of(alloc, volumes.as_slice())?;
    Ok(LocRecord {
        head: no_head(alloc),
        body: Body::First {
            entries,
            next_id: FIRST_ID + volumes.len() as u32,
            next_stamp: FIRST_STAMP,
        },
    })
}

/// The same, which has a spelling.
fn first_record(alloc: Global, volumes: &VolumeLines) -> Mem<LocRecord>
    requires { CanBeListed volumes.now }
    ensures value { IfOk result (λ r. r ≡ loc_first_record volumes.now) }
    ensures fits { IfOk result (λ r. FitsLocRecord r) }
{
    let rec = first_of(alloc, volumes)?;
    Ok(rec)
}

/// How many bytes a record has.
fn record_length(alloc: Global, rec: &LocRecord) -> Mem<u64>
    requires { FitsLocRecord rec.now }
    ensures value { IfOk result (λ n. n ≡ length (loc_record_bytes rec.now)) }
    ensures small { IfOk result (λ n. n < 2 ^ 63) }
{
    let bytes = encode_loc_record(alloc, rec)?;
    Ok(bytes.len() as u64)
}

/// The length of the first record for these volumes, which are those of all servers.
pub fn first_length(alloc: Global, volumes: &VolumeLines) -> Mem<u64>
    requires { CanBeListed volumes.now }
    ensures { IfOk result (λ n. n ≡ length (loc_record_bytes (loc_first_record volumes.now))) }
{
    let rec = first_record(alloc, volumes)?;
    record_length(alloc, &rec)
}

/// The first record of a disk with these volumes, and how many bytes it has.
fn first_spelled(alloc: Global, volumes: &VolumeLines) -> Mem<(LocRecord, u64)>
    requires { CanBeListed volumes.now }
    ensures value { IfOk result (λ r. r.0 ≡ loc_first_record volumes.now) }
    ensures fits { IfOk result (λ r. FitsLocRecord r.0) }
    ensures length { IfOk result (λ r. (r.1 ≡ length (loc_record_bytes r.0)) × (r.1 < 2 ^ 63)) }
{
    let rec = first_record(alloc, volumes)?;
    let len = record_length(alloc, &rec)?;
    Ok((rec, len))
}

impl<D: Disk> LocDb<D> {
    /// Sets a disk up for these volumes: cuts it to nothing, and puts the first record on it. Each refusal hands the disk back; where
    /// the record doesn't fit, as it was.
    pub fn create(
        alloc: Global,
        disk: D,
        volumes: &VolumeLines,
    ) -> Result<LocDb<D>, (StoreFault, D)>
        requires limit { D.limit disk ≤ 268435456 }
        requires lines { CanBeListed volumes.now }
        ensures made { IfOk result (λ b. loc_set_up (D.limit disk) volumes.now ≡ Some b.store.durable) }
        ensures rest { IfOk result (λ b. b ≡ record { store = record { durable = b.store.durable; disk = b.store.disk; node = Loc; prepared = None; closed = false; count = 1; drawn = 0 }; boot = 1; seats = [] }) }
        ensures serves { IfOk result (λ b. Serves b) }
        ensures kept { IfOk result (λ b. IsKept loc_fold b.store.durable (D.seen b.store.disk) (D.may_leave b.store.disk)) }

        // Where the disk told its bytes, the first record alone stands there, and every crash leaves it.
        ensures first { IfOk result (λ b. IsSome (D.seen disk) → IsJournal (loc_record_bytes (loc_first_record volumes.now) ∷ []) (D.seen b.store.disk) (D.may_leave b.store.disk)) }
        ensures told { MatchResult result (λ b. TellsOn D.Disk disk b.store.disk) (λ e. TellsOn D.Disk disk e.1) }

        ensures full { IfErr result (λ e. (used capacity : ℕ) → e.0 ≡ faults.Full used capacity → (used ≡ 1) × ((capacity ≡ D.limit disk) × (loc_set_up (D.limit disk) volumes.now ≡ None))) }
        ensures untouched { IfErr result (λ e. (used capacity : ℕ) → e.0 ≡ faults.Full used capacity → e.1 ≡ disk) }
        ensures refusals { IfErr result (λ e. IsSetUpFault e.0) }

        // Where the record doesn't fit no device call is made: Full comes before a disk's failure.
        ensures room { loc_set_up (D.limit disk) volumes.now ≡ None → MatchResult result (λ b. ⊥)
            (λ e. (e.1 ≡ disk) × ((e.0 ≡ faults.OutOfMemory) ⊎ (e.0 ≡ faults.Full 1 (D.limit disk)))) }

        // On an empty disk a crash at any moment leaves no record, or the first.
        ensures any_moment { D.seen disk ≡ Some [] → LeavesJust [] (D.may_leave disk) → MatchResult result
            (λ b. LeavesOnlyBy D.Disk disk b.store.disk (IsSetUpSoFar (D.limit disk) volumes.now))
            (λ e. LeavesOnlyBy D.Disk disk e.1 (IsSetUpSoFar (D.limit disk) volumes.now)) }

        // It makes at most twelve device calls.
        ensures ok { IfOk result (λ b. MovedBy 12 D.Disk disk b.store.disk × PassesBy D.Disk disk b.store.disk) }
        ensures quiet { IfOk result (λ b. SameFaults D.Disk disk b.store.disk) }
        ensures err { IfErr result (λ e. MovedBy 12 D.Disk disk e.1 × IsCausedBy D.Disk disk e.1 e.0) }
    {
        loc_records_are_read_again();
        let (rec, len) = match first_spelled(alloc, volumes) {
            Ok(first) => first,
            Err(_) => return Err((StoreFault::OutOfMemory, disk)),
        };
        let capacity = disk.capacity();
        if len + FRAME > capacity {
            drop(rec);
            return Err((StoreFault::Full(EMPTY, capacity), disk));
        }
        let journal = match begin(alloc, disk) {
            Ok(journal) => journal,
            Err(refused) => {
                drop(rec);
                return Err(refused);
            }
        };
        let store = filled::<D, LocRecord, Part, Held>(alloc, journal, Node::Loc, &rec);
        drop(rec);
        match store {
            Ok(store) => Ok(LocDb::over(alloc, store)),
            Err(refused) => Err(refused),
        }
    }
}
