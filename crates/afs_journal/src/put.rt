// The four device calls of an append.
ghost use Rattle.std.specs.Prelude.{◌≡◌, ◌≤◌, ◌<◌, ◌+◌, ◌^◌, List, ℕ, [], ◌∷◌, ◌++◌, length, Some, OnOk};
ghost use Rattle.afs_disk.specs.Disk.{Holds};
ghost use Rattle.afs_disk.specs.Words.{LeavesOnlyBy, RanBy, TellsOn, CallsAtMost};
ghost use Rattle.afs_journal.specs.Records.{whole_records, IsBeforeOrAfter};
ghost use Rattle.afs_journal.specs.Log.{IsJournal, IsSettled, Spells};
ghost use Rattle.afs_journal.specs.Words.{LeavesByPickOf, ReachesBy};

use afs_disk::Disk;
use afs_num::devices::Failed;

/// The gate byte of a whole record.
const OPEN: u8 = 1;

/// Writes a place, which is a record with its head and the next gate, behind the closed gate at the end of a journal,
/// and opens that gate. The place is on the disk before the gate is touched.
pub(crate) fn put<D: Disk>(disk: &mut D, gate: u64, place: &[u8]) -> Result<(), Failed>
    requires short { gate < 2 ^ 63 }
    requires ends { D.size disk.old ≡ gate + 1 }
    requires room { Holds 4 (length place.now + 1) (gate + 1 + length place.now) (D.space disk.old) }

    ensures size { OnOk result (D.size disk.new ≡ gate + 1 + length place.now) }

    ensures told { TellsOn D.Disk disk.old disk.new }

    // Where the disk tells: after Ok there is one record more, and every crash leaves it.
    ensures done { OnOk result ((count : ℕ) (body bytes : List ℕ) → Spells count body place.now → D.seen disk.old ≡ Some bytes → IsSettled count gate (D.may_leave disk.old) bytes
        → IsJournal (whole_records bytes ++ body ∷ []) (D.seen disk.new) (D.may_leave disk.new)) }

    // A crash at any moment leaves the records from before, with the new one or without.
    ensures any_moment { (count : ℕ) (body bytes : List ℕ) → Spells count body place.now → D.seen disk.old ≡ Some bytes → IsSettled count gate (D.may_leave disk.old) bytes
        → LeavesOnlyBy D.Disk disk.old disk.new (IsBeforeOrAfter (whole_records bytes) body) }

    // Where the disk was set to stop or to fail at one of the calls, that one tells what a crash with each pick leaves.
    ensures reached { ReachesBy D.Disk disk.old disk.new }
    ensures left { (count : ℕ) (body bytes : List ℕ) → Spells count body place.now → D.seen disk.old ≡ Some bytes → IsSettled count gate (D.may_leave disk.old) bytes
        → LeavesByPickOf D.Disk (whole_records bytes) body disk.old disk.new }

    ensures made { OnOk result (D.calls disk.new ≡ D.calls disk.old + 4) }
    ensures calls { CallsAtMost 4 D.Disk disk.old disk.new }
    ensures setting { D.setting disk.new ≡ D.setting disk.old }
    ensures cause { RanBy D.Disk disk.old disk.new result }
    ensures limit { D.limit disk.new ≡ D.limit disk.old }
{
    disk.write_at(gate + 1, place)?;
    disk.sync()?;
    disk.write_at(gate, &[OPEN])?;
    disk.sync()?;
    Ok(())
}
