// What `attach` does first: it makes the disk's content durable, and reads it.
ghost use Rattle.std.specs.Prelude.{◌≡◌, ◌<◌, ◌≤◌, ◌+◌, List, ℕ, Some, length, max, IfOk, OnOk};
ghost use Rattle.afs_disk.specs.Disk.{Holds, LeavesJust, Takes};
ghost use Rattle.afs_disk.specs.Words.{LeavesOnlyBy, RanBy, CallsAtMost};
ghost use Rattle.afs_journal.specs.Words.{ServedBy};

use afs_disk::Disk;
use afs_num::devices::Failed;
use afs_num::faults::JournalFault;
use std::alloc::Global;

// How many bytes `attach` writes.
const WRITTEN: u64 = 1;

// Reads everything. An empty disk isn't read.
fn read_all<D: Disk>(disk: &mut D, bytes: &mut [u8]) -> Result<(), Failed>
    requires size { length bytes.old ≡ D.size disk.old }
    requires room { Holds 1 0 0 (D.space disk.old) }
    ensures whole { OnOk result ((content : List ℕ) → D.seen disk.old ≡ Some content → bytes.new ≡ content) }
    ensures seen { D.seen disk.new ≡ D.seen disk.old }
    ensures size { D.size disk.new ≡ D.size disk.old }
    ensures crash { (c : List ℕ) → D.may_leave disk.new c → D.may_leave disk.old c }
    ensures steady { LeavesOnlyBy D.Disk disk.old disk.new (D.may_leave disk.old) }
    ensures made { OnOk result (0 < length bytes.old → D.calls disk.new ≡ D.calls disk.old + 1) }
    ensures calls { CallsAtMost 1 D.Disk disk.old disk.new }
    ensures setting { D.setting disk.new ≡ D.setting disk.old }
    ensures cause { RanBy D.Disk disk.old disk.new result }
    ensures room { Takes 0 (D.space disk.old) (D.space disk.new) }
    ensures limit { D.limit disk.new ≡ D.limit disk.old }
{
    if bytes.is_empty() {
        return Ok(());
    }
    disk.read(0, bytes)?;
    Ok(())
}

/// Syncs the disk and reads everything.
pub(crate) fn open<D: Disk>(alloc: Global, disk: &mut D) -> Result<Vec<u8>, JournalFault>
    ensures bytes { IfOk result (λ bytes. (content : List ℕ) → D.seen disk.old ≡ Some content → bytes.items ≡ content) }
    ensures len { IfOk result (λ bytes. length bytes.items ≡ D.size disk.old) }
    ensures seen { D.seen disk.new ≡ D.seen disk.old }
    ensures size { D.size disk.new ≡ D.size disk.old }
    ensures durable { OnOk result ((content : List ℕ) → D.seen disk.old ≡ Some content → LeavesJust content (D.may_leave disk.new)) }
    ensures begins { D.calls disk.old + 2 ≤ D.calls disk.new → (content : List ℕ) → D.seen disk.old ≡ Some content → LeavesJust content (D.may_leave disk.new) }
    ensures steady { LeavesOnlyBy D.Disk disk.old disk.new (D.may_leave disk.old) }
    ensures room { OnOk result (Holds 6 1 (max (D.size disk.old) 1) (D.space disk.new)) }
    ensures made { OnOk result (0 < D.size disk.old → D.calls disk.new ≡ D.calls disk.old + 2) }
    ensures calls { CallsAtMost 2 D.Disk disk.old disk.new }
    ensures setting { D.setting disk.new ≡ D.setting disk.old }
    ensures cause { ServedBy D.Disk disk.old disk.new result }
    ensures limit { D.limit disk.new ≡ D.limit disk.old }
{
    let len = disk.len();
    let mut bytes = Vec::new(alloc);
    bytes.resize(len as usize, 0u8)?;
    disk.room(len.max(WRITTEN), WRITTEN)?;
    disk.sync()?;
    read_all(disk, &mut bytes)?;
    Ok(bytes)
}
