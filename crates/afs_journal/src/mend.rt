// What `attach` does to a disk whose bytes are no journal at rest.
ghost use Rattle.std.specs.Prelude.{◌≡◌, ◌≤◌, ◌<◌, ◌+◌, ◌*◌, ◌^◌, List, ℕ, [], length, map, max, Some, IfOk, OnOk, IsTrue, slice_index_or, ◌↔◌};
ghost use Rattle.afs_disk.specs.Disk.{Holds, LeavesJust};
ghost use Rattle.afs_disk.specs.Words.{LeavesOnlyBy, RanBy, TellsOn, CallsAtMost};
ghost use Rattle.afs_journal.specs.Found.{piece_of};
ghost use Rattle.afs_journal.specs.Records.{whole_records, EndsAt};
ghost use Rattle.afs_journal.specs.Log.{IsJournal, Rests};
ghost use Rattle.afs_journal.specs.Words.{ServedBy};

use crate::found::Piece;
use crate::scan::scan;
use afs_disk::Disk;
use afs_num::devices::Failed;
use afs_num::faults::JournalFault;
use std::alloc::Global;

/// The gate byte behind which no record counts.
const CLOSED: u8 = 0;

/// Begins a journal on an empty disk.
pub(crate) fn begin<D: Disk>(disk: &mut D) -> Result<(), Failed>
    requires empty { D.size disk.old ≡ 0 }
    requires room { Holds 4 1 1 (D.space disk.old) }

    ensures size { OnOk result (D.size disk.new ≡ 1) }
    ensures told { TellsOn D.Disk disk.old disk.new }
    ensures done { OnOk result (D.seen disk.old ≡ Some [] → LeavesJust [] (D.may_leave disk.old) → IsJournal [] (D.seen disk.new) (D.may_leave disk.new)) }
    ensures any_moment { D.seen disk.old ≡ Some [] → LeavesJust [] (D.may_leave disk.old)
        → LeavesOnlyBy D.Disk disk.old disk.new (λ c. whole_records c ≡ []) }
    ensures made { OnOk result (D.calls disk.new ≡ D.calls disk.old + 2) }
    ensures calls { CallsAtMost 2 D.Disk disk.old disk.new }
    ensures setting { D.setting disk.new ≡ D.setting disk.old }
    ensures cause { RanBy D.Disk disk.old disk.new result }
    ensures limit { D.limit disk.new ≡ D.limit disk.old }
{
    disk.write_at(0, &[CLOSED])?;
    disk.sync()?;
    Ok(())
}

/// Cuts what lies behind the gate at the end of the whole records, and then closes that gate. The cut is on the disk
/// before the gate is written: else a gate that is torn open could make what lay behind it count.
pub(crate) fn repair<D: Disk>(disk: &mut D, gate: u64) -> Result<(), Failed>
    requires short { gate < 2 ^ 63 }
    requires inside { gate < D.size disk.old }
    requires room { Holds 4 1 (gate + 1) (D.space disk.old) }

    ensures size { OnOk result (D.size disk.new ≡ gate + 1) }
    ensures told { TellsOn D.Disk disk.old disk.new }
    ensures done { OnOk result ((bodies : List (List ℕ)) (bytes : List ℕ) → EndsAt gate bodies bytes → D.seen disk.old ≡ Some bytes → LeavesJust bytes (D.may_leave disk.old)
        → IsJournal bodies (D.seen disk.new) (D.may_leave disk.new)) }
    ensures any_moment { (bodies : List (List ℕ)) (bytes : List ℕ) → EndsAt gate bodies bytes → D.seen disk.old ≡ Some bytes → LeavesJust bytes (D.may_leave disk.old)
        → LeavesOnlyBy D.Disk disk.old disk.new (λ c. whole_records c ≡ bodies) }
    ensures made { OnOk result (D.calls disk.new ≡ D.calls disk.old + 4) }
    ensures calls { CallsAtMost 4 D.Disk disk.old disk.new }
    ensures setting { D.setting disk.new ≡ D.setting disk.old }
    ensures cause { RanBy D.Disk disk.old disk.new result }
    ensures limit { D.limit disk.new ≡ D.limit disk.old }
{
    disk.cut(gate + 1)?;
    disk.sync()?;
    disk.write_at(gate, &[CLOSED])?;
    disk.sync()?;
    Ok(())
}

// Whether the bytes end with this gate, and it is closed.
fn is_at_rest(bytes: &[u8], gate: usize) -> bool
    requires { gate < length bytes.now }
    ensures { IsTrue result ↔ (length bytes.now ≡ gate + 1) × (slice_index_or bytes.now gate 0 ≡ 0) }
{
    bytes.len() == gate + 1 && bytes[gate] == CLOSED
}

/// Makes a journal at rest of a disk that holds these bytes, all of them durable. Answers where its records lie, and the place of
/// the gate behind the last of them.
pub(crate) fn settle<D: Disk>(
    alloc: Global,
    disk: &mut D,
    bytes: &[u8],
) -> Result<(Vec<Piece>, u64), JournalFault>
    requires len { length bytes.now ≡ D.size disk.old }
    requires room { Holds 4 1 (max (D.size disk.old) 1) (D.space disk.old) }

    ensures size { IfOk result (λ r. D.size disk.new ≡ r.1 + 1) }
    ensures counts { IfOk result (λ r. (9 * length r.0.items ≤ r.1) × (r.1 < 2 ^ 63)) }
    ensures few { IfOk result (λ r. length r.0.items < 2 ^ 32) }
    ensures found { IfOk result (λ r. map (piece_of bytes.now) r.0.items ≡ whole_records bytes.now) }
    ensures empty { IfOk result (λ r. length bytes.now ≡ 0 → (r.0.items ≡ []) × (r.1 ≡ 0)) }
    ensures told { TellsOn D.Disk disk.old disk.new }
    ensures done { OnOk result (D.seen disk.old ≡ Some bytes.now → LeavesJust bytes.now (D.may_leave disk.old)
        → IsJournal (whole_records bytes.now) (D.seen disk.new) (D.may_leave disk.new)) }
    ensures any_moment { D.seen disk.old ≡ Some bytes.now → LeavesJust bytes.now (D.may_leave disk.old)
        → LeavesOnlyBy D.Disk disk.old disk.new (λ c. whole_records c ≡ whole_records bytes.now) }
    ensures rests { OnOk result (Rests bytes.now → D.calls disk.new ≡ D.calls disk.old) }
    ensures calls { CallsAtMost 4 D.Disk disk.old disk.new }
    ensures setting { D.setting disk.new ≡ D.setting disk.old }
    ensures cause { ServedBy D.Disk disk.old disk.new result }
    ensures limit { D.limit disk.new ≡ D.limit disk.old }
{
    if bytes.is_empty() {
        begin(disk)?;
        return Ok((Vec::new(alloc), 0));
    }
    let (found, gate) = scan(alloc, bytes)?;
    if is_at_rest(bytes, gate as usize) {
        return Ok((found, gate));
    }
    repair(disk, gate)?;
    Ok((found, gate))
}
