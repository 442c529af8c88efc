// The bytes of a record's place, and the room for them.
ghost use Rattle.std.specs.Prelude.{◌≡◌, ◌≤◌, ◌<◌, ◌+◌, ◌^◌, ◌++◌, ◌∷◌, [], length, OnOk, IsOk};
ghost use Rattle.std.specs.Vec.{vec_capacity};
ghost use Rattle.afs_disk.specs.Disk.{Holds, NoSmaller};
ghost use Rattle.afs_disk.specs.Words.{SameDiskBy, SameFaults};
ghost use Rattle.afs_journal.specs.Records.{place_of};

use afs_disk::Disk;
use afs_num::types::Mem;
use std::alloc::AllocError;

/// How many bytes of a place aren't the record's own: its length, its number and the next gate.
pub(crate) const SPELLED: u64 = 9;

/// How many bytes an append writes beside the record: these, and the gate that it opens.
pub(crate) const TAKEN: u64 = 10;

/// Makes room for the place of a record of at most so many bytes behind this gate, in memory and on the disk.
pub(crate) fn make_room<D: Disk>(disk: &mut D, place: &mut Vec<u8>, gate: u64, most: u64) -> Mem<()>
    requires few { most < 2 ^ 32 }
    requires short { gate < 2 ^ 63 }
    ensures place { OnOk result (most + 9 ≤ vec_capacity place.new) }
    ensures disk { OnOk result (Holds 8 (most + 10) (gate + most + 10) (D.space disk.new)) }
    ensures succeeds { most + 9 ≤ vec_capacity place.old → Holds 8 (most + 10) (gate + most + 10) (D.space disk.old) → IsOk result }
    ensures no_shorter { vec_capacity place.old ≤ vec_capacity place.new }
    ensures grows { NoSmaller (D.space disk.old) (D.space disk.new) }
    ensures same { SameDiskBy D.Disk disk.old disk.new }
    ensures faults { SameFaults D.Disk disk.old disk.new }
    ensures calls { D.calls disk.new ≡ D.calls disk.old }
    ensures setting { D.setting disk.new ≡ D.setting disk.old }
    ensures limit { D.limit disk.new ≡ D.limit disk.old }
{
    place.clear();
    place.reserve((most + SPELLED) as usize)?;
    disk.room(gate + most + TAKEN, most + TAKEN)?;
    Ok(())
}

/// How many bytes a place may have that is kept for the next record: one with a file's whole contents has fewer.
const KEPT: usize = 131_072;

/// Gives the memory of a long place back.
pub(crate) fn give_back(place: &mut Vec<u8>)
    ensures { vec_capacity place.new ≤ 131072 }
{
    if place.capacity() > KEPT {
        let alloc = *place.allocator();
        *place = Vec::new(alloc);
    }
}

/// Spells the place of a record. The memory is there.
#[tactic(auto, unfolding(afs_xdr::specs::Words::word))]
pub(crate) fn spell(place: &mut Vec<u8>, number: u64, rec: &[u8]) -> Result<(), AllocError>
    requires few { length rec.now < 2 ^ 32 }
    requires counted { number < 2 ^ 32 }
    requires room { length rec.now + 9 ≤ vec_capacity place.old }
    ensures is { OnOk result (place.new.items ≡ place_of number rec.now ++ 0 ∷ []) }
    ensures done { IsOk result }
{
    place.clear();
    place.extend_from_slice(&(rec.len() as u32).to_be_bytes())?;
    place.extend_from_slice(&(number as u32).to_be_bytes())?;
    place.extend_from_slice(rec)?;
    place.push(0)?;
    Ok(())
}
