//! A clone has all vnodes of its volume as they are.

ghost use Rattle.std.specs.Prelude.{◌≡◌, ◌≤◌, length, IfOk};
ghost use Rattle.spec_dumps.specs.Clones.{cloned, recloned};
ghost use Rattle.spec_records.specs.Records.{most_name};
ghost use Rattle.spec_shape.specs.Tables.{IsVolumeKind};
ghost use Rattle.afs_volume.specs.Taking.{stored_of};

use afs_num::sequences::Octets;
use afs_num::types::Mem;
use afs_num::volumes::VolumeHead;
use afs_volume::Volume;
use std::alloc::Global;

/// What stands before the vnodes of a clone: these, and all else as in the volume.
fn clone_head(
    v: &VolumeHead,
    id: u32,
    name: Octets,
    kind: u32,
    flags: u32,
    release: u32,
) -> VolumeHead
    ensures { result ≡ record v.now { id = id; name = name; kind = kind; flags = flags; release = release } }
{
    VolumeHead {
        id,
        family: v.family,
        name,
        kind,
        flags,
        quota: v.quota,
        unique: v.unique,
        counter: v.counter,
        release,
    }
}

/// The volume under this number, name and kind, with flags 0 and this release number, which a server makes the next one of the
/// volume. The volume itself stays as it is. File bytes, access lists and the names of directories are shared; of a file or a
/// list of at most thirty bytes these are copied, since they lie in the value.
pub fn clone_of(
    alloc: Global,
    v: &Volume,
    id: u32,
    name: &[u8],
    kind: u32,
    release: u32,
) -> Mem<Volume>
    requires kind { IsVolumeKind kind }
    requires name { length name.now ≤ most_name }
    ensures id { IfOk result (λ c. c.head.id ≡ id) }
    ensures clone { IfOk result (λ c. stored_of c ≡ cloned name.now kind release (stored_of v.now)) }
{
    let name = Octets::from_slice(alloc, name)?;
    let copy = v.copied(clone_head(v.head(), id, name, kind, 0, release))?;
    Ok(copy)
}

/// A clone made anew from the volume: it keeps its number, name, kind and flags; all else is as in a new clone.
pub fn reclone(alloc: Global, v: &Volume, old: &Volume, release: u32) -> Mem<Volume>
    ensures id { IfOk result (λ c. c.head.id ≡ old.now.head.id) }
    ensures clone { IfOk result (λ c. stored_of c ≡ recloned (stored_of old.now) release (stored_of v.now)) }
{
    let own = old.head();
    let name = own.name.copy(alloc)?;
    let copy = v.copied(clone_head(v.head(), own.id, name, own.kind, own.flags, release))?;
    Ok(copy)
}
