//! Copies of what places carry, and the names of the copies of a volume. A hold and the bytes of a dump are shared.

ghost use Rattle.std.specs.Prelude.{◌≡◌, ◌++◌, IfOk};

use afs_num::location_calls::LocEntry;
use afs_num::sequences::{Octets, Sequence};
use afs_num::types::Mem;
use spec_adminrows::places::{Fresh, Mend, Saving, Trip};
use std::alloc::Global;

/// A list of servers, or of volumes at servers.
pub fn copied<T: Copy>(alloc: Global, items: &[T]) -> Mem<Sequence<T>>
    ensures { IfOk result (λ c. c ≡ items.now) }
{
    Ok(Sequence::from_vec(Vec::from_slice(alloc, items)?))
}

pub fn copy_entry(alloc: Global, entry: &LocEntry) -> Mem<LocEntry>
    ensures { IfOk result (λ c. c ≡ entry.now) }
{
    Ok(LocEntry {
        name: entry.name.copy(alloc)?,
        read_write: entry.read_write,
        read_only: entry.read_only,
        backup: entry.backup,
        flags: entry.flags,
        sites: copied(alloc, entry.sites.as_slice())?,
    })
}

/// The name of a copy of the volume of this name, which has this end.
pub fn name_with(alloc: Global, name: &Octets, end: &[u8]) -> Mem<Octets>
    ensures { IfOk result (λ n. n ≡ name.now ++ end.now) }
{
    let mut bytes = Vec::from_slice(alloc, name.as_slice())?;
    bytes.extend_from_slice(end)?;
    Octets::from_vec(bytes)
}

fn copy_dump(alloc: Global, dump: &Option<Octets>) -> Mem<Option<Octets>>
    ensures { IfOk result (λ c. c ≡ dump.now) }
{
    match dump {
        Some(bytes) => Ok(Some(bytes.copy(alloc)?)),
        None => Ok(None),
    }
}

pub fn copy_fresh(alloc: Global, fresh: &Fresh) -> Mem<Fresh>
    ensures { IfOk result (λ c. c ≡ fresh.now) }
{
    Ok(Fresh {
        server: fresh.server,
        quota: fresh.quota,
        dump: copy_dump(alloc, &fresh.dump)?,
    })
}

pub fn copy_saving(alloc: Global, saving: &Saving) -> Mem<Saving>
    ensures { IfOk result (λ c. c ≡ saving.now) }
{
    Ok(Saving {
        hold: saving.hold.copy()?,
        label: saving.label.copy(alloc)?,
        from: saving.from,
        bytes: saving.bytes.copy(alloc)?,
    })
}

pub fn copy_trip(trip: &Trip) -> Mem<Trip>
    ensures { IfOk result (λ c. c ≡ trip.now) }
{
    Ok(Trip {
        hold: trip.hold.copy()?,
        target: trip.target,
        clone: trip.clone,
    })
}

pub fn copy_mend(alloc: Global, mend: &Mend) -> Mem<Mend>
    ensures { IfOk result (λ c. c ≡ mend.now) }
{
    Ok(Mend {
        cause: mend.cause,
        stamp: mend.stamp,
        volume: mend.volume,
        named: mend.named,
        copies: copied(alloc, mend.copies.as_slice())?,
        others: copied(alloc, mend.others.as_slice())?,
        flags: mend.flags,
    })
}
