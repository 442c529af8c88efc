//! Copies of entries and locks.

ghost use Rattle.std.specs.Prelude.{◌≡◌, IfOk};

use crate::types::Lock;
use afs_num::location_calls::{LocEntry, LocSite, LocSites};
use afs_num::types::Mem;
use std::alloc::Global;

fn copy_sites(alloc: Global, sites: &[LocSite]) -> Mem<LocSites>
    ensures { IfOk result (λ c. c ≡ sites.now) }
{
    let mut copy = LocSites::new(alloc);
    for site in sites {
        copy.push(*site)?;
    }
    Ok(copy)
}

/// The same entry.
pub fn copy_entry(alloc: Global, entry: &LocEntry) -> Mem<LocEntry>
    ensures { IfOk result (λ c. c ≡ entry.now) }
{
    Ok(LocEntry {
        name: entry.name.copy(alloc)?,
        read_write: entry.read_write,
        read_only: entry.read_only,
        backup: entry.backup,
        flags: entry.flags,
        sites: copy_sites(alloc, entry.sites.as_slice())?,
    })
}

/// The same lock. It takes no memory.
pub fn copy_lock(lock: &Lock) -> Lock
    ensures { result ≡ lock.now }
{
    Lock {
        operation: lock.operation,
        stamp: lock.stamp,
        forced: lock.forced,
    }
}

/// The same lock, if there is one. It takes no memory.
pub fn copy_held(lock: &Option<Lock>) -> Option<Lock>
    ensures { result ≡ lock.now }
{
    match lock {
        Some(lock) => Some(copy_lock(lock)),
        None => None,
    }
}
