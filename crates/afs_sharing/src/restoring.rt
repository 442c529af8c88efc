//! The callers of a server that begins again, which it takes from its store.

ghost use Rattle.std.specs.Prelude.{◌≡◌, map, IfOk};
ghost use Rattle.afs_saving.specs.Kept.{seat_kept};
ghost use Rattle.afs_sharing.specs.Lasting.{KeepsForNodes};

use afs_disk::Disk;
use afs_num::types::Mem;
use afs_saving::restoring::keep_found;
use afs_server_parts::callers::Callers;
use afs_volstore::VolStore;
use std::alloc::Global;

/// Nodes have the numbers below this one.
const NODE_NUMBERS: u32 = 205;

/// The callers to whom the store keeps replies, each with that.
pub fn callers_kept<D: Disk>(alloc: Global, store: &VolStore<D>) -> Mem<Callers>
    ensures nodes { IfOk result (λ _. KeepsForNodes store.now.durable) }
    ensures boot { IfOk result (λ c. c.boot ≡ store.now.durable.boot) }
    ensures seats { IfOk result (λ c. c.seats ≡ map seat_kept store.now.durable.kept) }
{
    let mut callers = Callers::new(alloc, store.boot_number());
    for place in 0..NODE_NUMBERS {
        keep_found(alloc, &mut callers, store.kept_at(place))?;
    }
    Ok(callers)
}
