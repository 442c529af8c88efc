//! A prepared record is put on the disk.

ghost use Rattle.std.specs.Prelude.{◌≡◌, Some, false, IsSome};
ghost use Rattle.afs_num.specs.declared.records.StoreRecord as records;
ghost use Rattle.spec_records.specs.Records.{FitsRecord};
ghost use Rattle.afs_sharing.specs.Stores.{Commits, OnDisk};

use afs_disk::Disk;
use afs_server_parts::faults::NodeFault;
use afs_volstore::VolStore;

/// Puts the prepared record on the disk.
pub fn commit<D: Disk>(store: &mut VolStore<D>) -> Result<(), NodeFault>
    requires prepared { IsSome store.old.prepared }
    requires fits { (r : records.StoreRecord) → store.old.prepared ≡ Some r → FitsRecord r }
    requires up { store.old.closed ≡ false }
    ensures commits { (r : records.StoreRecord) → store.old.prepared ≡ Some r → Commits r store.old store.new result }
    ensures disk { (r : records.StoreRecord) → store.old.prepared ≡ Some r → OnDisk D.Disk (Some r) store.old.durable store.old.disk store.new.disk result }
{
    match store.commit() {
        Ok(()) => Ok(()),
        Err(_) => Err(NodeFault::Down),
    }
}
