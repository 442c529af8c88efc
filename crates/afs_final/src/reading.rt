//! The disks of the servers are read at the end of a run.

ghost use Rattle.std.specs.Prelude.{◌≡◌, ◌≤◌, false};
ghost use Rattle.afs_num.specs.Nodes.{IsNode};
ghost use Rattle.afs_num.specs.declared.types.Node.TheVariants.{Server};
ghost use Rattle.afs_volstore.specs.Stores.{IsKept};
ghost use Rattle.afs_final.specs.Reading.{kept_disk, IsRead};
ghost use Rattle.afs_final.specs.Reading as read;

use afs_disk::{Disk, Fuse, LendFault};
use afs_num::faults::StoreFault;
use afs_num::records::Mark;
use afs_num::types::Node;
use afs_volstore::VolStore;
use std::alloc::Global;

/// A mark of no store: what it says of the lines of a restart isn't used here.
const NO_MARK: Mark = Mark {
    generation: 0,
    records: 0,
};

/// A server's disk, as it was read at the end: with the store that its records make; or one of them can't be taken, or the disk
/// failed, or memory was wanting.
#[derive(Drop)]
pub enum Left<S, D> {
    Kept(S),
    Bad(D),
    Failed(D),
    Unread(D),
}

/// A disk of which no store could be made, by the reason.
fn refused<S, D>(refusal: StoreFault, disk: D) -> Left<S, D>
    ensures { result ≡ read.refused refusal disk }
{
    match refusal {
        StoreFault::BadRecord(_) => Left::Bad(disk),
        StoreFault::OutOfMemory => Left::Unread(disk),
        StoreFault::Full(_, _) | StoreFault::Failed | StoreFault::Closed => Left::Failed(disk),
    }
}

/// What the disk of a server keeps, by its records.
pub fn read_disk<D: Disk>(alloc: Global, server: u32, disk: D) -> Left<VolStore<D>, D>
    requires node { IsNode (Server server) }
    requires limit { D.limit disk ≤ 268435456 }
    ensures { IsRead D.seen D.faults D.limit disk result }
{
    match VolStore::attach(alloc, disk, Node::Server(server as u8), NO_MARK) {
        Ok((store, _lines)) => Left::Kept(store),
        Err((refusal, disk)) => refused(refusal, disk),
    }
}

/// What the disk of a server keeps that has a store over it: it is read as another is, and the store has what its records make.
pub fn read_store<D: Disk>(store: VolStore<Fuse<D>>) -> Left<VolStore<D>, D>
    requires open { store.closed ≡ false }
    requires limit { D.limit store.disk.disk ≤ 268435456 }
    ensures read { IsRead D.seen D.faults D.limit store.disk.disk result }
    ensures was { IsKept store.durable (D.seen store.disk.disk) (D.may_leave store.disk.disk) × (store.durable.capacity ≡ D.limit store.disk.disk) }
{
    match store.attach_again() {
        Ok(store) => Left::Kept(store),
        Err((refusal, disk)) => refused(refusal, disk),
    }
}

/// Why what the disks keep can't be told: one of them failed; or none did, and memory was wanting for what one of them holds.
pub fn fault_in<D: Disk>(left: &[Left<VolStore<D>, D>]) -> Option<LendFault>
    ensures { result ≡ read.fault_in left.now }
{
    let mut is_wanting = false;
    for one in left {
        match one {
            Left::Failed(_) => return Some(LendFault::Failed),
            Left::Unread(_) => is_wanting = true,
            Left::Kept(_) => {}
            Left::Bad(_) => {}
        }
    }
    if is_wanting {
        return Some(LendFault::OutOfMemory);
    }
    None
}

/// The disk of a server again.
pub fn disk_in<D: Disk>(left: Left<VolStore<D>, D>) -> D
    ensures { result ≡ kept_disk left }
{
    match left {
        Left::Kept(store) => store.into_disk(),
        Left::Bad(disk) | Left::Failed(disk) | Left::Unread(disk) => disk,
    }
}
