//! The location database, which is down, begins again.

ghost use Rattle.std.specs.Prelude.{◌≡◌, ◌≤◌, ◌<◌, ◌↔◌, ℕ, List, None, false, vec_capacity, vec_len, IsSome};
ghost use Rattle.afs_num.specs.declared.types.Node.TheVariants.{Loc};
ghost use Rattle.spec_rows.specs.LocRow.{LocState};
ghost use Rattle.spec_rows.specs.Steps.{Begun};
ghost use Rattle.afs_locdb.specs.Seen.{Serves};
ghost use Rattle.afs_host.specs.LocStanding.{loc_keeping};
ghost use Rattle.afs_host.specs.LocStarting.{loc_disk_started, IsLocStarted, LocBootsFrom, LocBootsOver, LocGoesOnBooted, LocGoesOnStarted, LocRises, LocStartsOver};
ghost use Rattle.afs_host.specs.Starting.{IsFound};

use crate::resting::Resting;
use crate::running::{DatabaseRunning, Running};
use crate::starting::{Start, fault_alone, stay, untold, with_line, with_room};
use afs_disk::{Disk, Fuse};
use afs_locdb::LocDb;
use afs_num::faults::StoreFault;
use afs_num::records::Mark;
use afs_num::sequences::Sequence;
use afs_num::types::Node;
use spec_history::lines::{Line, Lines, Outs};
use std::alloc::Global;

/// The database is up, over a store that has begun its boot. It takes no memory.
fn rise<D: Disk>(
    alloc: Global,
    store: LocDb<Fuse<D>>,
    front: Vec<Line>,
) -> Start<DatabaseRunning<D>, Resting<D>>
    requires room { vec_len front < vec_capacity front }
    requires up { store.store.closed ≡ false }
    requires serves { Serves store }
    requires unset { (store.store.disk.stop ≡ None) × (store.store.disk.fail ≡ None) }
    ensures { LocRises store front.items result }
{
    let boot = store.boot_number();
    let risen = Line::Restart {
        node: Node::Loc,
        boot,
    };
    let outs = Outs {
        parcels: Sequence::new(alloc),
        lines: with_line(front, risen),
    };
    Start::Up(Running::over(store), outs)
}

/// The second half of a restart, over a disk that was taken up and whose mark was told. Memory for the line that ends it is taken
/// before its record is begun, so a disk that has no room, or fails, is told as that.
fn boot<D: Disk>(
    alloc: Global,
    mut store: LocDb<Fuse<D>>,
    told: Mark,
    front: Lines,
) -> Start<DatabaseRunning<D>, Resting<D>>
    requires up { store.store.closed ≡ false }
    requires node { store.store.node ≡ Loc }
    requires unset { (store.store.disk.stop ≡ None) × (store.store.disk.fail ≡ None) }
    ensures boots { (begun : Begun LocState) (records : List (List ℕ)) → IsFound loc_keeping D.Disk begun records front store.store → LocBootsFrom D.Disk begun records store.store.disk.disk result }
    ensures over { LocBootsOver D.Disk store.store.durable front (D.faults store.store.disk.disk) result }
    ensures goes_on { LocGoesOnBooted store told result }
    ensures told { IsSome (D.seen (loc_disk_started result)) ↔ IsSome (D.seen store.store.disk.disk) }
    ensures limit { D.limit (loc_disk_started result) ≡ D.limit store.store.disk.disk }
    ensures faults { D.faults store.store.disk.disk ≤ D.faults (loc_disk_started result) }
{
    let node = Node::Loc;
    let Ok(front) = with_room(front) else {
        return Start::Unchanged(untold(store, told));
    };
    match store.boot() {
        // It tells no lines.
        Ok(_none) => rise(alloc, store, front),
        Err(StoreFault::Full(_, _)) => stay(store, front, Line::Full { node }),
        Err(StoreFault::Failed) => stay(store, front, Line::Fault { node }),
        Err(StoreFault::OutOfMemory) => Start::Unchanged(untold(store, told)),
        Err(StoreFault::Closed) => unreachable!(),
        Err(StoreFault::BadRecord(_)) => unreachable!(),
    }
}

impl<D: Disk> Resting<D> {
    /// The location database that is this node begins again. Its disk isn't set. Memory to tell that the disk failed is taken before the
    /// first device call.
    pub fn start_database(self, alloc: Global) -> Start<DatabaseRunning<D>, Resting<D>>
        requires limit { D.limit self.disk ≤ 268435456 }
        ensures started { IsSome (D.seen self.disk) → IsLocStarted D.Disk self result }
        ensures over { LocStartsOver D.Disk self result }
        ensures goes_on { LocGoesOnStarted self result }
        ensures told { IsSome (D.seen (loc_disk_started result)) ↔ IsSome (D.seen self.disk) }
        ensures limit { D.limit (loc_disk_started result) ≡ D.limit self.disk }
        ensures faults { D.faults self.disk ≤ D.faults (loc_disk_started result) }
    {
        let Ok(fault) = fault_alone(alloc, Node::Loc) else {
            return Start::Unchanged(self);
        };
        let Resting { disk, mark } = self;
        match LocDb::attach(alloc, Fuse::new(disk), mark) {
            Ok((store, front)) => boot(alloc, store, mark, front),
            Err((refusal, fuse)) => {
                let resting = Resting {
                    disk: fuse.into_inner(),
                    mark,
                };
                resting.refused(refusal, fault)
            }
        }
    }
}
