//! A server node that is down begins again.

ghost use Rattle.std.specs.Prelude.{◌≡◌, ◌≤◌, ◌<◌, ◌+◌, ◌↔◌, ◌++◌, ◌∷◌, [], ℕ, List, None, false, vec_capacity, vec_len, IfOk, IsSome};
ghost use Rattle.afs_num.specs.Nodes.{IsNode};
ghost use Rattle.spec_history.specs.declared.lines.Line.TheVariants as lines;
ghost use Rattle.spec_rows.specs.Steps.{Begun};
ghost use Rattle.spec_volrows.specs.VolStates.{NodeState};
ghost use Rattle.afs_volstore.specs.Stores.{recorded};
ghost use Rattle.afs_serverhost.specs.Standing.{server_keeping};
ghost use Rattle.afs_host.specs.Starting.{IsFound};
ghost use Rattle.afs_serverhost.specs.Starting.{disk_started, BootsFrom, BootsOver, GoesOnBooted, GoesOnStarted, IsStarted, Rises, StartsOver};

use crate::seats::ServerRunning;
use crate::server::over;
use afs_disk::{Disk, Fuse};
use afs_host::resting::{Resting, rest_of};
use afs_host::starting::{Start, fault_alone, stay, untold, with_line, with_room};
use afs_node::ServerNode;
use afs_num::faults::StoreFault;
use afs_num::records::Mark;
use afs_num::sequences::Sequence;
use afs_num::types::{Mem, Node};
use afs_volstore::VolStore;
use spec_history::lines::{Line, Lines, Outs};
use std::alloc::Global;

/// What a restart gives out: the lines with which it began, that the node is up, which volumes vanished, and what its step gives out now.
fn risen(front: Vec<Line>, node: Node, boot: u32, vanished: Lines, outs: Outs) -> Mem<Outs>
    requires { vec_len front < vec_capacity front }
    ensures lines { IfOk result (λ o. o.lines ≡ front.items ++ lines.Restart node boot ∷ (vanished ++ outs.lines)) }
    ensures parcels { IfOk result (λ o. o.parcels ≡ outs.parcels) }
{
    let front = with_line(front, Line::Restart { node, boot });
    let Outs {
        parcels,
        lines: owed,
    } = outs;
    let mut all = front.into_vec();
    let mut gone = vanished.into_vec();
    all.append(&mut gone)?;
    let mut owed = owed.into_vec();
    all.append(&mut owed)?;
    Ok(Outs {
        parcels,
        lines: Sequence::from_vec(all),
    })
}

/// The node is up, over a store that has begun its boot, with which these volumes vanished. Where memory runs out the record of that stands
/// on the disk, untold.
fn rise<D: Disk>(
    alloc: Global,
    mut store: VolStore<Fuse<D>>,
    front: Vec<Line>,
    vanished: Lines,
    clients: u8,
    now: u32,
) -> Start<ServerRunning<D>, Resting<D>>
    requires room { vec_len front < vec_capacity front }
    requires node { IsNode store.node }
    requires drawn { store.drawn ≡ 0 }
    requires up { store.closed ≡ false }
    requires unset { (store.disk.stop ≡ None) × (store.disk.fail ≡ None) }
    requires free { store.holds.table ≡ [] }
    requires clients { clients ≤ 16 }
    requires now { now ≤ 1000000000 }
    ensures { Rises store front.items vanished clients now result }
{
    let (node, boot) = (store.node(), store.boot_number());
    match ServerNode::restart(alloc, &mut store, clients, now) {
        Ok((memory, outs)) => match risen(front, node, boot, vanished, outs) {
            Ok(outs) => Start::Up(over(memory, store), outs),
            Err(_) => Start::Lost(rest_of(store)),
        },
        Err(_) => Start::Lost(rest_of(store)),
    }
}

/// The second half of a restart, over a disk that was taken up and whose mark was told. Memory for the line that ends it is taken
/// before its record is begun, so a disk that has no room, or fails, is told as that.
fn boot<D: Disk>(
    alloc: Global,
    mut store: VolStore<Fuse<D>>,
    told: Mark,
    front: Lines,
    clients: u8,
    now: u32,
) -> Start<ServerRunning<D>, Resting<D>>
    requires node { IsNode store.node }
    requires drawn { store.drawn ≡ 0 }
    requires up { store.closed ≡ false }
    requires unset { (store.disk.stop ≡ None) × (store.disk.fail ≡ None) }
    requires free { store.holds.table ≡ [] }
    requires clients { clients ≤ 16 }
    requires now { now ≤ 1000000000 }
    ensures boots { (begun : Begun NodeState) (records : List (List ℕ)) → IsFound (server_keeping store.node) D.Disk begun records front (recorded store) → BootsFrom D.Disk begun records store.node now clients store.disk.disk result }
    ensures over { BootsOver D.Disk store.durable front store.node now clients (D.faults store.disk.disk) result }
    ensures goes_on { GoesOnBooted store told result }
    ensures told { IsSome (D.seen (disk_started result)) ↔ IsSome (D.seen store.disk.disk) }
    ensures limit { D.limit (disk_started result) ≡ D.limit store.disk.disk }
    ensures faults { D.faults store.disk.disk ≤ D.faults (disk_started result) }
{
    let node = store.node();
    let Ok(front) = with_room(front) else {
        return Start::Unchanged(untold(store, told));
    };
    match store.boot() {
        Ok(vanished) => rise(alloc, store, front, vanished, clients, now),
        Err(StoreFault::Full(_, _)) => stay(store, front, Line::Full { node }),
        Err(StoreFault::Failed) => stay(store, front, Line::Fault { node }),
        Err(StoreFault::OutOfMemory) => Start::Unchanged(untold(store, told)),
        Err(StoreFault::Closed) => unreachable!(),
        Err(StoreFault::BadRecord(_)) => unreachable!(),
    }
}

/// The server node that this is begins again, in a cell of so many clients, at this time in ticks. Its disk isn't set. Memory to tell
/// that the disk failed is taken before the first device call.
pub fn start<D: Disk>(
    resting: Resting<D>,
    alloc: Global,
    node: Node,
    clients: u8,
    now: u32,
) -> Start<ServerRunning<D>, Resting<D>>
    requires node { IsNode node }
    requires limit { D.limit resting.disk ≤ 268435456 }
    requires clients { clients ≤ 16 }
    requires now { now ≤ 1000000000 }
    ensures started { IsSome (D.seen resting.disk) → IsStarted D.Disk node now clients resting result }
    ensures over { StartsOver D.Disk node now clients resting result }
    ensures goes_on { GoesOnStarted node resting result }
    ensures told { IsSome (D.seen (disk_started result)) ↔ IsSome (D.seen resting.disk) }
    ensures limit { D.limit (disk_started result) ≡ D.limit resting.disk }
    ensures faults { D.faults resting.disk ≤ D.faults (disk_started result) }
{
    let Ok(fault) = fault_alone(alloc, node) else {
        return Start::Unchanged(resting);
    };
    let Resting { disk, mark } = resting;
    match VolStore::attach(alloc, Fuse::new(disk), node, mark) {
        Ok((store, front)) => boot(alloc, store, mark, front, clients, now),
        Err((refusal, fuse)) => {
            let resting = Resting {
                disk: fuse.into_inner(),
                mark,
            };
            resting.refused(refusal, fault)
        }
    }
}
