//! A server node that is up, over the store of its disk.

ghost use Rattle.std.specs.Prelude.{◌≡◌, ◌≤◌, ◌<◌, ◌^◌, ◌↔◌, [], None, Some, false, true, IfOk, IsSome, OnErr};
ghost use Rattle.afs_disk.specs.Fuses.{armed, failing};
ghost use Rattle.spec_rows.specs.Hosts.{crashed, set_to_fail, set_to_stop};
ghost use Rattle.spec_rows.specs.States.{BackCall};
ghost use Rattle.spec_volrows.specs.NodeHosts.{node_kind, node_timed_out, node_woken, piece_timed_out, NodeHost};
ghost use Rattle.spec_volrows.specs.VolStates.{PieceCall};
ghost use Rattle.afs_server.specs.Seen.{CanDraw};
ghost use Rattle.afs_node.specs.Seen.{ServesNode};
ghost use Rattle.afs_serverhost.specs.Seats.{disk_of, waits_for, with_behind, CanRun, GoesOn, IsDown, IsStepUp, IsUp, OnlyDraws};
ghost use Rattle.afs_host.specs.Views.{count_mark};

use crate::seats::ServerRunning;
use afs_disk::{Disk, Fuse};
use afs_host::resting::Resting;
use afs_host::running::Running;
use afs_host::setting::UNARMED;
use afs_node::ServerNode;
use afs_num::types::{Mem, Node, Parcels};
use afs_server_parts::faults::NodeFault;
use afs_volstore::VolStore;
use spec_history::lines::Outs;
use std::alloc::AllocError;

/// A node over the store of a disk that isn't set.
pub fn over<D: Disk>(memory: ServerNode, store: VolStore<Fuse<D>>) -> ServerRunning<D>
    requires up { store.closed ≡ false }
    requires serves { ServesNode memory store }
    requires unset { (store.disk.stop ≡ None) × (store.disk.fail ≡ None) }
    ensures value { result ≡ record { memory = memory; store = store; armed = record { stop = None; fail = None } } }
    ensures can_run { CanRun result }
{
    Running {
        memory,
        store,
        armed: UNARMED,
    }
}

/// Whether it waits for the reply of this node. It takes no memory.
pub fn waits_on<D: Disk>(running: &ServerRunning<D>, callee: Node) -> bool
    ensures { result ≡ waits_for running.now callee }
{
    running.memory.waits_on(&running.store, callee)
}

/// Its unanswered call to this node has waited too long: that of its file server to a client, or that of its volume server to a server.
/// The messages beside what the step gives out go behind that.
pub fn time_out<D: Disk>(
    running: &mut ServerRunning<D>,
    callee: Node,
    now: u32,
) -> Mem<(Outs, Parcels)>
    requires waits { waits_for running.old callee ≡ true }
    requires can_run { CanRun running.old }
    requires draws { CanDraw running.old.memory.file running.old.store.drawn }
    requires now { now ≤ 1000000000 }
    ensures breaks { (h : NodeHost) → IsUp running.old h → (b : BackCall) → h.state.file.backs.calls callee ≡ Some b → IfOk result (λ r. IsStepUp running.new [] (with_behind r) (node_timed_out running.old.store.node h now callee b)) }
    ensures pieces { (h : NodeHost) → IsUp running.old h → h.state.file.backs.calls callee ≡ None → (c : PieceCall) → h.state.vol.calls callee ≡ Some c → IfOk result (λ r. IsStepUp running.new [] (with_behind r) (piece_timed_out running.old.store.node h now callee c)) }
    ensures err { (h : NodeHost) → IsUp running.old h → OnErr result (IsUp running.new h) }
    ensures rest { OnlyDraws running.old running.new }
    ensures goes_on { GoesOn 0 0 running.old running.new }
{
    match running.memory.timeout(&mut running.store, callee, now) {
        Ok(given) => Ok(given),
        Err(NodeFault::OutOfMemory) => Err(AllocError),
        Err(NodeFault::Down) => unreachable!(),
    }
}

/// Time has passed.
pub fn wake<D: Disk>(running: &mut ServerRunning<D>, now: u32) -> Mem<(Outs, Parcels)>
    requires can_run { CanRun running.old }
    requires draws { CanDraw running.old.memory.file running.old.store.drawn }
    requires now { now ≤ 1000000000 }
    ensures step { (h : NodeHost) → IsUp running.old h → IfOk result (λ r. IsStepUp running.new [] (with_behind r) (node_woken running.old.store.node h now)) }
    ensures err { (h : NodeHost) → IsUp running.old h → OnErr result (IsUp running.new h) }
    ensures rest { OnlyDraws running.old running.new }
    ensures goes_on { GoesOn 0 0 running.old running.new }
{
    match running.memory.wake(&mut running.store, now) {
        Ok(given) => Ok(given),
        Err(NodeFault::OutOfMemory) => Err(AllocError),
        Err(NodeFault::Down) => unreachable!(),
    }
}

/// The disk is to pass so many device calls more, and then to stop the node. It takes no memory.
pub fn stop_after<D: Disk>(running: &mut ServerRunning<D>, calls: u32, pick: u8)
    requires can_run { CanRun running.old }
    requires counted { running.old.store.disk.calls < 2 ^ 63 }
    ensures step { (h : NodeHost) → IsUp running.old h → IsUp running.new (set_to_stop (node_kind running.old.store.node) h calls pick).host }
    ensures value { running.new ≡ record running.old { store = record running.old.store { disk = armed calls running.old.store.disk }; armed = record running.old.armed { stop = Some (calls, pick) } } }
    ensures can_run { CanRun running.new }
{
    running.set_stop(calls, pick);
}

/// The disk is to fail at this one of its next device calls. It takes no memory.
pub fn fail_at<D: Disk>(running: &mut ServerRunning<D>, call: u32)
    requires can_run { CanRun running.old }
    requires counted { running.old.store.disk.calls < 2 ^ 63 }
    requires due { 1 ≤ call }
    ensures step { (h : NodeHost) → IsUp running.old h → IsUp running.new (set_to_fail (node_kind running.old.store.node) h call).host }
    ensures value { running.new ≡ record running.old { store = record running.old.store { disk = failing call running.old.store.disk }; armed = record running.old.armed { fail = Some call } } }
    ensures can_run { CanRun running.new }
{
    running.set_fail(call);
}

/// The node crashes, and its disk with this pick. It takes no memory.
pub fn crash<D: Disk>(running: ServerRunning<D>, pick: u8) -> Resting<D>
    requires up { running.store.closed ≡ false }
    ensures step { (h : NodeHost) → IsUp running h → IsDown D.seen D.may_leave D.limit running.store.node result (crashed (node_kind running.store.node) h).host }
    ensures mark { result.mark ≡ count_mark running.store.count }
    ensures picked { D.seen result.disk ≡ D.left_by (disk_of running) pick }
    ensures told { IsSome (D.seen result.disk) ↔ IsSome (D.seen (disk_of running)) }
    ensures faults { D.faults result.disk ≡ D.faults (disk_of running) }
    ensures limit { D.limit result.disk ≡ D.limit (disk_of running) }
{
    running.left_by(pick)
}
