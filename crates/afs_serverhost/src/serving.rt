//! A server node that is up is given a message.

ghost use Rattle.std.specs.Prelude.{◌≡◌, ◌≤◌, ◌↔◌, IsSome};
ghost use Rattle.spec_model.specs.Messages.{received};
ghost use Rattle.afs_server.specs.Seen.{CanDraw};
ghost use Rattle.afs_serverhost.specs.Seats.{disk_of, CanRun};
ghost use Rattle.afs_serverhost.specs.Serving.{disk_served, Becomes, GoesOnServed, IsHandled, IsServed, KeepsMark, MakesRow, RestsServed, RunsRow};

use crate::seats::ServerRunning;
use afs_disk::Disk;
use afs_host::running::CALLS_OF_A_RECORD;
use afs_num::types::Parcels;
use afs_server_parts::faults::NodeFault;
use spec_history::lines::Outs;

/// The node is given the bytes of a message, at this time in ticks: a client's is its file server's, every other its volume server's.
/// The messages beside what the step gives out go behind that. Where its disk ended the step, the node is to fall.
pub fn serve<D: Disk>(
    running: &mut ServerRunning<D>,
    bytes: &[u8],
    now: u32,
) -> Result<(Outs, Parcels), NodeFault>
    requires can_run { CanRun running.old }
    requires draws { CanDraw running.old.memory.file running.old.store.drawn }
    requires now { now ≤ 1000000000 }
    ensures served { Becomes D.Disk (λ s. IsServed D.Disk running.old now (received bytes.now) s) running.new result }
    ensures row { Becomes D.Disk (λ s. MakesRow running.old now bytes.now s) running.new result }
    ensures goes_on { Becomes D.Disk (λ s. GoesOnServed running.old s) running.new result }
    ensures mark { Becomes D.Disk (λ s. KeepsMark running.old s) running.new result }
    ensures rests { Becomes D.Disk (λ s. RestsServed D.Disk running.old.store.node s) running.new result }
    ensures told { Becomes D.Disk (λ s. IsSome (D.seen (disk_served s)) ↔ IsSome (D.seen (disk_of running.old))) running.new result }
    ensures limit { Becomes D.Disk (λ s. D.limit (disk_served s) ≡ D.limit (disk_of running.old)) running.new result }
    ensures faults { Becomes D.Disk (λ s. D.faults (disk_of running.old) ≤ D.faults (disk_served s)) running.new result }
{
    handle(running, bytes, now)
}

/// The node is given these bytes. A step that passed lowers what the disk is set to by its device calls.
fn handle<D: Disk>(
    running: &mut ServerRunning<D>,
    bytes: &[u8],
    now: u32,
) -> Result<(Outs, Parcels), NodeFault>
    requires can_run { CanRun running.old }
    requires draws { CanDraw running.old.memory.file running.old.store.drawn }
    requires now { now ≤ 1000000000 }
    ensures handled { IsHandled D.Disk running.old now (received bytes.now) running.new result }
    ensures row { RunsRow running.old now bytes.now running.new result }
    ensures told { IsSome (D.seen (disk_of running.new)) ↔ IsSome (D.seen (disk_of running.old)) }
    ensures limit { D.limit (disk_of running.new) ≡ D.limit (disk_of running.old) }
    ensures faults { D.faults (disk_of running.old) ≤ D.faults (disk_of running.new) }
{
    let before = running.store.mark().records;
    match running.memory.handle(&mut running.store, bytes, now) {
        Ok(given) => {
            let made = running.store.mark().records.saturating_sub(before);
            running.armed = running.armed.lowered(made as u64 * CALLS_OF_A_RECORD);
            Ok(given)
        }
        Err(NodeFault::OutOfMemory) => Err(NodeFault::OutOfMemory),
        Err(NodeFault::Down) => Err(NodeFault::Down),
    }
}
