//! A cell at set-up.

ghost use Rattle.afs_lending.specs.Lending.{AreLent};
ghost use Rattle.std.specs.Prelude.{◌≡◌, ◌<◌, ◌+◌, ◌↔◌, length, IfErr, IfOk};
ghost use Rattle.afs_grammar.specs.CellScripts.{IsCellScript};
ghost use Rattle.afs_cell.specs.Ends.{AreAllLeft, IsRefused};
ghost use Rattle.afs_cell.specs.Steps.{IsFirst};
ghost use Rattle.afs_cell.specs.Lends.{LentTell};
ghost use Rattle.afs_cell.specs.Worlds.{AllTell, IsWorld};

use crate::faults::SetupFault;
use crate::seating::{Rooms, hosts_at_first};
use crate::world::{Gone, World};
use afs_admins::setup::admins_at_first;
use afs_clients::places::Places;
use afs_clients::setup::clients_at_first;
use afs_disk::{Disk, Disks};
use afs_host::Seat;
use afs_wire::Wire;
use spec_history::scripts::Script;
use std::alloc::Global;

/// The cell of a script over these disks, the location database's and one for each server, in order of number. A refusal hands all disks
/// back, in order.
pub fn set_up<'a, D: Disk + Drop>(
    alloc: Global,
    script: &'a Script,
    disks: Disks<D>,
) -> Result<World<'a, D>, (SetupFault, Disks<D>)>
    requires script { IsCellScript script.now }
    requires disks { AreLent D.limit script.now.capacity 0 disks }
    requires all { length disks ≡ script.now.servers + 1 }
    ensures world { IfOk result (IsWorld D.seen D.may_leave D.faults D.limit script.now) }
    ensures first { IfOk result (IsFirst D.seen D.may_leave D.limit script.now) }
    ensures tells { IfOk result (λ w. LentTell D.seen disks ↔ AllTell D.seen w) }
    ensures back { IfErr result (λ e. AreLent D.limit script.now.capacity 0 e.1 × (length e.1 ≡ script.now.servers + 1)) }
    ensures cause { IfErr result (λ e. IsRefused D.faults 0 disks e) }
    ensures left { IfErr result (λ e. AreAllLeft D.seen D.may_leave script.now disks e.1) }
{
    let Ok(clients) = clients_at_first(alloc, script) else {
        return Err((SetupFault::OutOfMemory, disks));
    };
    let Ok(admins) = admins_at_first(alloc, script) else {
        return Err((SetupFault::OutOfMemory, disks));
    };
    let Ok(rooms) = Rooms::with_room(alloc, script.servers as usize) else {
        return Err((SetupFault::OutOfMemory, disks));
    };
    let (database, rooms) = hosts_at_first(alloc, script, disks, rooms)?;
    let Rooms { seats, back } = rooms;
    Ok(World {
        alloc,
        script,
        database: Seat::Up(database),
        servers: Places::of(seats),
        clients: Places::of(clients),
        admins: Places::of(admins),
        wire: Wire::new(alloc),
        history: Vec::new(alloc),
        gone: Gone {
            entries: 0,
            sent: 0,
        },
        clock: 0,
        is_lost: false,
        back,
    })
}
