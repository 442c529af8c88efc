//! One server of the cell is given something, or its location database.

ghost use Rattle.std.specs.Prelude.{◌≤◌, ℕ, [], ◌∷◌};
ghost use Rattle.afs_num.specs.declared.types.Node.TheVariants.{Server};
ghost use Rattle.spec_history.specs.declared.lines.Line.TheVariants as lines;
ghost use Rattle.afs_clients.specs.Happening.{IsDue, IsDueAtLoc};
ghost use Rattle.afs_cell.specs.DatabaseHearing.{LocLeavesPick};
ghost use Rattle.afs_cell.specs.DatabaseSteps.{HasLocHeard, HasLocStep, IsLocFallen, IsVoidAtLoc, LocTakes};
ghost use Rattle.afs_cell.specs.SeatSteps.{HasHeard, HasStep, IsFallen, IsVoidServer, ServersHappened};
ghost use Rattle.afs_cell.specs.Hearing.{OneFalls, IsUpAt};
ghost use Rattle.afs_cell.specs.SeatPicks.{OneLeavesPick};
ghost use Rattle.afs_cell.specs.Ready.{AllCanStep, CanTakeAtLoc};

use crate::{database, servers};
use afs_clients::happening::{DatabaseInput, Happened, ServerInput};
use afs_clients::places::Places;
use afs_disk::Disk;
use afs_host::DatabaseSeat;
use afs_num::types::Node;
use afs_serverhost::ServerSeat;
use core::mem::replace_with;
use std::alloc::Global;

/// The disk of this server ended its step, and it goes down.
fn fall<D: Disk>(alloc: Global, servers: &mut Places<ServerSeat<D>>, server: u8) -> Happened
    requires { IsUpAt server servers.old.items }
    ensures { OneFalls D.seen D.left_by D.may_leave D.faults D.limit server servers.old.items servers.new.items result }
{
    let Some(seat) = servers.lift(server) else {
        unreachable!()
    };
    let (seat, happened) = servers::fall(alloc, seat);
    servers.put(server, seat);
    happened
}

/// A server is given a message.
pub fn server_hears<D: Disk>(
    alloc: Global,
    servers: &mut Places<ServerSeat<D>>,
    server: u8,
    bytes: &[u8],
    now: u32,
) -> Happened
    requires can { AllCanStep D.limit servers.old.items }
    requires now { now ≤ 1000000000 }
    ensures { (place : ℕ) → ServersHappened D.seen D.may_leave D.faults D.limit server (lines.Given place ∷ []) IsFallen (HasHeard (Server server) now place bytes.now) servers.old.items servers.new.items result }
{
    let Some(i) = servers.find(server) else {
        return Happened::Nothing;
    };
    match servers::hear(servers.at(i), bytes, now) {
        Some(happened) => happened,
        None => fall(alloc, servers, server),
    }
}

/// A server is given something that is no message.
pub fn server_takes<D: Disk>(
    alloc: Global,
    servers: &mut Places<ServerSeat<D>>,
    server: u8,
    clients: u8,
    now: u32,
    given: ServerInput,
) -> Happened
    requires can { AllCanStep D.limit servers.old.items }
    requires clients { clients ≤ 16 }
    requires due { IsDue given }
    requires now { now ≤ 1000000000 }
    ensures happened { ServersHappened D.seen D.may_leave D.faults D.limit server [] (IsVoidServer given) (HasStep (Server server) now clients given) servers.old.items servers.new.items result }
    ensures picked { OneLeavesPick D.seen D.left_by server result given servers.old.items servers.new.items }
{
    let Some(seat) = servers.lift(server) else {
        return Happened::Nothing;
    };
    let (seat, happened) = servers::take(alloc, seat, Node::Server(server), clients, now, given);
    servers.put(server, seat);
    happened
}

/// The location database is given a message.
pub fn database_hears<D: Disk>(alloc: Global, seat: &mut DatabaseSeat<D>, bytes: &[u8]) -> Happened
    requires can { CanTakeAtLoc D.limit seat.old }
    ensures { (clock place : ℕ) → LocTakes D.seen D.may_leave D.faults D.limit (lines.Given place ∷ []) IsLocFallen (HasLocHeard clock place bytes.now) seat.old seat.new result }
{
    match database::hear(seat, bytes) {
        Some(happened) => happened,
        None => replace_with(seat, alloc, database::fall),
    }
}

/// The location database is given something that is no message.
pub fn database_takes<D: Disk>(
    alloc: Global,
    seat: &mut DatabaseSeat<D>,
    given: DatabaseInput,
) -> Happened
    requires can { CanTakeAtLoc D.limit seat.old }
    requires due { IsDueAtLoc given }
    ensures happened { (clock count : ℕ) → LocTakes D.seen D.may_leave D.faults D.limit [] (IsVoidAtLoc given) (HasLocStep clock count given) seat.old seat.new result }
    ensures picked { LocLeavesPick D.seen D.left_by result given seat.old seat.new }
{
    replace_with(seat, (given, alloc), database::take)
}
