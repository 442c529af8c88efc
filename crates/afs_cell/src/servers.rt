//! What a cell's servers are given.

ghost use Rattle.std.specs.Prelude.{◌≡◌, ◌≤◌, [], ◌∷◌, ℕ, IfNone};
ghost use Rattle.afs_num.specs.Nodes.{IsNode};
ghost use Rattle.afs_num.specs.declared.types.Node.{Node as N};
ghost use Rattle.spec_history.specs.declared.lines.Line.TheVariants as lines;
ghost use Rattle.afs_host.specs.declared.seats.Seat.TheVariants as seat;
ghost use Rattle.afs_clients.specs.Happening.{IsDue};
ghost use Rattle.afs_cell.specs.SeatSteps.{CanStep, GaveOut, HasHeard, HasStep, IsFallen, IsSeatOf, IsVoidServer, SeatGoes, SeatHappens, SeatKeeps};
ghost use Rattle.afs_cell.specs.Hearing.{IsUpSeat, SeatBecomes, SeatFalls};
ghost use Rattle.afs_cell.specs.SeatPicks.{LeavesPick};
ghost use Rattle.afs_serverhost.specs.Seated.{seat_disk};
ghost use Rattle.afs_serverhost.specs.Seats.{with_behind};
ghost use Rattle.afs_clients.specs.declared.happening.ServerInput.TheVariants as input;

use afs_clients::happening::{Happened, ServerInput};
use afs_clients::telling::told_alone;
use afs_disk::Disk;
use afs_host::{Resting, Seat, Start};
use afs_num::sequences::Sequence;
use afs_num::types::{Node, Parcels};
use afs_server_parts::faults::NodeFault;
use afs_serverhost::{ServerRunning, ServerSeat, server, serving, starting};
use spec_history::lines::{Line, Outs};
use std::alloc::Global;

/// What a server's step gave out, with the messages that go behind it. Where memory is wanting for that it can't be told.
fn given_out(outs: Outs, behind: Parcels) -> Happened
    ensures { GaveOut (with_behind (outs, behind)) result }
{
    let Outs { parcels, lines } = outs;
    let mut all = parcels.into_vec();
    let mut behind = behind.into_vec();
    match all.append(&mut behind) {
        Ok(()) => Happened::Step(Outs {
            parcels: Sequence::from_vec(all),
            lines,
        }),
        Err(_) => Happened::Lost,
    }
}

/// A server is given a message, if it is up. `None` where its disk ended the step: then it is to fall.
pub fn hear<D: Disk>(seat: &mut ServerSeat<D>, bytes: &[u8], now: u32) -> Option<Happened>
    requires can { CanStep seat.old }
    requires now { now ≤ 1000000000 }
    ensures happens { (me : N) (place : ℕ) → IsSeatOf me seat.old → SeatBecomes D.seen D.left_by D.may_leave D.faults D.limit (λ s what. SeatHappens D.seen D.may_leave D.faults D.limit me (lines.Given place ∷ []) IsFallen (HasHeard me now place bytes.now) seat.old s what) seat.new result }
    ensures goes { (me : N) → IsSeatOf me seat.old → SeatBecomes D.seen D.left_by D.may_leave D.faults D.limit (λ s what. SeatGoes me seat.old s what) seat.new result }
    ensures keeps { SeatBecomes D.seen D.left_by D.may_leave D.faults D.limit (λ s what. SeatKeeps D.seen D.faults D.limit seat.old s) seat.new result }
    ensures falls { IfNone result (IsUpSeat seat.new) }
{
    match seat {
        Seat::Up(running) => match serving::serve(running, bytes, now) {
            Ok((outs, behind)) => Some(given_out(outs, behind)),
            Err(NodeFault::OutOfMemory) => Some(Happened::Unchanged),
            Err(NodeFault::Down) => None,
        },
        Seat::Down(_) => Some(Happened::Nothing),
    }
}

/// A server whose disk ended its step goes down.
pub fn fall<D: Disk>(alloc: Global, seat: ServerSeat<D>) -> (ServerSeat<D>, Happened)
    requires up { IsUpSeat seat }
    ensures { SeatFalls D.seen D.left_by D.may_leave D.faults D.limit seat result.0 result.1 }
{
    match seat {
        Seat::Up(running) => {
            let (resting, line) = running.fall();
            match told_alone(alloc, line) {
                Ok(outs) => (Seat::Down(resting), Happened::Step(outs)),
                Err(_) => (Seat::Down(resting), Happened::Lost),
            }
        }
        Seat::Down(_) => unreachable!(),
    }
}

/// The server's unanswered call to this node times out.
fn time_out<D: Disk>(
    mut running: ServerRunning<D>,
    callee: Node,
    now: u32,
) -> (ServerSeat<D>, Happened)
    requires can { CanStep (seat.Up running) }
    requires now { now ≤ 1000000000 }
    ensures happens { (me : N) (count : ℕ) → IsSeatOf me (seat.Up running) → SeatHappens D.seen D.may_leave D.faults D.limit me [] (IsVoidServer (input.TimeOut callee)) (HasStep me now count (input.TimeOut callee)) (seat.Up running) result.0 result.1 }
    ensures goes { (me : N) → IsSeatOf me (seat.Up running) → SeatGoes me (seat.Up running) result.0 result.1 }
    ensures keeps { SeatKeeps D.seen D.faults D.limit (seat.Up running) result.0 }
{
    if !server::waits_on(&running, callee) {
        return (Seat::Up(running), Happened::Nothing);
    }
    match server::time_out(&mut running, callee, now) {
        Ok((outs, behind)) => (Seat::Up(running), given_out(outs, behind)),
        Err(_) => (Seat::Up(running), Happened::Unchanged),
    }
}

/// Time has passed at the server.
fn wake<D: Disk>(mut running: ServerRunning<D>, now: u32) -> (ServerSeat<D>, Happened)
    requires can { CanStep (seat.Up running) }
    requires now { now ≤ 1000000000 }
    ensures happens { (me : N) → IsSeatOf me (seat.Up running) → SeatHappens D.seen D.may_leave D.faults D.limit me [] (IsVoidServer input.Wake) (HasStep me now 0 input.Wake) (seat.Up running) result.0 result.1 }
    ensures goes { (me : N) → IsSeatOf me (seat.Up running) → SeatGoes me (seat.Up running) result.0 result.1 }
    ensures keeps { SeatKeeps D.seen D.faults D.limit (seat.Up running) result.0 }
{
    match server::wake(&mut running, now) {
        Ok((outs, behind)) => (Seat::Up(running), given_out(outs, behind)),
        Err(_) => (Seat::Up(running), Happened::Unchanged),
    }
}

/// The server crashes, and its disk with this pick.
fn crash<D: Disk>(
    alloc: Global,
    running: ServerRunning<D>,
    node: Node,
    pick: u8,
) -> (ServerSeat<D>, Happened)
    requires can { CanStep (seat.Up running) }
    requires own { IsSeatOf node (seat.Up running) }
    ensures happens { SeatHappens D.seen D.may_leave D.faults D.limit node [] (IsVoidServer (input.Crash pick)) (HasStep node 0 0 (input.Crash pick)) (seat.Up running) result.0 result.1 }
    ensures goes { SeatGoes node (seat.Up running) result.0 result.1 }
    ensures keeps { SeatKeeps D.seen D.faults D.limit (seat.Up running) result.0 }
    ensures picked { LeavesPick D.seen D.left_by result.1 (input.Crash pick) (seat.Up running) result.0 }
{
    match told_alone(alloc, Line::Crash { node }) {
        Ok(outs) => (
            Seat::Down(server::crash(running, pick)),
            Happened::Step(outs),
        ),
        Err(_) => (Seat::Up(running), Happened::Unchanged),
    }
}

/// The disk is set to stop the server.
fn set_to_stop<D: Disk>(
    alloc: Global,
    mut running: ServerRunning<D>,
    node: Node,
    calls: u32,
    pick: u8,
) -> (ServerSeat<D>, Happened)
    requires can { CanStep (seat.Up running) }
    requires own { IsSeatOf node (seat.Up running) }
    ensures happens { SeatHappens D.seen D.may_leave D.faults D.limit node [] (IsVoidServer (input.Stop calls pick)) (HasStep node 0 0 (input.Stop calls pick)) (seat.Up running) result.0 result.1 }
    ensures goes { SeatGoes node (seat.Up running) result.0 result.1 }
    ensures keeps { SeatKeeps D.seen D.faults D.limit (seat.Up running) result.0 }
{
    match told_alone(alloc, Line::Stop { node, calls, pick }) {
        Ok(outs) => {
            server::stop_after(&mut running, calls, pick);
            (Seat::Up(running), Happened::Step(outs))
        }
        Err(_) => (Seat::Up(running), Happened::Unchanged),
    }
}

/// The disk is set to fail.
fn set_to_fail<D: Disk>(
    alloc: Global,
    mut running: ServerRunning<D>,
    node: Node,
    call: u32,
) -> (ServerSeat<D>, Happened)
    requires can { CanStep (seat.Up running) }
    requires own { IsSeatOf node (seat.Up running) }
    requires due { 1 ≤ call }
    ensures happens { SeatHappens D.seen D.may_leave D.faults D.limit node [] (IsVoidServer (input.Fail call)) (HasStep node 0 0 (input.Fail call)) (seat.Up running) result.0 result.1 }
    ensures goes { SeatGoes node (seat.Up running) result.0 result.1 }
    ensures keeps { SeatKeeps D.seen D.faults D.limit (seat.Up running) result.0 }
{
    match told_alone(alloc, Line::Fail { node, calls: call }) {
        Ok(outs) => {
            server::fail_at(&mut running, call);
            (Seat::Up(running), Happened::Step(outs))
        }
        Err(_) => (Seat::Up(running), Happened::Unchanged),
    }
}

/// A server that is up is given something that is no message.
fn take_up<D: Disk>(
    alloc: Global,
    running: ServerRunning<D>,
    node: Node,
    now: u32,
    given: ServerInput,
) -> (ServerSeat<D>, Happened)
    requires can { CanStep (seat.Up running) }
    requires own { IsSeatOf node (seat.Up running) }
    requires due { IsDue given }
    requires now { now ≤ 1000000000 }
    ensures happens { (count : ℕ) → SeatHappens D.seen D.may_leave D.faults D.limit node [] (IsVoidServer given) (HasStep node now count given) (seat.Up running) result.0 result.1 }
    ensures goes { SeatGoes node (seat.Up running) result.0 result.1 }
    ensures keeps { SeatKeeps D.seen D.faults D.limit (seat.Up running) result.0 }
    ensures picked { LeavesPick D.seen D.left_by result.1 given (seat.Up running) result.0 }
{
    match given {
        ServerInput::TimeOut(callee) => time_out(running, callee, now),
        ServerInput::Wake => wake(running, now),
        ServerInput::Crash(pick) => crash(alloc, running, node, pick),
        ServerInput::Restart => (Seat::Up(running), Happened::Nothing),
        ServerInput::Stop { calls, pick } => set_to_stop(alloc, running, node, calls, pick),
        ServerInput::Fail { call } => set_to_fail(alloc, running, node, call),
    }
}

/// A server that is down begins again.
fn begin_again<D: Disk>(
    alloc: Global,
    resting: Resting<D>,
    node: Node,
    clients: u8,
    now: u32,
) -> (ServerSeat<D>, Happened)
    requires node { IsNode node }
    requires limit { D.limit resting.disk ≤ 268435456 }
    requires clients { clients ≤ 16 }
    requires now { now ≤ 1000000000 }
    ensures happens { SeatHappens D.seen D.may_leave D.faults D.limit node [] (IsVoidServer input.Restart) (HasStep node now clients input.Restart) (seat.Down resting) result.0 result.1 }
    ensures goes { SeatGoes node (seat.Down resting) result.0 result.1 }
    ensures keeps { SeatKeeps D.seen D.faults D.limit (seat.Down resting) result.0 }
{
    match starting::start(resting, alloc, node, clients, now) {
        Start::Up(running, outs) => (Seat::Up(running), Happened::Step(outs)),
        Start::Down(resting, lines) => (
            Seat::Down(resting),
            Happened::Step(Outs {
                parcels: Sequence::new(alloc),
                lines,
            }),
        ),
        Start::Unchanged(resting) => (Seat::Down(resting), Happened::Unchanged),
        Start::Lost(resting) => (Seat::Down(resting), Happened::Lost),
    }
}

/// A server is given something that is no message, in a cell of so many clients.
pub fn take<D: Disk>(
    alloc: Global,
    seat: ServerSeat<D>,
    node: Node,
    clients: u8,
    now: u32,
    given: ServerInput,
) -> (ServerSeat<D>, Happened)
    requires can { CanStep seat }
    requires own { IsSeatOf node seat }
    requires node { IsNode node }
    requires limit { D.limit (seat_disk seat) ≤ 268435456 }
    requires clients { clients ≤ 16 }
    requires due { IsDue given }
    requires now { now ≤ 1000000000 }
    ensures happens { SeatHappens D.seen D.may_leave D.faults D.limit node [] (IsVoidServer given) (HasStep node now clients given) seat result.0 result.1 }
    ensures goes { SeatGoes node seat result.0 result.1 }
    ensures keeps { SeatKeeps D.seen D.faults D.limit seat result.0 }
    ensures picked { LeavesPick D.seen D.left_by result.1 given seat result.0 }
{
    match seat {
        Seat::Up(running) => take_up(alloc, running, node, now, given),
        Seat::Down(resting) => match given {
            ServerInput::Restart => begin_again(alloc, resting, node, clients, now),
            _ => (Seat::Down(resting), Happened::Nothing),
        },
    }
}
