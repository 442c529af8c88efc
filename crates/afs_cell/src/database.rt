//! What a cell's location database is given.

ghost use Rattle.std.specs.Prelude.{◌≡◌, ◌≤◌, [], ◌∷◌, ℕ, IfNone};
ghost use Rattle.afs_num.specs.declared.types.Node.TheVariants.{Loc};
ghost use Rattle.spec_history.specs.declared.lines.Line.TheVariants as lines;
ghost use Rattle.afs_host.specs.declared.seats.Seat.TheVariants as seat;
ghost use Rattle.afs_host.specs.LocSeated.{loc_seat_disk};
ghost use Rattle.afs_clients.specs.Happening.{IsDueAtLoc};
ghost use Rattle.afs_clients.specs.declared.happening.DatabaseInput.TheVariants as input;
ghost use Rattle.afs_cell.specs.DatabaseHearing.{IsLocUpSeat, LocLeavesPick, LocSeatBecomes, LocSeatFalls};
ghost use Rattle.afs_cell.specs.DatabaseSteps.{HasLocHeard, HasLocStep, IsLocFallen, IsVoidAtLoc, LocCanStep, LocGoes, LocHappens, LocKeeps};

use afs_clients::happening::{DatabaseInput, Happened};
use afs_clients::telling::told_alone;
use afs_disk::Disk;
use afs_host::{DatabaseRunning, DatabaseSeat, Resting, Seat, Start};
use afs_num::sequences::Sequence;
use afs_num::types::Node;
use afs_server_parts::faults::NodeFault;
use spec_history::lines::{Line, Outs};
use std::alloc::Global;

/// The database is given a message, if it is up. `None` where its disk ended the step: then it is to fall.
pub fn hear<D: Disk>(seat: &mut DatabaseSeat<D>, bytes: &[u8]) -> Option<Happened>
    requires can { LocCanStep seat.old }
    ensures happens { (clock place : ℕ) → LocSeatBecomes D.Disk (λ s what. LocHappens D.seen D.may_leave D.faults D.limit (lines.Given place ∷ []) IsLocFallen (HasLocHeard clock place bytes.now) seat.old s what) seat.new result }
    ensures goes { LocSeatBecomes D.Disk (λ s what. LocGoes seat.old s what) seat.new result }
    ensures keeps { LocSeatBecomes D.Disk (λ s what. LocKeeps D.seen D.faults D.limit seat.old s) seat.new result }
    ensures falls { IfNone result (IsLocUpSeat seat.new) }
{
    match seat {
        Seat::Up(running) => match running.serve(bytes) {
            Ok(outs) => Some(Happened::Step(outs)),
            Err(NodeFault::OutOfMemory) => Some(Happened::Unchanged),
            Err(NodeFault::Down) => None,
        },
        Seat::Down(_) => Some(Happened::Nothing),
    }
}

/// The database, whose disk ended its step, goes down.
pub fn fall<D: Disk>(seat: DatabaseSeat<D>, alloc: Global) -> (DatabaseSeat<D>, Happened)
    requires up { IsLocUpSeat seat }
    ensures { LocSeatFalls D.Disk seat result.0 result.1 }
{
    match seat {
        Seat::Up(running) => {
            let (resting, line) = running.fall();
            match told_alone(alloc, line) {
                Ok(outs) => (Seat::Down(resting), Happened::Step(outs)),
                Err(_) => (Seat::Down(resting), Happened::Lost),
            }
        }
        Seat::Down(_) => unreachable!(),
    }
}

/// The database crashes, and its disk with this pick.
fn crash<D: Disk>(
    alloc: Global,
    running: DatabaseRunning<D>,
    pick: u8,
) -> (DatabaseSeat<D>, Happened)
    requires can { LocCanStep (seat.Up running) }
    ensures happens { LocHappens D.seen D.may_leave D.faults D.limit [] (IsVoidAtLoc (input.Crash pick)) (HasLocStep 0 0 (input.Crash pick)) (seat.Up running) result.0 result.1 }
    ensures goes { LocGoes (seat.Up running) result.0 result.1 }
    ensures keeps { LocKeeps D.seen D.faults D.limit (seat.Up running) result.0 }
    ensures picked { LocLeavesPick D.seen D.left_by result.1 (input.Crash pick) (seat.Up running) result.0 }
{
    match told_alone(alloc, Line::Crash { node: Node::Loc }) {
        Ok(outs) => (Seat::Down(running.crash(pick)), Happened::Step(outs)),
        Err(_) => (Seat::Up(running), Happened::Unchanged),
    }
}

/// The disk is set to stop the database.
fn set_to_stop<D: Disk>(
    alloc: Global,
    mut running: DatabaseRunning<D>,
    calls: u32,
    pick: u8,
) -> (DatabaseSeat<D>, Happened)
    requires can { LocCanStep (seat.Up running) }
    ensures happens { LocHappens D.seen D.may_leave D.faults D.limit [] (IsVoidAtLoc (input.Stop calls pick)) (HasLocStep 0 0 (input.Stop calls pick)) (seat.Up running) result.0 result.1 }
    ensures goes { LocGoes (seat.Up running) result.0 result.1 }
    ensures keeps { LocKeeps D.seen D.faults D.limit (seat.Up running) result.0 }
{
    let line = Line::Stop {
        node: Node::Loc,
        calls,
        pick,
    };
    match told_alone(alloc, line) {
        Ok(outs) => {
            running.stop_after(calls, pick);
            (Seat::Up(running), Happened::Step(outs))
        }
        Err(_) => (Seat::Up(running), Happened::Unchanged),
    }
}

/// The disk is set to fail.
fn set_to_fail<D: Disk>(
    alloc: Global,
    mut running: DatabaseRunning<D>,
    call: u32,
) -> (DatabaseSeat<D>, Happened)
    requires can { LocCanStep (seat.Up running) }
    requires due { 1 ≤ call }
    ensures happens { LocHappens D.seen D.may_leave D.faults D.limit [] (IsVoidAtLoc (input.Fail call)) (HasLocStep 0 0 (input.Fail call)) (seat.Up running) result.0 result.1 }
    ensures goes { LocGoes (seat.Up running) result.0 result.1 }
    ensures keeps { LocKeeps D.seen D.faults D.limit (seat.Up running) result.0 }
{
    let line = Line::Fail {
        node: Node::Loc,
        calls: call,
    };
    match told_alone(alloc, line) {
        Ok(outs) => {
            running.fail_at(call);
            (Seat::Up(running), Happened::Step(outs))
        }
        Err(_) => (Seat::Up(running), Happened::Unchanged),
    }
}

/// The database, which is up, is given something that is no message.
fn take_up<D: Disk>(
    alloc: Global,
    running: DatabaseRunning<D>,
    given: DatabaseInput,
) -> (DatabaseSeat<D>, Happened)
    requires can { LocCanStep (seat.Up running) }
    requires due { IsDueAtLoc given }
    ensures happens { (clock count : ℕ) → LocHappens D.seen D.may_leave D.faults D.limit [] (IsVoidAtLoc given) (HasLocStep clock count given) (seat.Up running) result.0 result.1 }
    ensures goes { LocGoes (seat.Up running) result.0 result.1 }
    ensures keeps { LocKeeps D.seen D.faults D.limit (seat.Up running) result.0 }
    ensures picked { LocLeavesPick D.seen D.left_by result.1 given (seat.Up running) result.0 }
{
    match given {
        DatabaseInput::Crash(pick) => crash(alloc, running, pick),
        DatabaseInput::Restart => (Seat::Up(running), Happened::Nothing),
        DatabaseInput::Stop { calls, pick } => set_to_stop(alloc, running, calls, pick),
        DatabaseInput::Fail { call } => set_to_fail(alloc, running, call),
    }
}

/// The database, which is down, begins again.
fn begin_again<D: Disk>(alloc: Global, resting: Resting<D>) -> (DatabaseSeat<D>, Happened)
    requires limit { D.limit resting.disk ≤ 268435456 }
    ensures happens { (clock count : ℕ) → LocHappens D.seen D.may_leave D.faults D.limit [] (IsVoidAtLoc input.Restart) (HasLocStep clock count input.Restart) (seat.Down resting) result.0 result.1 }
    ensures goes { LocGoes (seat.Down resting) result.0 result.1 }
    ensures keeps { LocKeeps D.seen D.faults D.limit (seat.Down resting) result.0 }
{
    match resting.start_database(alloc) {
        Start::Up(running, outs) => (Seat::Up(running), Happened::Step(outs)),
        Start::Down(resting, lines) => (
            Seat::Down(resting),
            Happened::Step(Outs {
                parcels: Sequence::new(alloc),
                lines,
            }),
        ),
        Start::Unchanged(resting) => (Seat::Down(resting), Happened::Unchanged),
        Start::Lost(resting) => (Seat::Down(resting), Happened::Lost),
    }
}

/// The database is given something that is no message, and takes memory from there for what it tells.
pub fn take<D: Disk>(
    seat: DatabaseSeat<D>,
    given: (DatabaseInput, Global),
) -> (DatabaseSeat<D>, Happened)
    requires can { LocCanStep seat }
    requires limit { D.limit (loc_seat_disk seat) ≤ 268435456 }
    requires due { IsDueAtLoc given.0 }
    ensures happens { (clock count : ℕ) → LocHappens D.seen D.may_leave D.faults D.limit [] (IsVoidAtLoc given.0) (HasLocStep clock count given.0) seat result.0 result.1 }
    ensures goes { LocGoes seat result.0 result.1 }
    ensures keeps { LocKeeps D.seen D.faults D.limit seat result.0 }
    ensures picked { LocLeavesPick D.seen D.left_by result.1 given.0 seat result.0 }
{
    let (given, alloc) = given;
    match seat {
        Seat::Up(running) => take_up(alloc, running, given),
        Seat::Down(resting) => match given {
            DatabaseInput::Restart => begin_again(alloc, resting),
            _ => (Seat::Down(resting), Happened::Nothing),
        },
    }
}
