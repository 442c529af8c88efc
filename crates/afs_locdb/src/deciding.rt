//! What is decided on a call, before anything is done.

ghost use Rattle.std.specs.Prelude.{◌≡◌, ℕ, IfOk, if◌then◌else◌};
ghost use Rattle.spec_model.specs.Calls.{admitted, call_seat, paired};
ghost use Rattle.spec_model.specs.CellRows.{cell_calls, call_number};
ghost use Rattle.spec_model.specs.Messages.{IsSoundCarried};
ghost use Rattle.afs_call.specs.Admitting.{means};
ghost use Rattle.afs_num.specs.declared.messages.Call.TheVariants as ask;
ghost use Rattle.afs_num.specs.declared.types.Head as types;
ghost use Rattle.spec_rows.specs.LocRow as rows;
ghost use Rattle.spec_rows.specs.LocRow.{admits, called, loc_op, loc_serves, runs_carried, runs_received};
ghost use Rattle.spec_rows.specs.ServerRow.{bad_fields, not_served};
ghost use Rattle.spec_shape.specs.Rows.{IsWithin};
ghost use Rattle.afs_locdb.specs.Deciding.{change_decided, change_in, decision_of, outcome_of, CanAnswer, CanBeTold, IsByAnother, IsMadeIn, Runs};
ghost use Rattle.afs_server_parts.specs.Heard.{IsUnder};
ghost use Rattle.afs_locdb.specs.Seen.{loc_seen, IsInBoot};

use crate::database::LocDb;
use crate::decided::Decided;
use crate::operations::{Outcome, run};
use afs_call::Admit;
use afs_disk::Disk;
use afs_message::spelled::SpelledMessage;
use afs_num::location_calls::LocCall;
use afs_num::messages::{Call, Carried, Received};
use afs_num::types::{Head, Mem, Node};

/// The calls that the database serves.
pub const CALLS: [u32; 9] = [501, 502, 503, 504, 505, 506, 508, 509, 510];

/// The call isn't served here.
const NOT_SERVED: i32 = -455;

/// The user or the fields can't be read.
const BAD_FIELDS: i32 = -453;

/// Whether it serves calls of this opcode.
fn serves(opcode: u32) -> bool
    ensures { result ≡ loc_serves opcode }
{
    CALLS.iter().any(|served| opcode == *served)
}

/// The code for a call whose user or fields can't be read.
fn code_of_unreadable(opcode: u32) -> i32
    ensures { result ≡ (if loc_serves opcode then bad_fields else not_served) }
{
    if serves(opcode) {
        BAD_FIELDS
    } else {
        NOT_SERVED
    }
}

/// What is decided on a call of which this comes.
fn decided(outcome: Outcome) -> Decided
    ensures decides { (s : rows.LocState) (head : types.Head) → decision_of s head result ≡ rows.decided s head (outcome_of outcome) }
    ensures told { (opcode : ℕ) → CanAnswer opcode outcome → CanBeTold opcode result }
    ensures change { change_decided result ≡ change_in outcome }
{
    match outcome {
        Outcome::Refused(code) => Decided::Refuses(code),
        Outcome::Reads(reply) => Decided::Shows(reply),
        Outcome::Changes(change) => Decided::Saves(change),
    }
}

impl<D: Disk> LocDb<D> {
    /// What is decided on a call of the database's interface.
    fn serve(&self, head: &Head, call: &LocCall) -> Mem<Decided>
        requires within { IsWithin cell_calls (ask.Location call.now) }
        requires opcode { head.now.opcode ≡ call_number (ask.Location call.now) }
        ensures decides { IfOk result (λ d. decision_of (loc_seen self.now) head.now d ≡ rows.decided (loc_seen self.now) head.now (loc_op head.now.stamp call.now (loc_seen self.now).lasting)) }
        ensures told { IfOk result (λ d. CanBeTold head.now.opcode d) }
        ensures made { IfOk result (λ d. IsMadeIn (loc_seen self.now) d) }
    {
        let outcome = run(self.alloc, self.held(), head.stamp, call)?;
        Ok(decided(outcome))
    }

    /// What is decided on a message whose header is that of a call.
    fn run_carried(&self, head: &Head, carried: &Carried) -> Mem<Decided>
        requires sound { IsSoundCarried head.now.half head.now.opcode carried.now }
        ensures decides { IfOk result (λ d. decision_of (loc_seen self.now) head.now d ≡ runs_carried (loc_seen self.now) head.now carried.now) }
        ensures told { IfOk result (λ d. CanBeTold head.now.opcode d) }
        ensures made { IfOk result (λ d. IsMadeIn (loc_seen self.now) d) }
    {
        match carried {
            Carried::Call {
                call: Call::Location(call),
                ..
            } => self.serve(head, call),
            Carried::Call { .. } => Ok(Decided::Refuses(NOT_SERVED)),
            _ => Ok(Decided::Drops),
        }
    }

    /// What is decided on a call of another node.
    fn run_received(&self, head: &Head, received: &Received) -> Mem<Decided>
        requires heard { IsUnder head.now received.now }
        ensures decides { IfOk result (λ d. decision_of (loc_seen self.now) head.now d ≡ runs_received (loc_seen self.now) head.now received.now) }
        ensures told { IfOk result (λ d. CanBeTold head.now.opcode d) }
        ensures made { IfOk result (λ d. IsMadeIn (loc_seen self.now) d) }
    {
        match received {
            Received::Nothing => Ok(Decided::Drops),
            Received::Unserved { .. } => Ok(Decided::Refuses(NOT_SERVED)),
            Received::Unreadable { .. } => Ok(Decided::Refuses(code_of_unreadable(head.opcode))),
            Received::Whole { message } => self.run_carried(head, &message.carried),
        }
    }

    /// What is decided on a call that is to run. The database makes no calls, and serves none in its own name.
    fn run(&self, head: &Head, received: &Received) -> Mem<Decided>
        requires heard { IsUnder head.now received.now }
        ensures decides { IfOk result (λ d. decision_of (loc_seen self.now) head.now d ≡ rows.runs (loc_seen self.now) head.now received.now) }
        ensures told { IfOk result (λ d. CanBeTold head.now.opcode d) }
        ensures made { IfOk result (λ d. IsMadeIn (loc_seen self.now) d) }
        ensures another { IfOk result (λ d. IsByAnother head.now d) }
    {
        if head.from.is(&Node::Loc) {
            return Ok(Decided::Refuses(NOT_SERVED));
        }
        self.run_received(head, received)
    }

    /// What is decided on a call of which this becomes.
    fn as_admitted(
        &self,
        head: &Head,
        received: &Received,
        admit: Admit<'_, SpelledMessage>,
    ) -> Mem<Decided>
        requires heard { IsUnder head.now received.now }
        requires means { means admit ≡ admitted self.now.store.durable.boot self.now.seats head.now }
        ensures decides { IfOk result (λ d. decision_of (loc_seen self.now) head.now d ≡ admits (loc_seen self.now) head.now received.now (admitted self.now.store.durable.boot self.now.seats head.now)) }
        ensures told { IfOk result (λ d. CanBeTold head.now.opcode d) }
        ensures made { IfOk result (λ d. IsMadeIn (loc_seen self.now) d) }
        ensures another { IfOk result (λ d. IsByAnother head.now d) }
        ensures runs { IfOk result (λ d. Runs d (paired head.now.epoch head.now.number (call_seat head.now.from self.now.seats))) }
    {
        match admit {
            Admit::Run => self.run(head, received),
            Admit::Kept(reply) => {
                let reply = reply.copy(self.alloc)?;
                Ok(Decided::Repeats(reply))
            }
            Admit::InProgress => Ok(Decided::Drops),
            Admit::Old => Ok(Decided::Drops),
            Admit::WrongBoot(_) => Ok(Decided::TellsBoot),
        }
    }

    /// What is decided on a call with this header.
    pub(crate) fn called(&self, head: &Head, received: &Received) -> Mem<Decided>
        requires serves { IsInBoot self.now }
        requires heard { IsUnder head.now received.now }
        ensures decides { IfOk result (λ d. decision_of (loc_seen self.now) head.now d ≡ called (loc_seen self.now) head.now received.now) }
        ensures told { IfOk result (λ d. CanBeTold head.now.opcode d) }
        ensures made { IfOk result (λ d. IsMadeIn (loc_seen self.now) d) }
        ensures another { IfOk result (λ d. IsByAnother head.now d) }
        ensures runs { IfOk result (λ d. Runs d (paired head.now.epoch head.now.number (call_seat head.now.from self.now.seats))) }
    {
        if !head.to.is(&Node::Loc) {
            return Ok(Decided::Drops);
        }
        self.as_admitted(head, received, self.callers.admit(head))
    }
}
