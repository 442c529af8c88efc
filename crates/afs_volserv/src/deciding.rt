//! What a volume server decides on a call.

ghost use Rattle.std.specs.Prelude.{◌≡◌, ◌<◌, ℕ, IfOk, if◌then◌else◌};
ghost use Rattle.afs_num.specs.declared.messages.Call.TheVariants as ask;
ghost use Rattle.spec_shape.specs.Rows.{IsWithin};
ghost use Rattle.afs_call.specs.Admitting.{means};
ghost use Rattle.afs_server_parts.specs.Heard.{IsUnder};
ghost use Rattle.spec_model.specs.Calls.{admitted, call_seat, paired, runs};
ghost use Rattle.spec_model.specs.CellRows.{cell_calls, call_number};
ghost use Rattle.spec_model.specs.Messages.{IsSoundCarried};
ghost use Rattle.afs_voldecisions.specs.Replies.{answer_message, CanAnswer};
ghost use Rattle.afs_voldecisions.specs.Verdicts.{after_of};
ghost use Rattle.spec_volrows.specs.VolRow.{without_family};
ghost use Rattle.spec_volrows.specs.VolSteps.{judged, vol_admits, vol_called, vol_carried, vol_received};
ghost use Rattle.afs_volanswers.specs.Deciding.{answers_of, decision_of, full_carried, full_for, full_then, raised_judged, same_judged, CanBecome, CanBeDone, IsAskedBy, IsAskedIn, IsOfCaller, Runs};
ghost use Rattle.afs_volserv.specs.Seen.{durable_seen, vol_seen, ServesVolumes};

use crate::looking::judge;
use crate::server::VolServer;
use afs_call::Admit;
use afs_disk::Disk;
use afs_message::spelled::SpelledMessage;
use afs_num::messages::{Call, Carried, Received};
use afs_num::types::{Head, Mem};
use afs_num::volume_calls::VolCall;
use afs_volanswers::answers::{
    NOT_SERVED, code_of_unreadable, full, is_served, raised, refused, same,
};
use afs_volanswers::decided::Decided;
use afs_voldecisions::replies::Answer;
use afs_voldecisions::transactions::{After, Transactions};
use afs_voldecisions::verdicts::{OLD_STAMP, family_of};
use afs_volstore::VolStore;
use afs_volume::Volume;

impl VolServer {
    /// What is decided on a call under the stored stamp.
    fn judge_same<D: Disk>(&self, store: &VolStore<D>, head: &Head, call: &VolCall) -> Mem<Decided>
        requires serves { ServesVolumes self.now store.now }
        requires within { IsWithin cell_calls (ask.Volume call.now) }
        requires opcode { head.now.opcode ≡ call_number (ask.Volume call.now) }
        ensures decides { IfOk result (λ x. decision_of (durable_seen store.now) (vol_seen self.now) head.now (full_for (durable_seen store.now) (vol_seen self.now) head.now call.now) x ≡ same_judged (durable_seen store.now) (vol_seen self.now) head.now call.now) }
        ensures can { IfOk result (CanBeDone store.now.durable (vol_seen self.now) head.now.opcode) }
    {
        let verdict = judge(self.alloc, store, &self.transactions, head.stamp, call)?;
        same(self.alloc, &self.transactions, verdict)
    }

    /// The transactions of other families.
    fn others_than(&self, family: u32) -> Mem<Transactions>
        ensures { IfOk result (λ ts. ts ≡ record { table = without_family family self.now.transactions; last = self.now.last }) }
    {
        let mut live = self.transactions.copy(self.alloc)?;
        live.end_family(family);
        Ok(live)
    }

    /// What is decided on a call under a higher stamp than the stored one.
    fn judge_raised<D: Disk>(
        &self,
        store: &VolStore<D>,
        head: &Head,
        call: &VolCall,
    ) -> Mem<Decided>
        requires serves { ServesVolumes self.now store.now }
        requires within { IsWithin cell_calls (ask.Volume call.now) }
        requires opcode { head.now.opcode ≡ call_number (ask.Volume call.now) }
        ensures decides { IfOk result (λ x. decision_of (durable_seen store.now) (vol_seen self.now) head.now (full_for (durable_seen store.now) (vol_seen self.now) head.now call.now) x ≡ raised_judged (durable_seen store.now) (vol_seen self.now) head.now call.now) }
        ensures can { IfOk result (CanBeDone store.now.durable (vol_seen self.now) head.now.opcode) }
    {
        let family = family_of(call);
        let live = self.others_than(family)?;
        let verdict = judge(self.alloc, store, &live, head.stamp, call)?;
        raised(family, head.stamp, live, verdict)
    }

    /// What is answered where there is no room for the record: no stamp is raised and no transaction has ended. The call is judged over the
    /// transactions as they were, and what isn't refused so finds no room.
    pub(crate) fn judge_full<D: Disk>(
        &self,
        store: &VolStore<D>,
        head: &Head,
        call: &VolCall,
    ) -> Mem<(Answer, After)>
        requires serves { ServesVolumes self.now store.now }
        requires within { IsWithin cell_calls (ask.Volume call.now) }
        ensures decides { IfOk result (λ a. answers_of store.now.durable.boot head.now self.now.transactions self.now.last (after_of a.1) (answer_message store.now.durable.boot head.now a.0) ≡ full_for (durable_seen store.now) (vol_seen self.now) head.now call.now) }
        ensures can { (opcode : ℕ) → IfOk result (λ a. CanAnswer opcode a.0) }
        ensures becomes { IfOk result (λ a. CanBecome store.now.durable self.now.last (after_of a.1) self.now.transactions) }
    {
        let verdict = judge(self.alloc, store, &self.transactions, head.stamp, call)?;
        Ok(full(self.alloc, verdict))
    }

    /// What is decided on a call that can be read.
    fn serve<D: Disk>(&self, store: &VolStore<D>, head: &Head, call: &VolCall) -> Mem<Decided>
        requires serves { ServesVolumes self.now store.now }
        requires within { IsWithin cell_calls (ask.Volume call.now) }
        requires opcode { head.now.opcode ≡ call_number (ask.Volume call.now) }
        ensures decides { IfOk result (λ x. decision_of (durable_seen store.now) (vol_seen self.now) head.now (full_for (durable_seen store.now) (vol_seen self.now) head.now call.now) x ≡ judged (durable_seen store.now) (vol_seen self.now) head.now call.now) }
        ensures can { IfOk result (CanBeDone store.now.durable (vol_seen self.now) head.now.opcode) }
    {
        let stored = store.stamp(family_of(call));
        if head.stamp < stored {
            return Ok(refused(OLD_STAMP as i32));
        }
        if stored < head.stamp {
            self.judge_raised(store, head, call)
        } else {
            self.judge_same(store, head, call)
        }
    }

    /// What is decided on a message whose header is that of a call.
    fn run_carried<D: Disk>(
        &self,
        store: &VolStore<D>,
        head: &Head,
        carried: &Carried,
    ) -> Mem<Decided>
        requires serves { ServesVolumes self.now store.now }
        requires sound { IsSoundCarried head.now.half head.now.opcode carried.now }
        ensures decides { IfOk result (λ x. decision_of (durable_seen store.now) (vol_seen self.now) head.now (full_carried (durable_seen store.now) (vol_seen self.now) head.now carried.now) x ≡ vol_carried (durable_seen store.now) (vol_seen self.now) head.now carried.now) }
        ensures can { IfOk result (CanBeDone store.now.durable (vol_seen self.now) head.now.opcode) }
        ensures asked { IfOk result (IsAskedIn carried.now) }
    {
        match carried {
            Carried::Call {
                call: Call::Volume(call),
                ..
            } => self.serve(store, head, call),
            Carried::Call { .. } => Ok(refused(NOT_SERVED)),
            _ => Ok(Decided::Drops),
        }
    }

    /// What is decided on a call of a server or an administrator.
    fn run_received<D: Disk>(
        &self,
        store: &VolStore<D>,
        head: &Head,
        received: &Received,
    ) -> Mem<Decided>
        requires serves { ServesVolumes self.now store.now }
        requires heard { IsUnder head.now received.now }
        ensures decides { IfOk result (λ x. decision_of (durable_seen store.now) (vol_seen self.now) head.now (full_then (durable_seen store.now) (vol_seen self.now) head.now received.now) x ≡ vol_received (durable_seen store.now) (vol_seen self.now) head.now received.now) }
        ensures can { IfOk result (CanBeDone store.now.durable (vol_seen self.now) head.now.opcode) }
        ensures asked { IfOk result (IsAskedBy received.now) }
    {
        match received {
            Received::Nothing => Ok(Decided::Drops),
            Received::Unserved { .. } => Ok(refused(NOT_SERVED)),
            Received::Unreadable { .. } => Ok(refused(code_of_unreadable(head.opcode))),
            Received::Whole { message } => self.run_carried(store, head, &message.carried),
        }
    }

    /// What is decided on a call that is to run.
    fn run<D: Disk>(&self, store: &VolStore<D>, head: &Head, received: &Received) -> Mem<Decided>
        requires serves { ServesVolumes self.now store.now }
        requires heard { IsUnder head.now received.now }
        ensures decides { IfOk result (λ x. decision_of (durable_seen store.now) (vol_seen self.now) head.now (full_then (durable_seen store.now) (vol_seen self.now) head.now received.now) x ≡ vol_admits (durable_seen store.now) (vol_seen self.now) head.now received.now runs) }
        ensures can { IfOk result (CanBeDone store.now.durable (vol_seen self.now) head.now.opcode) }
        ensures asked { IfOk result (IsAskedBy received.now) }
        ensures caller { IfOk result (IsOfCaller head.now) }
    {
        if !is_served(&head.from) {
            return Ok(refused(NOT_SERVED));
        }
        self.run_received(store, head, received)
    }

    /// What is decided on a call of which this becomes.
    fn as_admitted<D: Disk>(
        &self,
        store: &VolStore<D>,
        head: &Head,
        received: &Received,
        admit: Admit<'_, SpelledMessage>,
    ) -> Mem<Decided>
        requires serves { ServesVolumes self.now store.now }
        requires heard { IsUnder head.now received.now }
        requires means { means admit ≡ admitted store.now.durable.boot self.now.seats head.now }
        ensures decides { IfOk result (λ x. decision_of (durable_seen store.now) (vol_seen self.now) head.now (full_then (durable_seen store.now) (vol_seen self.now) head.now received.now) x ≡ vol_admits (durable_seen store.now) (vol_seen self.now) head.now received.now (admitted store.now.durable.boot self.now.seats head.now)) }
        ensures can { IfOk result (CanBeDone store.now.durable (vol_seen self.now) head.now.opcode) }
        ensures asked { IfOk result (IsAskedBy received.now) }
        ensures caller { IfOk result (IsOfCaller head.now) }
        ensures runs { IfOk result (λ x. Runs x (paired head.now.epoch head.now.number (call_seat head.now.from self.now.seats))) }
    {
        match admit {
            Admit::Run => self.run(store, head, received),
            Admit::Kept(reply) => {
                let reply = reply.copy(self.alloc)?;
                Ok(Decided::Repeats(reply))
            }
            Admit::InProgress => Ok(Decided::Drops),
            Admit::Old => Ok(Decided::Drops),
            Admit::WrongBoot(_) => Ok(Decided::TellsBoot),
        }
    }

    /// What is decided on a call with this header.
    pub(crate) fn called<D: Disk>(
        &self,
        store: &VolStore<D>,
        head: &Head,
        received: &Received,
    ) -> Mem<Decided>
        requires serves { ServesVolumes self.now store.now }
        requires heard { IsUnder head.now received.now }
        ensures decides { IfOk result (λ x. decision_of (durable_seen store.now) (vol_seen self.now) head.now (full_then (durable_seen store.now) (vol_seen self.now) head.now received.now) x ≡ vol_called store.now.node (durable_seen store.now) (vol_seen self.now) head.now received.now) }
        ensures can { IfOk result (CanBeDone store.now.durable (vol_seen self.now) head.now.opcode) }
        ensures asked { IfOk result (IsAskedBy received.now) }
        ensures caller { IfOk result (IsOfCaller head.now) }
        ensures runs { IfOk result (λ x. Runs x (paired head.now.epoch head.now.number (call_seat head.now.from self.now.seats))) }
    {
        if !head.to.is(&store.node()) {
            return Ok(Decided::Drops);
        }
        self.as_admitted(store, head, received, self.callers.admit(head))
    }
}
