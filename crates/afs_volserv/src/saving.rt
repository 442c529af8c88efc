//! What is written is put on the disk, and only then done and answered.

ghost use Rattle.std.specs.Prelude.{◌≡◌, ◌≤◌, ◌<◌, ◌+◌, ◌++◌, Some, false, true, length, map, IfOk, IsErrOf, IsSome, OnOk};
ghost use Rattle.afs_num.specs.declared.messages.Call.TheVariants as ask;
ghost use Rattle.afs_num.specs.declared.messages.Received.TheVariants.{Whole};
ghost use Rattle.afs_num.specs.declared.records.StoreRecord as records;
ghost use Rattle.afs_disk.specs.Words.{SameDiskBy};
ghost use Rattle.afs_journal.specs.Words.{SameCountsBy};
ghost use Rattle.spec_fold.specs.Deeds.{can_take};
ghost use Rattle.spec_fold.specs.Effects.{effect_of};
ghost use Rattle.spec_fold.specs.Fold.{folded};
ghost use Rattle.afs_memory.specs.Telling.{in_words};
ghost use Rattle.spec_model.specs.CellRows.{cell_calls};
ghost use Rattle.spec_model.specs.Heads.{IsSoundHead};
ghost use Rattle.spec_model.specs.Messages.{received, spelled};
ghost use Rattle.spec_records.specs.Changes.{keeping};
ghost use Rattle.spec_records.specs.Durable.{has_room};
ghost use Rattle.spec_records.specs.Records.{may_call, row, FitsRecord};
ghost use Rattle.spec_rows.specs.Callbacks.{owe_line};
ghost use Rattle.spec_model.specs.Calls.{key_of};
ghost use Rattle.spec_shape.specs.Rows.{IsWithin};
ghost use Rattle.afs_server_parts.specs.declared.faults.NodeFault.TheVariants as faults;
ghost use Rattle.spec_volrows.specs.VolSteps.{is_vol_caller, written};
ghost use Rattle.afs_volanswers.specs.Deciding.{deed_of, full_for, CanBeSaved, IsMadeThere};
ghost use Rattle.afs_volserv.specs.Handling.{vol_turn_then, StepsVolumes, TookVolumes};
ghost use Rattle.afs_volserv.specs.Saving.{held_on, held_or_none, sent_now, CanPut, IsPlanned, Puts};
ghost use Rattle.afs_volserv.specs.Seen.{durable_seen, vol_seen, CanDraw, HasRoom, ServesVolumes, StandsBeside};
ghost use Rattle.afs_voldecisions.specs.Replies.{CanAnswer};
ghost use Rattle.afs_voldecisions.specs.Verdicts.{HasForm};
ghost use Rattle.afs_volstore.specs.Stores.{IsNoChange};
ghost use Rattle.afs_sharing.specs.Callers.{IsToRun};
ghost use Rattle.afs_sharing.specs.Stores.{OnDisk, Prepares};

use crate::ending::keep;
use crate::holding::hold_instead;
use crate::server::VolServer;
use afs_callbacks::Callbacks;
use afs_callees::replies::key;
use afs_callees::telling::tell_owed;
use afs_disk::Disk;
use afs_message::spelled::{Sent, SpelledMessage};
use afs_num::faults::StoreFault;
use afs_num::records::{RecordBody, RecordHead, StoreRecord};
use afs_num::sequences::{Octets, Sequence};
use afs_num::types::{Head, Mem};
use afs_num::volume_calls::VolCall;
use afs_sendings::held::HeldReplies;
use afs_server_parts::ending::Ended;
use afs_server_parts::faults::NodeFault;
use afs_server_parts::held::HeldReply;
use afs_server_parts::words::are_words;
use afs_sharing::committing::commit;
use afs_sharing::drawing::stand;
use afs_volanswers::decided::Saving;
use afs_voldecisions::replies::answered;
use afs_voldecisions::transactions::Transactions;
use afs_volstore::VolStore;
use afs_volume::Volume;
use spec_breaks::types::OwedBreak;
use spec_history::lines::{Lines, Outs};
use std::alloc::{AllocError, Global};

/// A record can't keep a longer reply.
const MOST_REPLY: usize = 4_294_967_295;

/// What is written comes to this before the disk is touched: its record, its reply, and the reply that waits, if it does. It has the breaks
/// that become owed, what the step gives out and leaves of promises and breaks, the volume whose promises are withdrawn, and the
/// transactions after it.
pub struct Planned {
    pub rec: StoreRecord,
    pub reply: SpelledMessage,
    pub waits: Option<HeldReply>,
    pub breaks: Sequence<OwedBreak>,
    pub ended: Ended,
    pub withdraws: Option<u32>,
    pub transactions: Transactions,
}

/// It ends by a drop of its own: what holds it has one drop to prove where it ends.
impl Drop for Planned {
    fn drop(self) {
        let Planned {
            rec,
            reply: _,
            waits: _,
            breaks: _,
            ended: _,
            withdraws: _,
            transactions: _,
        } = self;
        drop(rec);
    }
}

impl Planned {
    /// What is done once the record stands on the disk. It takes no memory.
    fn into_rest(
        self,
    ) -> (
        SpelledMessage,
        Option<HeldReply>,
        Ended,
        Option<u32>,
        Transactions,
    )
        ensures { result ≡ (self.reply, self.waits, self.ended, self.withdraws, self.transactions) }
    {
        let Planned {
            rec,
            reply,
            waits,
            breaks: _,
            ended,
            withdraws,
            transactions,
        } = self;
        drop(rec);
        (reply, waits, ended, withdraws, transactions)
    }
}

/// A record can keep a reply of this length. Each reply is so short.
fn is_short(reply: &Octets) -> Mem<()>
    ensures { OnOk result (length reply.now ≤ 4294967295) }
{
    if reply.len() > MOST_REPLY {
        return Err(AllocError);
    }
    Ok(())
}

/// The record of what is written, which keeps this reply to the call of this header.
fn record_of(
    alloc: Global,
    head: &Head,
    reply: &SpelledMessage,
    family: u32,
    stamp: u32,
    body: RecordBody,
) -> Mem<StoreRecord>
    requires head { IsSoundHead head.now }
    requires caller { is_vol_caller head.now.from ≡ true }
    requires form { HasForm (Some body) }
    requires may { may_call (row body).number (Some head.now.from) ≡ true }
    ensures value { IfOk result (λ r. r ≡ record { head = record (keeping (key_of head.now) (spelled reply.now)) { family = family; stamp = stamp }; body = body }) }
    ensures fits { IfOk result FitsRecord }
    ensures read { IfOk result (λ _. received (spelled reply.now) ≡ Whole reply.now) }
{
    are_words(&[head.epoch, head.number]);
    let bytes = reply.bytes().copy(alloc)?;
    is_short(&bytes)?;
    Ok(StoreRecord {
        head: RecordHead {
            family,
            stamp,
            caller: Some(head.from),
            epoch: head.epoch,
            number: head.number,
            reply: bytes,
        },
        body,
    })
}

/// Prepares a record where there is room for it, with the volume that was made to judge the call.
fn prepare<D: Disk>(store: &mut VolStore<D>, rec: &StoreRecord, made: Option<Volume>) -> Mem<bool>
    requires fits { FitsRecord rec.now }
    requires taken { IsSome (folded rec.now store.old.durable) }
    requires made { IsMadeThere store.old.durable rec.now.body made }
    requires up { store.old.closed ≡ false }
    ensures room { IfOk result (λ b. b ≡ has_room store.old.durable rec.now) }
    ensures prepares { Prepares rec.now store.old store.new result }
    ensures disk { SameDiskBy D.Disk store.old.disk store.new.disk }
    ensures counts { SameCountsBy D.Disk store.old.disk store.new.disk }
{
    let prepared = match made {
        Some(volume) => store.prepare_restored(rec, volume),
        None => store.prepare(rec),
    };
    match prepared {
        Ok(()) => Ok(true),
        Err(StoreFault::Full(..)) => Ok(false),
        Err(StoreFault::OutOfMemory) => Err(AllocError),
        Err(_) => unreachable!(),
    }
}

/// The lines of the step: what the prepared record tells, and the breaks that become owed.
fn told<D: Disk>(store: &VolStore<D>, breaks: &[OwedBreak]) -> Mem<Lines>
    requires { IsSome store.now.prepared }
    ensures lines { IfOk result (λ ls. (r : records.StoreRecord) → store.now.prepared ≡ Some r → IsNoChange r.body → ls ≡ effect_of store.now.node r store.now.durable ++ map (owe_line store.now.node) breaks.now) }
    ensures words { IfOk result (λ _. (r : records.StoreRecord) → store.now.prepared ≡ Some r → IsNoChange r.body → map in_words (effect_of store.now.node r store.now.durable) ≡ effect_of store.now.node r store.now.durable) }
{
    let mut lines = store.lines()?;
    tell_owed(&mut lines, store.node(), breaks)?;
    Ok(lines)
}

/// The reply goes out, where it waits for no breaks.
fn sent_now(alloc: Global, reply: &SpelledMessage, waits: &[u32]) -> Mem<Sent>
    ensures { IfOk result (λ ms. ms ≡ sent_now reply.now waits.now) }
{
    let mut sent = Sent::new(alloc);
    if waits.is_empty() {
        sent.push(reply.copy(alloc)?)?;
    }
    Ok(sent)
}

/// The reply that waits for these breaks, if there are some.
fn held_on(alloc: Global, reply: &SpelledMessage, waits: Sequence<u32>) -> Mem<Option<HeldReply>>
    ensures { IfOk result (λ h. h ≡ held_on reply.now waits false) }
{
    if waits.is_empty() {
        return Ok(None);
    }
    Ok(Some(HeldReply {
        reply: reply.copy(alloc)?,
        waits,
        again: false,
    }))
}

/// A reply waits, if there is one. It takes no memory.
fn hold_one(held: &mut HeldReplies, waits: Option<HeldReply>)
    requires { 0 < held.old.room }
    ensures held { held.new.held ≡ held.old.held ++ held_or_none waits }
    ensures out { held.new.out ≡ held.old.out }
    ensures on { held.new.on ≡ held.old.on }
{
    if let Some(waits) = waits {
        held.hold(waits);
    }
}

impl VolServer {
    /// What is written for the call of this header comes to this, and the volume that was made to judge it.
    fn plan<D: Disk>(
        &self,
        store: &VolStore<D>,
        callbacks: &Callbacks,
        head: &Head,
        saving: Saving,
        now: u32,
    ) -> Mem<(Planned, Option<Volume>)>
        requires serves { ServesVolumes self.now store.now }
        requires beside { StandsBeside callbacks.now store.now }
        requires draws { CanDraw callbacks.now }
        requires head { IsSoundHead head.now }
        requires caller { is_vol_caller head.now.from ≡ true }
        requires answer { CanAnswer head.now.opcode saving.answer }
        requires form { HasForm (Some saving.body) }
        requires taken { can_take saving.body store.now.durable ≡ true }
        ensures planned { IfOk result (λ p. IsPlanned now head.now saving callbacks.now store.now p.0) }
        ensures made { IfOk result (λ p. p.1 ≡ saving.made) }
    {
        let (answer, body, family, stamp, withdraws, transactions, made) = saving.into_parts();
        let reply = answered(self.alloc, store.boot_number(), head, answer)?;
        let rec = record_of(self.alloc, head, &reply, family, stamp, body)?;
        let breaks = Sequence::from_vec(callbacks.breaks_on(withdraws, now)?);
        let waits = callbacks.waits_for(breaks.as_slice(), now)?;
        let sent = sent_now(self.alloc, &reply, waits.as_slice())?;
        let waits = held_on(self.alloc, &reply, waits)?;
        let ended = callbacks.plan_beside(stand(store), sent, breaks.as_slice(), now)?;
        let planned = Planned {
            rec,
            reply,
            waits,
            breaks,
            ended,
            withdraws,
            transactions,
        };
        Ok((planned, made))
    }

    /// The record, which is prepared, is put on the disk, and then the rest is done, with these lines.
    fn put<D: Disk>(
        &mut self,
        store: &mut VolStore<D>,
        callbacks: &mut Callbacks,
        head: &Head,
        planned: Planned,
        lines: Lines,
        now: u32,
    ) -> Result<Outs, NodeFault>
        requires can { CanPut now head.now planned self.old callbacks.old store.old }
        requires prepared { store.old.prepared ≡ Some planned.rec }
        ensures puts { Puts now head.now planned lines self.old self.new callbacks.old callbacks.new store.old store.new result }
        ensures disk { OnDisk D.Disk (Some planned.rec) store.old.durable store.old.disk store.new.disk result }
    {
        self.callers.reserve(1)?;
        commit(store)?;
        let (reply, waits, ended, withdraws, transactions) = planned.into_rest();
        self.callers.answer(key(head), reply);
        hold_instead(store, &self.transactions, &transactions);
        self.transactions = transactions;
        hold_one(&mut self.held, waits);
        callbacks.withdraw_on(withdraws, now);
        let Outs { parcels, lines: _ } = keep(store, callbacks, ended);
        Ok(Outs { parcels, lines })
    }

    /// The record, which is prepared, is put on the disk, and then the rest is done.
    fn put_told<D: Disk>(
        &mut self,
        store: &mut VolStore<D>,
        callbacks: &mut Callbacks,
        head: &Head,
        planned: Planned,
        now: u32,
    ) -> Result<Outs, NodeFault>
        requires can { CanPut now head.now planned self.old callbacks.old store.old }
        requires prepared { store.old.prepared ≡ Some planned.rec }
        requires no_change { IsNoChange planned.rec.body }
        ensures puts { Puts now head.now planned (effect_of store.old.node planned.rec store.old.durable ++ map (owe_line store.old.node) planned.breaks) self.old self.new callbacks.old callbacks.new store.old store.new result }
        ensures words { (IsErrOf result faults.OutOfMemory → ⊥) → map in_words (effect_of store.old.node planned.rec store.old.durable) ≡ effect_of store.old.node planned.rec store.old.durable }
        ensures disk { OnDisk D.Disk (Some planned.rec) store.old.durable store.old.disk store.new.disk result }
    {
        let lines = told(store, planned.breaks.as_slice())?;
        self.put(store, callbacks, head, planned, lines, now)
    }

    /// The call is answered as where there is no room for the record.
    fn answer_full<D: Disk>(
        &mut self,
        store: &mut VolStore<D>,
        callbacks: &mut Callbacks,
        head: &Head,
        call: &VolCall,
        now: u32,
    ) -> Result<Outs, NodeFault>
        requires serves { ServesVolumes self.old store.old }
        requires beside { StandsBeside callbacks.old store.old }
        requires room { HasRoom self.old store.old }
        requires head { IsSoundHead head.now }
        requires runs { IsToRun head.now self.old.seats }
        requires within { IsWithin cell_calls (ask.Volume call.now) }
        ensures step { StepsVolumes (vol_turn_then self.old callbacks.old store.old now (full_for (durable_seen store.old) (vol_seen self.old) head.now call.now)) self.old self.new callbacks.old callbacks.new store.old store.new result }
        ensures up { IsErrOf result faults.Down → ⊥ }
    {
        let (answer, after) = self.judge_full(store, head, call)?;
        let outs = self.answer(store, callbacks, head, answer, after, now)?;
        Ok(outs)
    }

    /// What is planned is put on the disk where there is room for its record; else its call is answered so.
    fn put_or_answer<D: Disk>(
        &mut self,
        store: &mut VolStore<D>,
        callbacks: &mut Callbacks,
        head: &Head,
        call: &VolCall,
        room: bool,
        planned: Planned,
        now: u32,
    ) -> Result<Outs, NodeFault>
        requires serves { ServesVolumes self.old store.old }
        requires beside { StandsBeside callbacks.old store.old }
        requires head { IsSoundHead head.now }
        requires within { IsWithin cell_calls (ask.Volume call.now) }
        requires can { CanPut now head.now planned self.old callbacks.old store.old }
        requires prepared { room ≡ true → store.old.prepared ≡ Some planned.rec }
        requires no_change { IsNoChange planned.rec.body }
        ensures puts { room ≡ true → Puts now head.now planned (effect_of store.old.node planned.rec store.old.durable ++ map (owe_line store.old.node) planned.breaks) self.old self.new callbacks.old callbacks.new store.old store.new result }
        ensures words { room ≡ true → (IsErrOf result faults.OutOfMemory → ⊥) → map in_words (effect_of store.old.node planned.rec store.old.durable) ≡ effect_of store.old.node planned.rec store.old.durable }
        ensures disk { room ≡ true → OnDisk D.Disk (Some planned.rec) store.old.durable store.old.disk store.new.disk result }
        ensures full { room ≡ false → StepsVolumes (vol_turn_then self.old callbacks.old store.old now (full_for (durable_seen store.old) (vol_seen self.old) head.now call.now)) self.old self.new callbacks.old callbacks.new store.old store.new result }
        ensures up { room ≡ false → IsErrOf result faults.Down → ⊥ }
    {
        if room {
            self.put_told(store, callbacks, head, planned, now)
        } else {
            self.answer_full(store, callbacks, head, call, now)
        }
    }

    /// What is decided to be written is put on the disk where there is room for its record; else the call is answered so.
    pub(crate) fn save<D: Disk>(
        &mut self,
        store: &mut VolStore<D>,
        callbacks: &mut Callbacks,
        head: &Head,
        call: &VolCall,
        saving: Saving,
        now: u32,
    ) -> Result<Outs, NodeFault>
        requires serves { ServesVolumes self.old store.old }
        requires beside { StandsBeside callbacks.old store.old }
        requires draws { CanDraw callbacks.old }
        requires room { HasRoom self.old store.old }
        requires up { store.old.closed ≡ false }
        requires head { IsSoundHead head.now }
        requires runs { IsToRun head.now self.old.seats }
        requires caller { is_vol_caller head.now.from ≡ true }
        requires within { IsWithin cell_calls (ask.Volume call.now) }
        requires can { CanBeSaved store.old.durable (vol_seen self.old) head.now.opcode saving }
        ensures { let d = written (durable_seen store.old) head.now (deed_of store.old.durable.boot head.now saving) (full_for (durable_seen store.old) (vol_seen self.old) head.now call.now) in
            TookVolumes D.Disk d (vol_turn_then self.old callbacks.old store.old now d) self.old self.new callbacks.old callbacks.new store.old store.new result }
    {
        let (planned, made) = self.plan(store, callbacks, head, saving, now)?;
        let room = prepare(store, &planned.rec, made)?;
        self.put_or_answer(store, callbacks, head, call, room, planned, now)
    }
}
