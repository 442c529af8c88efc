//! A change is put on the disk, and only then done and answered.

ghost use Rattle.std.specs.Prelude.{◌≡◌, ◌≤◌, Some, false, true, length, pos, IfOk, IsErrOf, IsSome, OnOk};
ghost use Rattle.afs_disk.specs.Words.{SameDiskBy};
ghost use Rattle.afs_journal.specs.Words.{SameCountsBy};
ghost use Rattle.afs_num.specs.Nodes.{same_node, IsNode};
ghost use Rattle.afs_num.specs.declared.messages.Received.TheVariants.{Whole};
ghost use Rattle.afs_num.specs.declared.types.Node.TheVariants.{Loc};
ghost use Rattle.spec_model.specs.Calls.{call_seat, paired, runs, key_of};
ghost use Rattle.spec_model.specs.Heads.{IsSoundHead};
ghost use Rattle.spec_model.specs.Messages.{received, spelled};
ghost use Rattle.spec_records.specs.Changes.{keeping};
ghost use Rattle.spec_rows.specs.ServerRow.{refusal};
ghost use Rattle.spec_records.specs.LocDurable.{loc_folded, loc_has_room};
ghost use Rattle.spec_records.specs.LocRecords as records;
ghost use Rattle.spec_records.specs.LocRecords.{deed_form, FitsLocRecord};
ghost use Rattle.spec_rows.specs.LocRow.{roomed};
ghost use Rattle.afs_locdb.specs.Deciding.{HasForm, IsMadeBy, IsReplyTo};
ghost use Rattle.afs_locdb.specs.Handling.{loc_record_decided, Answers};
ghost use Rattle.afs_locdb.specs.Saving.{Commits, DoesAll, IsChangeOf, OnDisk, Prepares, Puts};
ghost use Rattle.afs_locdb.specs.Seen.{loc_seen, IsInBoot};
ghost use Rattle.afs_server_parts.specs.declared.faults.NodeFault.TheVariants as faults;

use crate::answering::{reply_to, sent};
use crate::changes::LocChange;
use crate::database::LocDb;
use crate::operations::NO_ROOM;
use afs_callees::replies::key;
use afs_disk::Disk;
use afs_locrecord::types::{Body, Deed, LocRecord};
use afs_locstore::held::LocStore;
use afs_message::spelled::SpelledMessage;
use afs_num::faults::StoreFault;
use afs_num::records::RecordHead;
use afs_num::sequences::Octets;
use afs_num::types::{Head, Mem};
use afs_server_parts::faults::NodeFault;
use afs_server_parts::words::are_words;
use spec_history::lines::Outs;
use std::alloc::{AllocError, Global};

/// A record can't keep a longer reply.
const MOST_REPLY: usize = 4_294_967_295;

/// A record can keep a reply of this length. That of a change always is so short.
fn is_short(reply: &Octets) -> Mem<()>
    ensures { OnOk result (length reply.now ≤ 4294967295) }
{
    if reply.len() > MOST_REPLY {
        return Err(AllocError);
    }
    Ok(())
}

/// The record of a change, which keeps the reply.
fn record_of(
    alloc: Global,
    head: &Head,
    reply: &SpelledMessage,
    deed: Deed,
    next_id: u32,
    next_stamp: u32,
) -> Mem<LocRecord>
    requires node { IsNode head.now.from }
    requires another { same_node head.now.from Loc ≡ false }
    requires deed { deed_form.Fits deed }
    ensures value { IfOk result (λ r. r ≡ records.loc_record (keeping (key_of head.now) (spelled reply.now)) (records.Database deed next_id next_stamp)) }
    ensures fits { IfOk result (λ r. FitsLocRecord r) }
    ensures read { IfOk result (λ r. received (spelled reply.now) ≡ Whole reply.now) }
{
    are_words(&[head.epoch, head.number]);
    let bytes = reply.bytes().copy(alloc)?;
    is_short(&bytes)?;
    Ok(LocRecord {
        head: RecordHead {
            family: 0,
            stamp: 0,
            caller: Some(head.from),
            epoch: head.epoch,
            number: head.number,
            reply: bytes,
        },
        body: Body::Database {
            deed,
            next_id,
            next_stamp,
        },
    })
}

/// Prepares a record where there is room for it.
fn prepare<D: Disk>(store: &mut LocStore<D>, rec: &LocRecord) -> Mem<bool>
    requires fits { FitsLocRecord rec.now }
    requires taken { IsSome (loc_folded rec.now store.old.durable) }
    requires up { store.old.closed ≡ false }
    ensures room { IfOk result (λ b. b ≡ loc_has_room store.old.durable rec.now) }
    ensures prepares { Prepares rec.now store.old store.new result }
    ensures disk { SameDiskBy D.Disk store.old.disk store.new.disk }
    ensures counts { SameCountsBy D.Disk store.old.disk store.new.disk }
{
    match store.prepare(rec) {
        Ok(()) => Ok(true),
        Err(StoreFault::Full(..)) => Ok(false),
        Err(StoreFault::OutOfMemory) => Err(AllocError),
        Err(_) => unreachable!(),
    }
}

/// Puts the prepared record on the disk.
fn commit<D: Disk>(store: &mut LocStore<D>) -> Result<(), NodeFault>
    requires prepared { IsSome store.old.prepared }
    requires fits { (r : records.LocRecord) → store.old.prepared ≡ Some r → FitsLocRecord r }
    requires up { store.old.closed ≡ false }
    ensures commits { (r : records.LocRecord) → store.old.prepared ≡ Some r → Commits r store.old store.new result }
    ensures disk { (r : records.LocRecord) → store.old.prepared ≡ Some r → OnDisk D.Disk (Some r) store.old.durable store.old.disk store.new.disk result }
{
    match store.commit() {
        Ok(()) => Ok(()),
        Err(_) => Err(NodeFault::Down),
    }
}

/// What a change comes to: its record, its reply, and what goes out once the record stands on the disk.
#[derive(Drop)]
pub struct Planned {
    pub rec: LocRecord,
    pub reply: SpelledMessage,
    pub outs: Outs,
}

impl<D: Disk> LocDb<D> {
    /// What a change for the call of this header comes to.
    fn plan(&self, head: &Head, change: LocChange) -> Mem<Planned>
        requires serves { IsInBoot self.now }
        requires head { IsSoundHead head.now }
        requires another { same_node head.now.from Loc ≡ false }
        requires told { IsReplyTo head.now.opcode change.reply }
        requires form { HasForm change }
        ensures { IfOk result (λ p. IsChangeOf self.now head.now change p) }
    {
        let LocChange {
            deed,
            next_id,
            next_stamp,
            reply,
        } = change;
        let lines = self.held().lines(self.alloc, &deed)?;
        let reply = SpelledMessage::from_message(
            self.alloc,
            reply_to(self.boot_number(), head, reply),
        )?;
        let parcels = sent(self.alloc, reply.copy(self.alloc)?)?;
        let rec = record_of(self.alloc, head, &reply, deed, next_id, next_stamp)?;
        Ok(Planned {
            rec,
            reply,
            outs: Outs { parcels, lines },
        })
    }

    /// Prepares a record where there is room for it.
    fn prepare(&mut self, rec: &LocRecord) -> Mem<bool>
        requires fits { FitsLocRecord rec.now }
        requires taken { IsSome (loc_folded rec.now self.old.store.durable) }
        requires up { self.old.store.closed ≡ false }
        ensures room { IfOk result (λ b. b ≡ loc_has_room self.old.store.durable rec.now) }
        ensures prepares { Prepares rec.now self.old.store self.new.store result }
        ensures callers { (self.new.boot ≡ self.old.boot) × (self.new.seats ≡ self.old.seats) }
        ensures disk { SameDiskBy D.Disk self.old.store.disk self.new.store.disk }
        ensures counts { SameCountsBy D.Disk self.old.store.disk self.new.store.disk }
    {
        prepare(&mut self.store, rec)
    }

    /// The record of a change, which is prepared, is put on the disk; then its reply is kept, and goes out.
    fn put(&mut self, head: &Head, planned: Planned) -> Result<Outs, NodeFault>
        requires runs { paired head.now.epoch head.now.number (call_seat head.now.from self.old.seats) ≡ runs }
        requires up { self.old.store.closed ≡ false }
        requires prepared { self.old.store.prepared ≡ Some planned.rec }
        requires fits { FitsLocRecord planned.rec }
        ensures puts { Puts head.now planned self.old self.new result }
        ensures disk { OnDisk D.Disk (Some planned.rec) self.old.store.durable self.old.store.disk self.new.store.disk result }
    {
        self.callers.reserve(1)?;
        commit(&mut self.store)?;
        let Planned {
            rec: _,
            reply,
            outs,
        } = planned;
        self.callers.answer(key(head), reply);
        Ok(outs)
    }

    /// The call of this header is refused, since there is no room for its record.
    fn refuse_full(&mut self, head: &Head) -> Result<Outs, NodeFault>
        requires serves { IsInBoot self.old }
        requires head { IsSoundHead head.now }
        requires runs { paired head.now.epoch head.now.number (call_seat head.now.from self.old.seats) ≡ runs }
        ensures answers { Answers head.now (refusal self.old.store.durable.boot head.now (pos 108)) self.old self.new result }
        ensures up { IsErrOf result faults.Down → ⊥ }
    {
        let outs = self.refuse(head, NO_ROOM)?;
        Ok(outs)
    }

    /// What a change comes to is put on the disk where there is room for its record; else its call is refused.
    fn put_or_refuse(
        &mut self,
        head: &Head,
        room: bool,
        planned: Planned,
    ) -> Result<Outs, NodeFault>
        requires serves { IsInBoot self.old }
        requires head { IsSoundHead head.now }
        requires runs { paired head.now.epoch head.now.number (call_seat head.now.from self.old.seats) ≡ runs }
        requires up { self.old.store.closed ≡ false }
        requires prepared { room ≡ true → self.old.store.prepared ≡ Some planned.rec }
        requires fits { FitsLocRecord planned.rec }
        ensures puts { room ≡ true → Puts head.now planned self.old self.new result }
        ensures disk { room ≡ true → OnDisk D.Disk (Some planned.rec) self.old.store.durable self.old.store.disk self.new.store.disk result }
        ensures answers { room ≡ false → Answers head.now (refusal self.old.store.durable.boot head.now (pos 108)) self.old self.new result }
        ensures still { room ≡ false → IsErrOf result faults.Down → ⊥ }
    {
        if room {
            self.put(head, planned)
        } else {
            self.refuse_full(head)
        }
    }

    /// The call of this header makes this change, where there is room for its record; else it is refused. Its reply goes out and
    /// is kept once the record stands on the disk.
    pub(crate) fn save(&mut self, head: &Head, change: LocChange) -> Result<Outs, NodeFault>
        requires serves { IsInBoot self.old }
        requires up { self.old.store.closed ≡ false }
        requires head { IsSoundHead head.now }
        requires another { same_node head.now.from Loc ≡ false }
        requires runs { paired head.now.epoch head.now.number (call_seat head.now.from self.old.seats) ≡ runs }
        requires told { IsReplyTo head.now.opcode change.reply }
        requires form { HasForm change }
        requires made { IsMadeBy change (loc_seen self.old) }
        ensures does { DoesAll (roomed (loc_seen self.old) head.now change) self.old self.new result }
        ensures disk { OnDisk D.Disk (loc_record_decided self.old.store.durable.boot (roomed (loc_seen self.old) head.now change)) self.old.store.durable self.old.store.disk self.new.store.disk result }
    {
        self.is_in_order();
        let planned = self.plan(head, change)?;
        let room = self.prepare(&planned.rec)?;
        self.put_or_refuse(head, room, planned)
    }
}
