//! What is decided on a call of the volume server's interface, in the order of refusals: a volume that is there; no such transaction or
//! volume; one that another transaction holds; a dump that is none; no room.

ghost use Rattle.std.specs.Prelude.{◌≡◌, ◌≤◌, ◌<◌, ◌+◌, ◌-◌, ◌++◌, ℕ, Bool, List, [], Option, Some, None, false, true, not, is_some, length, nat_eq, nat_lt, IfOk};
ghost use Rattle.std.specs.List.{AllByRecursion};
ghost use Rattle.std.specs.Option.{option_copied};
ghost use Rattle.afs_num.specs.declared.messages.Call.TheVariants as ask;
ghost use Rattle.afs_num.specs.declared.records.RecordBody.TheVariants as bodies;
ghost use Rattle.afs_num.specs.declared.volume_calls.VolReply.TheVariants as replies;
ghost use Rattle.spec_shape.specs.Rows.{IsWithin};
ghost use Rattle.spec_shape.specs.Tables.{IsCount, IsListedVolume, IsServer};
ghost use Rattle.spec_ideal.specs.Operations.{is_last_count};
ghost use Rattle.spec_model.specs.CellRows.{cell_calls, call_number};
ghost use Rattle.spec_records.specs.Durable.{Durable, Stored};
ghost use Rattle.spec_records.specs.Records.{most_dump};
ghost use Rattle.spec_dumps.specs.Clones.{next_release};
ghost use Rattle.spec_dumps.specs.Restores.{fed, restored_from};
ghost use Rattle.spec_dumps.specs.Streams.{piece_at};
ghost use Rattle.spec_fold.specs.Deeds.{has_volume, has_volume_room};
ghost use Rattle.afs_shelves.specs.Shelving.{stored_as};
ghost use Rattle.afs_volume.specs.declared.volume.Volume as seen;
ghost use Rattle.spec_volrows.specs.VolRow as row;
ghost use Rattle.spec_volrows.specs.VolRow.{begins_new, busy_or_offline, found, most_piece, takes_out};
ghost use Rattle.afs_voldecisions.specs.Verdicts.{after_of, family_in, is_clone, is_outside, judged_in, made_in, named_in, number_in, verdict_of, CanTell, HasForm, IsDecided, IsHeld, IsJudged, IsNamed, IsNamedBy, IsReplyTo, IsShelf, IsVerdict, Judges, Sees};

use crate::transactions::{After, Transaction, Transactions};
use afs_dump::dump;
use afs_dump::pieces::{is_last_piece, piece_of};
use afs_num::records::RecordBody;
use afs_num::sequences::Octets;
use afs_num::types::Mem;
use afs_num::volume_calls::{ListedVolume, ListedVolumes, VolCall, VolReply};
use afs_restore::{DumpFault, Restorer, restore};
use afs_server_parts::pumping::next_number;
use afs_server_parts::words::are_words;
use afs_volume::Volume;
use std::alloc::{AllocError, Global};

/// The stamp is below the stored one.
pub const OLD_STAMP: u32 = 1_492_325_131;

/// The volume that is to be made is there.
const IS_THERE: u32 = 104;

/// No such transaction or volume.
const NO_SUCH: u32 = 1_492_325_135;

/// Another transaction holds the volume.
const IS_HELD: u32 = 1_492_325_133;

/// What is given is no dump or no piece of one, or an offset is none that it may be.
const BAD_DUMP: u32 = 1_492_325_122;

/// No room: for a record, for one more volume, or for a higher count.
pub const NO_MORE: u32 = 108;

/// A record holds no longer dump.
const MOST_DUMP: usize = 33_554_432;

/// The flag of a volume that is out of service.
const OUT_OF_SERVICE: u32 = 2;

/// An accepted call: its reply; what of it is written, if anything; the volume whose promises it withdraws; what it does to the
/// transactions; and the volume that was made to judge it, which its record makes.
pub struct Plan {
    pub reply: VolReply,
    pub body: Option<RecordBody>,
    pub withdraws: Option<u32>,
    pub after: After,
    pub made: Option<Volume>,
}

/// It ends by a drop of its own: what holds a plan has one drop to prove where it ends.
impl Drop for Plan {
    fn drop(self) {
        let Plan {
            reply,
            body,
            withdraws: _,
            after: _,
            made: _,
        } = self;
        drop(reply);
        drop(body);
    }
}

impl Plan {
    /// Its parts. It takes no memory.
    pub fn into_parts(
        self,
    ) -> (
        VolReply,
        Option<RecordBody>,
        Option<u32>,
        After,
        Option<Volume>,
    )
        ensures { result ≡ (self.reply, self.body, self.withdraws, self.after, self.made) }
    {
        let Plan {
            reply,
            body,
            withdraws,
            after,
            made,
        } = self;
        (reply, body, withdraws, after, made)
    }
}

/// A dump that is to be sent: to this server, into a transaction of the family there.
#[derive(Drop)]
pub struct Dispatch {
    pub server: u32,
    pub family: u32,
    pub target: u32,
    pub bytes: Octets,
}

/// A call is refused with a code, whereby bytes that were given may be forgotten; it is accepted; or a dump is sent, and the reply comes
/// when that went.
#[derive(Drop)]
pub enum Verdict {
    Refused(u32, After),
    Accepted(Plan),
    Sends(Dispatch),
}

// ---- verdicts

fn refusing(code: u32) -> Verdict
    ensures verdict { verdict_of result ≡ row.refusing code }
    ensures unmade { made_in result ≡ None }
    ensures told { (opcode : ℕ) → nat_eq code 0 ≡ false → CanTell opcode result }
{
    Verdict::Refused(code, After::Stays)
}

/// The call is refused, and the bytes that were given to the transaction are forgotten.
fn forgetting(alloc: Global, code: u32, number: u32) -> Verdict
    ensures verdict { verdict_of result ≡ row.refused code (row.gives number []) }
    ensures unmade { made_in result ≡ None }
    ensures told { (opcode : ℕ) → nat_eq code 0 ≡ false → CanTell opcode result }
{
    Verdict::Refused(
        code,
        After::Gives {
            number,
            given: Octets::new(alloc),
        },
    )
}

/// Nothing is written.
fn accepts(reply: VolReply, after: After) -> Verdict
    ensures verdict { verdict_of result ≡ row.accepted (record { reply = reply; body = None; withdraws = None; after = after_of after }) }
    ensures unmade { made_in result ≡ None }
    ensures told { (opcode : ℕ) → IsReplyTo opcode reply → CanTell opcode result }
{
    Verdict::Accepted(Plan {
        reply,
        body: None,
        withdraws: None,
        after,
        made: None,
    })
}

/// This is written.
fn writes(reply: VolReply, body: RecordBody, withdraws: Option<u32>, after: After) -> Verdict
    ensures verdict { verdict_of result ≡ row.writes reply body withdraws (after_of after) }
    ensures unmade { made_in result ≡ None }
    ensures told { (opcode : ℕ) → IsReplyTo opcode reply → HasForm (Some body) → CanTell opcode result }
{
    Verdict::Accepted(Plan {
        reply,
        body: Some(body),
        withdraws,
        after,
        made: None,
    })
}

// ---- volumes are made

/// A volume that is made with flags, and under no stamp, is new.
fn begins_new(stamp: u32, flags: u32) -> bool
    ensures { result ≡ begins_new stamp flags }
{
    stamp == 0 && flags != 0
}

/// What a call asks to be made.
#[derive(Clone, Copy)]
pub struct NewVolume<'a> {
    pub family: u32,
    pub id: u32,
    pub name: &'a Octets,
    pub kind: u32,
    pub flags: u32,
    pub quota: u32,
}

/// The record of a volume that is made.
fn creating(alloc: Global, stamp: u32, call: &NewVolume<'_>) -> Mem<RecordBody>
    requires { IsNamed call.now.name.now call.now.kind }
    ensures body { IfOk result (λ b. b ≡ bodies.Create call.now.id call.now.family call.now.name.now call.now.kind call.now.flags call.now.quota (begins_new stamp call.now.flags)) }
    ensures form { IfOk result (λ b. HasForm (Some b)) }
{
    are_words(&[call.id, call.family, call.kind, call.flags, call.quota]);
    Ok(RecordBody::Create {
        id: call.id,
        family: call.family,
        name: call.name.copy(alloc)?,
        kind: call.kind,
        flags: call.flags,
        quota: call.quota,
        is_new: begins_new(stamp, call.flags),
    })
}

/// A transaction of the next number begins on a volume that is made, under this stamp.
fn created(last: u32, stamp: u32, family: u32, id: u32, body: RecordBody) -> Mem<Verdict>
    requires { HasForm (Some body) }
    ensures { IfOk result (IsVerdict 100 (row.writes (replies.CreateVolume (last + 1)) body None (row.begins id family 1 stamp))) }
{
    let transaction = next_number(last)?;
    Ok(writes(
        VolReply::CreateVolume { transaction },
        body,
        None,
        After::Begins {
            volume: id,
            family,
            flags: 1,
            stamp,
        },
    ))
}

/// CreateVolume: the volume is made, unless it is there or no more may be.
fn creates(
    alloc: Global,
    last: u32,
    stamp: u32,
    is_there: bool,
    has_room: bool,
    call: &NewVolume<'_>,
) -> Mem<Verdict>
    requires { IsNamed call.now.name.now call.now.kind }
    ensures { IfOk result (λ x. (d : Durable) → is_there ≡ has_volume call.now.id d → has_room ≡ has_volume_room d →
        IsVerdict 100 (row.creates d last stamp call.now.family call.now.id call.now.name.now call.now.kind call.now.flags call.now.quota) x) }
{
    if is_there {
        return Ok(refusing(IS_THERE));
    }
    if !has_room {
        return Ok(refusing(NO_MORE));
    }
    let body = creating(alloc, stamp, call)?;
    created(last, stamp, call.family, call.id, body)
}

/// Whether a count can't be raised any more.
fn is_last_count(count: u32) -> bool
    ensures { result ≡ is_last_count count }
{
    count >= u32::MAX
}

/// What is written of a clone of the transaction's volume: under this number, name and kind, with the volume's next release.
fn cloning(alloc: Global, volume: &Volume, id: u32, name: &Octets, kind: u32) -> Mem<RecordBody>
    requires named { IsNamed name.now kind }
    requires room { is_last_count volume.now.head.release ≡ false }
    ensures body { IfOk result (λ b. b ≡ bodies.Clone volume.now.head.id id name.now kind (volume.now.head.release + 1)) }
    ensures form { IfOk result (λ b. HasForm (Some b)) }
{
    let head = volume.head();
    let release = head.release + 1;
    are_words(&[head.id, release]);
    Ok(RecordBody::Clone {
        source: head.id,
        id,
        name: name.copy(alloc)?,
        kind,
        release,
    })
}

/// Clone: a clone of the volume is made, unless no more may be or its release can't be raised.
fn clones(
    alloc: Global,
    transaction: &Transaction,
    volume: &Volume,
    has_room: bool,
    id: u32,
    name: &Octets,
    kind: u32,
) -> Mem<Verdict>
    requires { IsNamed name.now kind }
    ensures { IfOk result (λ x. (d : Durable) (is_new : Bool) → has_room ≡ has_volume_room d → transaction.now.volume ≡ volume.now.head.id →
        IsVerdict 105 (row.clones d id name.now kind transaction.now (stored_as is_new volume.now)) x) }
{
    let head = volume.head();
    if !has_room || is_last_count(head.release) {
        return Ok(refusing(NO_MORE));
    }
    let body = cloning(alloc, volume, id, name, kind)?;
    let reply = VolReply::Clone {
        counter: head.counter,
        release: head.release + 1,
    };
    Ok(writes(reply, body, None, After::Stays))
}

/// A clone is made anew of the transaction's volume, unless that volume's release can't be raised.
fn clones_again(alloc: Global, volume: &Volume, id: u32, old: &Volume) -> Mem<Verdict>
    ensures { IfOk result (λ x. (is_new was_new : Bool) → IsVerdict 120 (row.refused_where (is_last_count volume.now.head.release) row.no_room_left (row.writes (replies.ReClone (stored_as is_new volume.now).volume.counter (next_release (stored_as is_new volume.now)))
        (bodies.Clone volume.now.head.id id (stored_as was_new old.now).volume.name (stored_as was_new old.now).volume.kind (next_release (stored_as is_new volume.now))) (Some id) row.stay)) x) }
{
    let head = volume.head();
    if is_last_count(head.release) {
        return Ok(refusing(NO_MORE));
    }
    let own = old.head();
    let body = cloning(alloc, volume, id, &own.name, own.kind)?;
    let reply = VolReply::ReClone {
        counter: head.counter,
        release: head.release + 1,
    };
    Ok(writes(reply, body, Some(id), After::Stays))
}

/// The volume, where it is of this family.
fn of_family(family: u32, volume: Option<&Volume>) -> Option<&Volume>
    ensures { option_copied result ≡ family_in family (option_copied volume.entry) }
{
    match volume {
        Some(volume) if volume.head().family == family => Some(volume),
        _ => None,
    }
}

/// ReClone: a clone is made anew of the transaction's volume, where it is there, is of the family, and no other transaction holds it.
fn reclones(
    alloc: Global,
    ts: &Transactions,
    number: u32,
    transaction: &Transaction,
    volume: &Volume,
    id: u32,
    named: Option<&Volume>,
) -> Mem<Verdict>
    ensures { IfOk result (λ x. (is_new : Bool) (o : Option Stored) → transaction.now.volume ≡ volume.now.head.id → IsShelf id named.entry o →
        IsVerdict 120 (row.clones_anew number ts.now.table id transaction.now (stored_as is_new volume.now) (row.volume_of_family transaction.now.family o)) x) }
{
    let Some(old) = of_family(transaction.family, named) else {
        return Ok(refusing(NO_SUCH));
    };
    if ts.is_held_by_other(number, id) {
        return Ok(refusing(IS_HELD));
    }
    clones_again(alloc, volume, id, old)
}

// ---- dumps

/// Whether these bytes may still become a dump.
fn may_become(alloc: Global, bytes: &[u8]) -> Mem<bool>
    ensures { IfOk result (λ b. b ≡ not (is_some (fed bytes.now))) }
{
    let mut restorer = Restorer::new(alloc);
    match restorer.feed(alloc, bytes) {
        Ok(()) => Ok(true),
        Err(DumpFault::Bad(_)) => Ok(false),
        Err(DumpFault::OutOfMemory) => Err(AllocError),
    }
}

/// What was given before, and then this piece.
fn joined(alloc: Global, given: &Octets, piece: &Octets) -> Mem<Octets>
    ensures { IfOk result (λ o. o ≡ given.now ++ piece.now) }
{
    if given.is_empty() {
        return piece.copy(alloc);
    }
    let mut bytes = Vec::from_slice(alloc, given.as_slice())?;
    bytes.extend_from_slice(piece.as_slice())?;
    Octets::from_vec(bytes)
}

/// Another piece, behind which more follows: what came may still become a dump, or is refused and forgotten.
fn part_given(alloc: Global, number: u32, given: Octets) -> Mem<Verdict>
    ensures { IfOk result (IsVerdict 102 (row.part_given number given (fed given))) }
{
    if !may_become(alloc, given.as_slice())? {
        return Ok(forgetting(alloc, BAD_DUMP, number));
    }
    Ok(accepts(VolReply::Restore, After::Gives { number, given }))
}

/// The dump is restored, and this volume comes of it.
fn restoring(alloc: Global, number: u32, id: u32, dump: Octets, made: Volume) -> Verdict
    ensures verdict { verdict_of result ≡ row.writes replies.Restore (bodies.Restore id dump) (Some id) (row.gives number []) }
    ensures told { length dump ≤ most_dump → CanTell 102 result }
    ensures made { made_in result ≡ Some made }
{
    Verdict::Accepted(Plan {
        reply: VolReply::Restore,
        body: Some(RecordBody::Restore { id, dump }),
        withdraws: Some(id),
        after: After::Gives {
            number,
            given: Octets::new(alloc),
        },
        made: Some(made),
    })
}

/// The last piece, with all bytes that were given: the dump is restored, or it is refused and all of it forgotten.
fn whole_given(alloc: Global, number: u32, given: Octets, volume: &Volume) -> Mem<Verdict>
    requires { length given ≤ most_dump }
    ensures { IfOk result (λ x. (is_new : Bool) → IsJudged 102 volume.now (row.whole_given number volume.now.head.id given (restored_from volume.now.head.id (stored_as is_new volume.now) given)) x) }
{
    match restore(alloc, given.as_slice(), volume) {
        Ok(made) => Ok(restoring(alloc, number, volume.head().id, given, made)),
        Err(DumpFault::Bad(_)) => Ok(forgetting(alloc, BAD_DUMP, number)),
        Err(DumpFault::OutOfMemory) => Err(AllocError),
    }
}

/// Restore: a piece of a dump is given, from this offset on.
fn restores(
    alloc: Global,
    number: u32,
    offset: u32,
    last: u32,
    piece: &Octets,
    transaction: &Transaction,
    volume: &Volume,
) -> Mem<Verdict>
    ensures { IfOk result (λ x. (is_new : Bool) → transaction.now.volume ≡ volume.now.head.id → IsJudged 102 volume.now (row.restores number offset last piece.now transaction.now (stored_as is_new volume.now)) x) }
{
    if offset as usize != transaction.given.len() {
        return Ok(refusing(BAD_DUMP));
    }
    let given = joined(alloc, &transaction.given, piece)?;
    if given.len() > MOST_DUMP {
        return Ok(forgetting(alloc, NO_MORE, number));
    }
    if last == 0 {
        part_given(alloc, number, given)
    } else {
        whole_given(alloc, number, given, volume)
    }
}

/// Forward: what was changed in the volume since its counter stood so is to be sent.
fn forwards(
    alloc: Global,
    family: u32,
    from: u32,
    server: u32,
    target: u32,
    volume: &Volume,
) -> Mem<Verdict>
    requires { IsServer server }
    ensures { IfOk result (Judges 103 volume.now (row.forwards family from server target)) }
{
    Ok(Verdict::Sends(Dispatch {
        server,
        family,
        target,
        bytes: dump(alloc, volume, from)?,
    }))
}

/// A piece of this dump is told.
fn dumps_piece(alloc: Global, offset: u32, whole: &Octets) -> Mem<Verdict>
    ensures { IfOk result (IsVerdict 109 (row.dumps_piece offset whole.now)) }
{
    if offset as usize > whole.len() {
        return Ok(refusing(BAD_DUMP));
    }
    let last = is_last_piece(offset as usize, whole.len());
    let piece = piece_of(alloc, whole, offset as usize)?;
    let reply = VolReply::Dump {
        last: last as u32,
        piece,
    };
    Ok(accepts(reply, After::Stays))
}

/// Dump: what was changed in the volume since its counter stood so is told, from this offset on.
fn dumps(alloc: Global, from: u32, offset: u32, volume: &Volume) -> Mem<Verdict>
    ensures { IfOk result (Judges 109 volume.now (row.dumps from offset)) }
{
    let whole = dump(alloc, volume, from)?;
    dumps_piece(alloc, offset, &whole)
}

// ---- flags, and what is told of a volume

/// Promises are withdrawn by each word with the flag of out of service, and by each that takes the flags from 0.
fn takes_out(before: u32, flags: u32) -> bool
    ensures { result ≡ takes_out before flags }
{
    flags & OUT_OF_SERVICE != 0 || (before == 0 && flags != 0)
}

/// SetFlags.
fn sets_flags(flags: u32, volume: &Volume) -> Verdict
    ensures { Judges 106 volume.now (row.sets_flags flags) result }
{
    let head = volume.head();
    let withdraws = if takes_out(head.flags, flags) {
        Some(head.id)
    } else {
        None
    };
    writes(
        VolReply::SetFlags,
        RecordBody::Flags { id: head.id, flags },
        withdraws,
        After::Stays,
    )
}

/// GetStatus.
fn status_of(volume: &Volume) -> Verdict
    ensures { Judges 113 volume.now row.tells_status result }
{
    let head = volume.head();
    let reply = VolReply::GetStatus {
        volume: head.id,
        kind: head.kind,
        flags: head.flags,
        quota: head.quota,
        used: volume.blocks(),
        counter: head.counter,
        release: head.release,
    };
    accepts(reply, After::Stays)
}

/// DeleteVolume: the transaction ends with its volume.
fn deletes(number: u32, volume: &Volume) -> Verdict
    ensures { IsVerdict 101 (row.writes replies.DeleteVolume (bodies.Delete volume.now.head.id) (Some volume.now.head.id) (row.ends number)) result }
{
    let id = volume.head().id;
    writes(
        VolReply::DeleteVolume,
        RecordBody::Delete { id },
        Some(id),
        After::Ends { number },
    )
}

/// SetForwarding.
fn sets_forwarding(server: u32, volume: &Volume) -> Verdict
    requires { IsServer server }
    ensures { IsVerdict 111 (row.writes replies.SetForwarding (bodies.Forward volume.now.head.id server) None row.stay) result }
{
    let id = volume.head().id;
    writes(
        VolReply::SetForwarding,
        RecordBody::Forward { id, server },
        None,
        After::Stays,
    )
}

/// Busy by the word 2, offline by every other.
fn busy_or_offline(flags: u32) -> u32
    ensures { result ≡ busy_or_offline flags }
{
    if flags == 2 { 2 } else { 1 }
}

/// A transaction begins on the volume, where none holds it.
fn begins_unless_held(
    ts: &Transactions,
    stamp: u32,
    family: u32,
    id: u32,
    flags: u32,
) -> Mem<Verdict>
    ensures { IfOk result (λ x. (s : Stored) → IsVerdict 108 (row.begins_on ts.now.table ts.now.last stamp family id flags (Some s)) x) }
{
    if ts.is_held_by_other(0, id) {
        return Ok(refusing(IS_HELD));
    }
    let transaction = next_number(ts.last())?;
    let after = After::Begins {
        volume: id,
        family,
        flags: busy_or_offline(flags),
        stamp,
    };
    Ok(accepts(VolReply::TransCreate { transaction }, after))
}

/// TransCreate: a transaction begins on the volume, where it is of the family and none holds it.
fn begins_on(
    ts: &Transactions,
    stamp: u32,
    family: u32,
    id: u32,
    flags: u32,
    named: Option<&Volume>,
) -> Mem<Verdict>
    ensures { IfOk result (λ x. (o : Option Stored) → IsShelf id named.entry o → IsVerdict 108 (row.begins_on ts.now.table ts.now.last stamp family id flags (row.volume_of_family family o)) x) }
{
    match of_family(family, named) {
        Some(_) => begins_unless_held(ts, stamp, family, id, flags),
        None => Ok(refusing(NO_SUCH)),
    }
}

/// ListVols: these are the volumes of the family.
fn lists(listed: ListedVolumes) -> Verdict
    requires { IsCount 64 (length listed) × AllByRecursion IsListedVolume listed }
    ensures { IsVerdict 116 (row.tells (replies.ListVols listed)) result }
{
    accepts(VolReply::ListVols { volumes: listed }, After::Stays)
}

// ---- all calls

/// What is decided on a call in a transaction that holds this volume.
fn judged_in(
    alloc: Global,
    ts: &Transactions,
    call: &VolCall,
    transaction: &Transaction,
    volume: &Volume,
    named: Option<&Volume>,
    has_room: bool,
) -> Mem<Verdict>
    requires within { IsWithin cell_calls (ask.Volume call.now) }
    requires family { transaction.now.family ≡ row.family_of call.now }
    requires inside { is_outside call.now ≡ false }
    ensures { IfOk result (λ x. (d : Durable) (is_new : Bool) → has_room ≡ has_volume_room d → transaction.now.volume ≡ volume.now.head.id → IsNamedBy d call.now named.entry →
        IsJudged (call_number (ask.Volume call.now)) volume.now (judged_in d ts.now.table call.now transaction.now (stored_as is_new volume.now)) x) }
{
    match call {
        VolCall::DeleteVolume {
            transaction: number,
            ..
        } => Ok(deletes(*number, volume)),
        VolCall::Restore {
            transaction: number,
            offset,
            last,
            piece,
            ..
        } => restores(alloc, *number, *offset, *last, piece, transaction, volume),
        VolCall::Forward {
            family,
            from,
            server,
            its_transaction,
            ..
        } => forwards(alloc, *family, *from, *server, *its_transaction, volume),
        VolCall::EndTrans {
            transaction: number,
            ..
        } => Ok(accepts(VolReply::EndTrans, After::Ends { number: *number })),
        VolCall::Clone {
            volume: id,
            name,
            kind,
            ..
        } => clones(alloc, transaction, volume, has_room, *id, name, *kind),
        VolCall::SetFlags { flags, .. } => Ok(sets_flags(*flags, volume)),
        VolCall::GetFlags { .. } => Ok(accepts(
            VolReply::GetFlags {
                flags: volume.head().flags,
            },
            After::Stays,
        )),
        VolCall::Dump { from, offset, .. } => dumps(alloc, *from, *offset, volume),
        VolCall::SetForwarding { server, .. } => Ok(sets_forwarding(*server, volume)),
        VolCall::GetStatus { .. } => Ok(status_of(volume)),
        VolCall::ReClone {
            transaction: number,
            volume: id,
            ..
        } => reclones(alloc, ts, *number, transaction, volume, *id, named),
        _ => unreachable!(),
    }
}

/// The family of a call.
pub fn family_of(call: &VolCall) -> u32
    ensures { result ≡ row.family_of call.now }
{
    match call {
        VolCall::CreateVolume { family, .. } => *family,
        VolCall::DeleteVolume { family, .. } => *family,
        VolCall::Restore { family, .. } => *family,
        VolCall::Forward { family, .. } => *family,
        VolCall::EndTrans { family, .. } => *family,
        VolCall::Clone { family, .. } => *family,
        VolCall::SetFlags { family, .. } => *family,
        VolCall::GetFlags { family, .. } => *family,
        VolCall::TransCreate { family, .. } => *family,
        VolCall::Dump { family, .. } => *family,
        VolCall::SetForwarding { family, .. } => *family,
        VolCall::GetStatus { family, .. } => *family,
        VolCall::ListVols { family } => *family,
        VolCall::ReClone { family, .. } => *family,
    }
}

/// The transaction of a call; 0, which is none, where it has none.
pub fn number_in(call: &VolCall) -> u32
    ensures { result ≡ number_in call.now }
{
    match call {
        VolCall::DeleteVolume { transaction, .. } => *transaction,
        VolCall::Restore { transaction, .. } => *transaction,
        VolCall::Forward { transaction, .. } => *transaction,
        VolCall::EndTrans { transaction, .. } => *transaction,
        VolCall::Clone { transaction, .. } => *transaction,
        VolCall::SetFlags { transaction, .. } => *transaction,
        VolCall::GetFlags { transaction, .. } => *transaction,
        VolCall::Dump { transaction, .. } => *transaction,
        VolCall::SetForwarding { transaction, .. } => *transaction,
        VolCall::GetStatus { transaction, .. } => *transaction,
        VolCall::ReClone { transaction, .. } => *transaction,
        VolCall::CreateVolume { .. } | VolCall::TransCreate { .. } | VolCall::ListVols { .. } => 0,
    }
}

/// The volume that a call names besides that of its transaction.
pub fn named_in(call: &VolCall) -> Option<u32>
    ensures { result ≡ named_in call.now }
{
    match call {
        VolCall::CreateVolume { volume, .. } => Some(*volume),
        VolCall::Clone { volume, .. } => Some(*volume),
        VolCall::TransCreate { volume, .. } => Some(*volume),
        VolCall::ReClone { volume, .. } => Some(*volume),
        _ => None,
    }
}

/// What is decided on a call in this transaction, whose volume has to be there.
fn in_its_volume(
    alloc: Global,
    ts: &Transactions,
    call: &VolCall,
    transaction: &Transaction,
    named: Option<&Volume>,
    held: Option<&Volume>,
    has_room: bool,
) -> Mem<Verdict>
    requires within { IsWithin cell_calls (ask.Volume call.now) }
    requires family { transaction.now.family ≡ row.family_of call.now }
    requires inside { is_outside call.now ≡ false }
    ensures { IfOk result (λ x. (d : Durable) (o : Option Stored) → has_room ≡ has_volume_room d → IsNamedBy d call.now named.entry → IsShelf transaction.now.volume held.entry o →
        IsDecided (call_number (ask.Volume call.now)) held.entry (row.in_its_volume transaction.now (judged_in d ts.now.table call.now) o) x) }
{
    match held {
        Some(volume) => judged_in(alloc, ts, call, transaction, volume, named, has_room),
        None => Ok(refusing(NO_SUCH)),
    }
}

/// What is decided on a call in a transaction, which has to be there, and its volume too.
fn in_transaction(
    alloc: Global,
    ts: &Transactions,
    call: &VolCall,
    named: Option<&Volume>,
    held: Option<&Volume>,
    has_room: bool,
) -> Mem<Verdict>
    requires within { IsWithin cell_calls (ask.Volume call.now) }
    requires inside { is_outside call.now ≡ false }
    ensures { IfOk result (λ x. (d : Durable) → has_room ≡ has_volume_room d → IsNamedBy d call.now named.entry → IsHeld d ts.now.table call.now held.entry →
        IsDecided (call_number (ask.Volume call.now)) held.entry (row.in_transaction d (found (row.family_of call.now) (number_in call.now) ts.now.table) (judged_in d ts.now.table call.now)) x) }
{
    match ts.found(family_of(call), number_in(call)) {
        Some(transaction) => in_its_volume(alloc, ts, call, transaction, named, held, has_room),
        None => Ok(refusing(NO_SUCH)),
    }
}

/// Clone: the volume that is to be made may not be there.
fn clones_new(
    alloc: Global,
    ts: &Transactions,
    call: &VolCall,
    named: Option<&Volume>,
    held: Option<&Volume>,
    has_room: bool,
) -> Mem<Verdict>
    requires within { IsWithin cell_calls (ask.Volume call.now) }
    requires clone { is_clone call.now ≡ true }
    ensures { IfOk result (λ x. (d : Durable) (last stamp : ℕ) → has_room ≡ has_volume_room d → IsNamedBy d call.now named.entry → IsHeld d ts.now.table call.now held.entry →
        IsDecided (call_number (ask.Volume call.now)) held.entry (row.verdict d ts.now.table last stamp call.now) x) }
{
    match named {
        Some(_) => Ok(refusing(IS_THERE)),
        None => in_transaction(alloc, ts, call, named, held, has_room),
    }
}

/// What is decided on a call under this stamp, which isn't below the stored one. These transactions are live, and this was looked up for
/// it: the volume that it names, that of its transaction, whether there is room for one more, and the volumes of the family where it
/// asks for them.
pub fn judged(
    alloc: Global,
    ts: &Transactions,
    stamp: u32,
    call: &VolCall,
    named: Option<&Volume>,
    held: Option<&Volume>,
    has_room: bool,
    listed: ListedVolumes,
) -> Mem<Verdict>
    requires within { IsWithin cell_calls (ask.Volume call.now) }
    requires listed { IsCount 64 (length listed) × AllByRecursion IsListedVolume listed }
    ensures { IfOk result (λ x. (d : Durable) → Sees d ts.now.table call.now named.entry held.entry has_room listed →
        IsDecided (call_number (ask.Volume call.now)) held.entry (row.verdict d ts.now.table ts.now.last stamp call.now) x) }
{
    match call {
        VolCall::CreateVolume {
            family,
            volume,
            name,
            kind,
            flags,
            quota,
        } => {
            let new = NewVolume {
                family: *family,
                id: *volume,
                name,
                kind: *kind,
                flags: *flags,
                quota: *quota,
            };
            creates(alloc, ts.last(), stamp, named.is_some(), has_room, &new)
        }
        VolCall::TransCreate {
            family,
            volume,
            flags,
        } => begins_on(ts, stamp, *family, *volume, *flags, named),
        VolCall::ListVols { .. } => Ok(lists(listed)),
        VolCall::Clone { .. } => clones_new(alloc, ts, call, named, held, has_room),
        _ => in_transaction(alloc, ts, call, named, held, has_room),
    }
}
