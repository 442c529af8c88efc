//! What each call does with the entries, and which are refused.

ghost use Rattle.std.specs.Prelude.{◌≡◌, ◌<◌, ◌^◌, ℕ, Some, false, nat_eq, IfErr, IfOk, IfSome};
ghost use Rattle.std.specs.Option.{option_copied};
ghost use Rattle.afs_num.specs.declared.location_calls.LocCall.TheVariants as calls;
ghost use Rattle.afs_num.specs.declared.messages.Call.TheVariants as ask;
ghost use Rattle.spec_model.specs.CellRows.{cell_calls, call_number};
ghost use Rattle.spec_model.specs.Heads.{is_zero};
ghost use Rattle.spec_records.specs.LocRecords.{entry_form, listed_form, lock_form};
ghost use Rattle.spec_rows.specs.LocRow as rows;
ghost use Rattle.spec_rows.specs.LocRow.{changes, draws, entry_fits, found_id, holds, is_barred, is_operation, loc_op, locks, sets_to};
ghost use Rattle.spec_shape.specs.Rows.{IsWithin};
ghost use Rattle.afs_locstore.specs.Listings.{entry_of};
ghost use Rattle.afs_locdb.specs.Deciding.{fits_or, lasting_seen, outcome_of, CanAnswer, HasForm, HoldsAs, IsReplyTo};

use crate::changes::LocChange;
use crate::forms::has_form;
use afs_locrecord::copying::{copy_entry, copy_held};
use afs_locrecord::types::{Deed, Doing, Listed, Lock};
use afs_locstore::memory::State;
use afs_num::location_calls::{LocCall, LocEntry, LocReply};
use afs_num::names::volume_name_ok;
use afs_num::sequences::Octets;
use afs_num::types::Mem;
use afs_server_parts::words::are_words;
use std::alloc::{AllocError, Global};

/// No entry has that number, name or index.
const UNLISTED: i32 = 363_524;

/// Another holds the lock, or nobody does.
const LOCKED: i32 = 363_541;

/// No such operation.
const NO_SUCH_OPERATION: i32 = 363_542;

/// A volume can't have that name.
const BAD_NAME: i32 = 363_527;

/// Another entry has one of the numbers.
const TAKEN_ID: i32 = 363_520;

/// Another entry has the name.
const TAKEN_NAME: i32 = 363_522;

/// There are too many sites.
const TOO_MANY_SITES: i32 = 363_532;

/// A counter stands at its last value, or the record doesn't fit.
pub const NO_ROOM: i32 = 108;

/// An entry that is listed has at most so many sites.
const MOST_SITES: usize = 8;

/// What a lock is for: a move, a recovery, or that an entry is made; a release, or a new site; a backup or a dump; a removal.
const OPERATIONS: [u32; 4] = [16, 32, 64, 128];

/// A new entry is locked for this.
const MADE_FOR: u32 = 16;

/// What comes of a call.
#[derive(Drop)]
pub enum Outcome {
    Refused(i32),
    Reads(LocReply),
    Changes(LocChange),
}

/// Whether the lock is there, and is held under this stamp.
fn holds(stamp: u32, lock: &Option<Lock>) -> bool
    ensures { result ≡ holds stamp lock.now }
{
    match lock {
        Some(lock) => lock.stamp == stamp,
        None => false,
    }
}

/// Whether a lock stands in the way of who doesn't take it by force.
fn is_barred(lock: &Option<Lock>, force: u32) -> bool
    ensures { result ≡ is_barred lock.now force }
{
    lock.is_some() && force == 0
}

fn is_operation(operation: u32) -> bool
    ensures { result ≡ is_operation operation }
{
    OPERATIONS.iter().any(|one| operation == *one)
}

/// Why a new entry can't come, in the place of an old one or of none; `None` where it can.
fn unfit(state: &State, old: Option<&Listed>, new: &LocEntry) -> Option<i32>
    ensures value { (more : rows.LocResult) → entry_fits (entry_of (option_copied old.entry)) new.now state.now.entries.table more ≡ fits_or more result }
    ensures code { IfSome result (λ code. is_zero code ≡ false) }
{
    if !volume_name_ok(new.name.as_slice()) {
        return Some(BAD_NAME);
    }
    if state.entries.shares_number(old, new) {
        return Some(TAKEN_ID);
    }
    if state.entries.shares_name(old, new) {
        return Some(TAKEN_NAME);
    }
    if new.sites.len() > MOST_SITES {
        return Some(TOO_MANY_SITES);
    }
    None
}

/// The entry is set, with this lock; no number is drawn.
fn sets_to(state: &State, entry: LocEntry, lock: Option<Lock>, reply: LocReply) -> LocChange
    requires { listed_form.Fits (record { entry = entry; lock = lock }) }
    ensures value { changes result ≡ sets_to (lasting_seen state.now) entry lock reply }
    ensures form { HasForm result }
    ensures reply { result.reply ≡ reply }
{
    are_words(&[state.next_id, state.next_stamp]);
    LocChange {
        deed: Deed {
            doing: Doing::Sets(Listed { entry, lock }),
        },
        next_id: state.next_id,
        next_stamp: state.next_stamp,
        reply,
    }
}

/// The entry is locked under the next stamp, unless that is the last.
fn locks(state: &State, entry: LocEntry, operation: u32, forced: bool, reply: LocReply) -> Outcome
    requires formed { entry_form.Fits entry }
    requires operation { nat_eq operation 0 ≡ false }
    ensures value { outcome_of result ≡ locks (lasting_seen state.now) entry operation forced reply }
    ensures told { (opcode : ℕ) → IsReplyTo opcode reply → CanAnswer opcode result }
{
    let stamp = state.next_stamp;
    if stamp == u32::MAX {
        return Outcome::Refused(NO_ROOM);
    }
    let lock = Lock {
        operation,
        stamp,
        forced,
    };
    let change = sets_to(state, entry, Some(lock), reply);
    Outcome::Changes(LocChange {
        next_stamp: stamp + 1,
        ..change
    })
}

/// CreateEntry: a new entry, which is locked.
fn create(alloc: Global, state: &State, entry: &LocEntry) -> Mem<Outcome>
    requires { entry_form.Fits entry.now }
    ensures value { IfOk result (λ o. outcome_of o ≡ loc_op 0 (calls.CreateEntry entry.now) (lasting_seen state.now)) }
    ensures told { IfOk result (λ o. CanAnswer 501 o) }
{
    if let Some(code) = unfit(state, None, entry) {
        return Ok(Outcome::Refused(code));
    }
    let reply = LocReply::CreateEntry {
        stamp: state.next_stamp,
    };
    Ok(locks(state, copy_entry(alloc, entry)?, MADE_FOR, false, reply))
}

/// The entry that has this number, where who calls with this stamp holds its lock; else the code.
fn held(state: &State, stamp: u32, id: u32) -> Result<&Listed, i32>
    ensures value { HoldsAs stamp (found_id id state.now.entries.table) result }
    ensures fits { IfOk result (λ l. listed_form.Fits l.now) }
    ensures code { IfErr result (λ code. is_zero code ≡ false) }
{
    let Some(listed) = state.entries.find(id) else {
        return Err(UNLISTED);
    };
    if holds(stamp, &listed.lock) {
        Ok(listed)
    } else {
        Err(LOCKED)
    }
}

/// DeleteEntry: the entry goes, and its lock with it.
fn delete(alloc: Global, state: &State, stamp: u32, id: u32) -> Mem<Outcome>
    ensures value { IfOk result (λ o. outcome_of o ≡ loc_op stamp (calls.DeleteEntry id) (lasting_seen state.now)) }
    ensures told { IfOk result (λ o. CanAnswer 502 o) }
{
    are_words(&[state.next_id, state.next_stamp]);
    match held(state, stamp, id) {
        Ok(listed) => Ok(Outcome::Changes(LocChange {
            deed: Deed {
                doing: Doing::Removes(copy_entry(alloc, &listed.entry)?),
            },
            next_id: state.next_id,
            next_stamp: state.next_stamp,
            reply: LocReply::DeleteEntry,
        })),
        Err(code) => Ok(Outcome::Refused(code)),
    }
}

/// ReplaceEntry: a new entry comes in the place of one, and has its lock.
fn replace(alloc: Global, state: &State, stamp: u32, id: u32, entry: &LocEntry) -> Mem<Outcome>
    requires { entry_form.Fits entry.now }
    ensures value { IfOk result (λ o. outcome_of o ≡ loc_op stamp (calls.ReplaceEntry id entry.now) (lasting_seen state.now)) }
    ensures told { IfOk result (λ o. CanAnswer 506 o) }
{
    let listed = match held(state, stamp, id) {
        Ok(listed) => listed,
        Err(code) => return Ok(Outcome::Refused(code)),
    };
    if let Some(code) = unfit(state, Some(listed), entry) {
        return Ok(Outcome::Refused(code));
    }
    let lock = copy_held(&listed.lock);
    let entry = copy_entry(alloc, entry)?;
    Ok(Outcome::Changes(sets_to(state, entry, lock, LocReply::ReplaceEntry)))
}

/// SetLock: the entry is locked under a new stamp; with force, whoever holds it.
fn lock(alloc: Global, state: &State, id: u32, operation: u32, force: u32) -> Mem<Outcome>
    ensures value { IfOk result (λ o. outcome_of o ≡ loc_op 0 (calls.SetLock id operation force) (lasting_seen state.now)) }
    ensures told { IfOk result (λ o. CanAnswer 508 o) }
{
    let Some(listed) = state.entries.find(id) else {
        return Ok(Outcome::Refused(UNLISTED));
    };
    if is_barred(&listed.lock, force) {
        return Ok(Outcome::Refused(LOCKED));
    }
    if !is_operation(operation) {
        return Ok(Outcome::Refused(NO_SUCH_OPERATION));
    }
    let reply = LocReply::SetLock {
        stamp: state.next_stamp,
        entry: copy_entry(alloc, &listed.entry)?,
    };
    let entry = copy_entry(alloc, &listed.entry)?;
    Ok(locks(state, entry, operation, force != 0, reply))
}

/// ReleaseLock: the entry has no lock any more.
fn release(alloc: Global, state: &State, stamp: u32, id: u32) -> Mem<Outcome>
    ensures value { IfOk result (λ o. outcome_of o ≡ loc_op stamp (calls.ReleaseLock id) (lasting_seen state.now)) }
    ensures told { IfOk result (λ o. CanAnswer 509 o) }
{
    match held(state, stamp, id) {
        Ok(listed) => {
            let entry = copy_entry(alloc, &listed.entry)?;
            Ok(Outcome::Changes(sets_to(state, entry, None, LocReply::ReleaseLock)))
        }
        Err(code) => Ok(Outcome::Refused(code)),
    }
}

/// GetNewVolumeId: a volume number is drawn, unless it is the last.
fn draw(state: &State) -> Outcome
    ensures value { outcome_of result ≡ draws (lasting_seen state.now) }
    ensures told { CanAnswer 505 result }
{
    are_words(&[state.next_id, state.next_stamp]);
    let volume = state.next_id;
    if volume == u32::MAX {
        return Outcome::Refused(NO_ROOM);
    }
    Outcome::Changes(LocChange {
        deed: Deed {
            doing: Doing::Leaves,
        },
        next_id: volume + 1,
        next_stamp: state.next_stamp,
        reply: LocReply::GetNewVolumeId { volume },
    })
}

/// GetEntryByID.
fn get_by_id(alloc: Global, state: &State, id: u32) -> Mem<Outcome>
    ensures value { IfOk result (λ o. outcome_of o ≡ loc_op 0 (calls.GetEntryById id) (lasting_seen state.now)) }
    ensures told { IfOk result (λ o. CanAnswer 503 o) }
{
    match state.entries.find(id) {
        Some(listed) => Ok(Outcome::Reads(LocReply::GetEntryById {
            entry: copy_entry(alloc, &listed.entry)?,
        })),
        None => Ok(Outcome::Refused(UNLISTED)),
    }
}

/// GetEntryByName.
fn get_by_name(alloc: Global, state: &State, name: &Octets) -> Mem<Outcome>
    ensures value { IfOk result (λ o. outcome_of o ≡ loc_op 0 (calls.GetEntryByName name.now) (lasting_seen state.now)) }
    ensures told { IfOk result (λ o. CanAnswer 504 o) }
{
    match state.entries.named(name) {
        Some(listed) => Ok(Outcome::Reads(LocReply::GetEntryByName {
            entry: copy_entry(alloc, &listed.entry)?,
        })),
        None => Ok(Outcome::Refused(UNLISTED)),
    }
}

/// ListEntry.
fn list(alloc: Global, state: &State, index: u32) -> Mem<Outcome>
    ensures value { IfOk result (λ o. outcome_of o ≡ loc_op 0 (calls.ListEntry index) (lasting_seen state.now)) }
    ensures told { IfOk result (λ o. CanAnswer 510 o) }
{
    let Some(listed) = state.entries.at(index) else {
        return Ok(Outcome::Refused(UNLISTED));
    };
    // No memory holds so many entries that the next index is no word.
    let Some(next_index) = index.checked_add(1) else {
        return Err(AllocError);
    };
    Ok(Outcome::Reads(LocReply::ListEntry {
        next_index,
        entry: copy_entry(alloc, &listed.entry)?,
    }))
}

/// What a call does, by the stamp in its header.
pub fn run(alloc: Global, state: &State, stamp: u32, call: &LocCall) -> Mem<Outcome>
    requires { IsWithin cell_calls (ask.Location call.now) }
    ensures value { IfOk result (λ o. outcome_of o ≡ loc_op stamp call.now (lasting_seen state.now)) }
    ensures told { IfOk result (λ o. CanAnswer (call_number (ask.Location call.now)) o) }
{
    match call {
        LocCall::CreateEntry { entry } => {
            has_form(entry);
            create(alloc, state, entry)
        }
        LocCall::DeleteEntry { volume } => delete(alloc, state, stamp, *volume),
        LocCall::GetEntryById { volume } => get_by_id(alloc, state, *volume),
        LocCall::GetEntryByName { name } => get_by_name(alloc, state, name),
        LocCall::GetNewVolumeId => Ok(draw(state)),
        LocCall::ReplaceEntry { volume, entry } => {
            has_form(entry);
            replace(alloc, state, stamp, *volume, entry)
        }
        LocCall::SetLock {
            volume,
            operation,
            force,
        } => lock(alloc, state, *volume, *operation, *force),
        LocCall::ReleaseLock { volume } => release(alloc, state, stamp, *volume),
        LocCall::ListEntry { index } => list(alloc, state, *index),
    }
}
