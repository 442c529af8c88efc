//! The acts of administrators over their machines: how an act begins, what is asked at a place, and where an answer leads. Each function
//! here only tells which machine it is.

ghost use Rattle.std.specs.Prelude.{◌≡◌, ◌≤◌, ◌&&◌, ℕ, [], IfOk};
ghost use Rattle.spec_model.specs.CellRows.{cell_replies};
ghost use Rattle.afs_num.specs.Names.{volume_name_ok};
ghost use Rattle.afs_num.specs.declared.location_calls.LocCall.TheVariants as loc;
ghost use Rattle.afs_num.specs.declared.location_calls.LocReply.TheVariants as entries;
ghost use Rattle.afs_num.specs.declared.messages.Reply.TheVariants as tell;
ghost use Rattle.spec_shape.specs.Rows.{IsWithin};
ghost use Rattle.spec_adminrows.specs.Acts as rows;
ghost use Rattle.spec_adminrows.specs.Asks.{at_loc, family, force_by, held_at_loc, name_in_act, operation_by};
ghost use Rattle.spec_adminrows.specs.Copying as copies;
ghost use Rattle.spec_adminrows.specs.Entries.{is_usable};
ghost use Rattle.spec_adminrows.specs.declared.places.Dumping.TheVariants as dumping;
ghost use Rattle.spec_adminrows.specs.declared.places.Place.TheVariants as places;
ghost use Rattle.afs_adminparts.specs.Fitting.{FitsDumpIfAny, FitsPlace, FitsTurn, IsShortAdminAct, IsSpelledAsk};

use crate::{moving, releasing, visiting};
use afs_adminparts::asking::{at_loc, family, force_by, held_at_loc, name_in, operation_by};
use afs_adminparts::copies::copy_entry;
use afs_adminparts::entries::is_usable;
use afs_adminparts::surveying;
use afs_adminparts::turning::{NO_DUMP, fails, mend_fails, seek_fails};
use afs_adminvolumes::{copying, creating, recovering, removing};
use afs_num::location_calls::{LocCall, LocEntry, LocReply};
use afs_num::messages::Reply;
use afs_num::names::volume_name_ok;
use afs_num::sequences::Octets;
use afs_num::types::{Code, Mem};
use spec_adminrows::places::{
    Backing, Cause, Creating, Dumping, Fresh, Hold, Place, Purpose, Releasing, Saving, SharedHold,
};
use spec_adminrows::turns::{Ask, Turn};
use spec_history::scripts::AdminAct;
use std::alloc::Global;

// ---- what is asked

/// The entry of the act's name.
fn seek_asks(alloc: Global, act: &AdminAct) -> Mem<Ask>
    ensures { IfOk result (λ a. a ≡ at_loc 0 (loc.GetEntryByName (name_in_act act.now))) }
{
    let name = name_in(act).copy(alloc)?;
    Ok(at_loc(0, LocCall::GetEntryByName { name }))
}

/// The lock of that entry.
fn lock_asks(act: &AdminAct, cause: Cause, volume: u32) -> Ask
    ensures { result ≡ at_loc 0 (loc.SetLock volume (operation_by cause act.now) (force_by cause act.now)) }
{
    let operation = operation_by(cause, act);
    let force = force_by(cause, act);
    at_loc(
        0,
        LocCall::SetLock {
            volume,
            operation,
            force,
        },
    )
}

/// That the lock is released.
fn free_asks(hold: &Hold) -> Ask
    ensures { result ≡ held_at_loc hold.now (loc.ReleaseLock (family hold.now)) }
{
    held_at_loc(
        hold,
        LocCall::ReleaseLock {
            volume: family(hold),
        },
    )
}

/// What this place asks.
fn asked_at(alloc: Global, act: &AdminAct, place: &Place) -> Mem<Ask>
    requires fits { FitsPlace act.now place.now }
    ensures { IfOk result (λ a. (servers : ℕ) → a ≡ rows.asks_at (record { act = act.now; servers = servers }) place.now) }
{
    match place {
        Place::Seeks { cause: _ } => seek_asks(alloc, act),
        Place::Locks { cause, volume } => Ok(lock_asks(act, *cause, *volume)),
        Place::Frees { hold, .. } => Ok(free_asks(hold.get())),
        Place::Creates { fresh, at } => creating::asks(alloc, name_in(act), fresh, *at),
        Place::Adds { hold, server } => copying::add_asks(alloc, hold.get(), *server),
        Place::Backs { hold, at } => copying::backup_asks(alloc, name_in(act), hold.get(), *at),
        Place::Dumps { saving, at } => Ok(copying::dump_asks(saving, *at)),
        Place::Releases { hold, at } => Ok(releasing::asks(hold.get(), *at)),
        Place::Tours { tour, at } => releasing::tour_asks(alloc, name_in(act), tour, *at),
        Place::Visits { tour, site, at } => visiting::asks(alloc, name_in(act), tour, *site, *at),
        Place::Surveys { hold, server, .. } => Ok(surveying::asks(hold.get(), *server)),
        Place::Plans { hold, target: _ } => Ok(moving::plan_asks(hold.get())),
        Place::Moves { trip, at } => moving::asks(alloc, name_in(act), trip, *at),
        Place::Removes { hold, seen: _, at } => Ok(removing::asks(hold.get(), *at)),
        Place::Sweeps { hold, spot, at, .. } => Ok(removing::sweep_asks(hold.get(), *spot, *at)),
        Place::Asks { hold, .. } => Ok(recovering::entry_asks(hold.get())),
        Place::Mends { mend, at } => Ok(recovering::asks(mend, *at)),
    }
}

/// What is asked at this place. It can be spelled.
pub fn asked(alloc: Global, act: &AdminAct, place: &Place) -> Mem<Ask>
    requires short { IsShortAdminAct act.now }
    requires fits { FitsPlace act.now place.now }
    ensures value { IfOk result (λ a. (servers : ℕ) → a ≡ rows.asks_at (record { act = act.now; servers = servers }) place.now) }
    ensures spelled { IfOk result (λ a. IsSpelledAsk a) }
{
    asked_at(alloc, act, place)
}

// ---- an act begins

/// A volume is made from this dump, if there is one.
fn creates_from(server: u32, dump: Option<Octets>) -> Turn
    ensures { result ≡ rows.creates_from server dump }
{
    match dump {
        Some(bytes) => Turn::Goes {
            place: Place::Creates {
                fresh: Fresh {
                    server,
                    quota: 1,
                    dump: Some(bytes),
                },
                at: Creating::Numbers,
            },
        },
        None => Turn::Ends { code: NO_DUMP },
    }
}

/// How an act begins, with the dump that is held under its label.
fn begins(act: &AdminAct, held: Option<Octets>) -> Turn
    ensures { result ≡ rows.begins_with act.now held }
{
    match act {
        AdminAct::Create { server, quota, .. } => Turn::Goes {
            place: Place::Creates {
                fresh: Fresh {
                    server: u32::from(*server),
                    quota: *quota,
                    dump: None,
                },
                at: Creating::Numbers,
            },
        },
        AdminAct::Restore { server, .. } => creates_from(u32::from(*server), held),
        _ => Turn::Goes {
            place: Place::Seeks {
                cause: Cause::Asked,
            },
        },
    }
}

/// How an act begins, with the dump that is held under its label: at a place that fits.
pub fn begun(act: &AdminAct, held: Option<Octets>) -> Turn
    requires short { IsShortAdminAct act.now }
    requires held { FitsDumpIfAny held }
    ensures value { result ≡ rows.begins_with act.now held }
    ensures fits { FitsTurn act.now result }
{
    begins(act, held)
}

// ---- where replies lead

/// A dump begins.
fn dumps(alloc: Global, hold: &SharedHold, label: &Octets, from: u32) -> Mem<Turn>
    ensures { IfOk result (λ t. t ≡ copies.dumps (record { hold = hold.now; label = label.now; from = from; bytes = [] }) dumping.Stamps) }
{
    Ok(Turn::Goes {
        place: Place::Dumps {
            saving: Saving {
                hold: hold.copy()?,
                label: label.copy(alloc)?,
                from,
                bytes: Octets::new(alloc),
            },
            at: Dumping::Stamps,
        },
    })
}

/// The entry is locked for the act, which goes on.
fn goes_on(alloc: Global, act: &AdminAct, servers: u32, hold: &SharedHold) -> Mem<Turn>
    requires servers { servers ≤ 8 }
    ensures { IfOk result (λ t. t ≡ rows.goes_on_locked (record { act = act.now; servers = servers }) hold.now act.now) }
{
    match act {
        AdminAct::Create { .. } | AdminAct::Restore { .. } => Ok(Turn::Passes),
        AdminAct::AddSite { server, .. } => copying::adds(hold, u32::from(*server)),
        AdminAct::Backup { .. } => copying::backs(hold, Backing::Stamps),
        AdminAct::Release { .. } => releasing::releases(hold, Releasing::Stamps),
        AdminAct::Move { server, .. } => {
            moving::moves_to(alloc, servers, hold, u32::from(*server))
        }
        AdminAct::Dump { label, from, .. } => dumps(alloc, hold, label, *from),
        AdminAct::Remove { .. } => {
            surveying::surveys_all(alloc, servers, hold, Purpose::Removes)
        }
        AdminAct::Recover { .. } => surveying::surveys_all(
            alloc,
            servers,
            hold,
            Purpose::Mends {
                cause: Cause::Asked,
            },
        ),
    }
}

/// The entry is locked: for the act, or for the recovery behind a failure.
fn locked(alloc: Global, act: &AdminAct, servers: u32, hold: &SharedHold, cause: Cause) -> Mem<Turn>
    requires servers { servers ≤ 8 }
    ensures { IfOk result (λ t. t ≡ rows.locked (record { act = act.now; servers = servers }) hold.now cause) }
{
    match cause {
        Cause::Asked => goes_on(alloc, act, servers, hold),
        Cause::After { .. } => {
            surveying::surveys_all(alloc, servers, hold, Purpose::Mends { cause })
        }
    }
}

/// The hold of an entry that is locked under this stamp.
fn hold_of(alloc: Global, entry: &LocEntry, stamp: u32) -> Mem<SharedHold>
    ensures { IfOk result (λ h. h ≡ record { entry = entry.now; stamp = stamp }) }
{
    let entry = copy_entry(alloc, entry)?;
    SharedHold::new(alloc, Hold { entry, stamp })
}

/// Where the entry leads that was locked under this stamp.
fn holds(
    alloc: Global,
    act: &AdminAct,
    servers: u32,
    cause: Cause,
    stamp: u32,
    entry: &LocEntry,
) -> Mem<Turn>
    requires servers { servers ≤ 8 }
    ensures { IfOk result (λ t. t ≡ rows.locked (record { act = act.now; servers = servers }) (record { entry = entry.now; stamp = stamp }) cause) }
{
    let hold = hold_of(alloc, entry, stamp)?;
    locked(alloc, act, servers, &hold, cause)
}

/// Whether the act can go on with the entry.
fn can_go_on(act: &AdminAct, entry: &LocEntry) -> bool
    ensures { result ≡ (volume_name_ok (name_in_act act.now) && is_usable entry.now) }
{
    volume_name_ok(name_in(act).as_slice()) && is_usable(entry)
}

/// Where the entry leads that was locked under this stamp, if the act can go on with it.
fn holds_or_passes(
    alloc: Global,
    act: &AdminAct,
    servers: u32,
    cause: Cause,
    stamp: u32,
    entry: &LocEntry,
) -> Mem<Turn>
    requires servers { servers ≤ 8 }
    ensures { IfOk result (λ t. t ≡ rows.lock_answered (record { act = act.now; servers = servers }) cause (tell.Location (entries.SetLock stamp entry.now))) }
{
    if can_go_on(act, entry) {
        holds(alloc, act, servers, cause, stamp, entry)
    } else {
        Ok(Turn::Passes)
    }
}

/// Where the reply to SetLock leads.
fn lock_answered(
    alloc: Global,
    act: &AdminAct,
    servers: u32,
    cause: Cause,
    reply: &Reply,
) -> Mem<Turn>
    requires servers { servers ≤ 8 }
    ensures { IfOk result (λ t. t ≡ rows.lock_answered (record { act = act.now; servers = servers }) cause reply.now) }
{
    match reply {
        Reply::Location(LocReply::SetLock { stamp, entry }) => {
            holds_or_passes(alloc, act, servers, cause, *stamp, entry)
        }
        _ => Ok(Turn::Passes),
    }
}

/// Where the reply to GetEntryByName leads.
fn seek_answered(cause: Cause, reply: &Reply) -> Turn
    ensures { result ≡ rows.seek_answered cause reply.now }
{
    match reply {
        Reply::Location(LocReply::GetEntryByName { entry }) => Turn::Goes {
            place: Place::Locks {
                cause,
                volume: entry.read_write,
            },
        },
        _ => Turn::Passes,
    }
}

/// Where the reply to ReleaseLock leads.
fn free_answered(code: Code, reply: &Reply) -> Turn
    ensures { result ≡ rows.free_answered code reply.now }
{
    match reply {
        Reply::Location(LocReply::ReleaseLock) => Turn::Ends { code },
        _ => Turn::Passes,
    }
}

/// Where a reply leads from this place.
fn leads(alloc: Global, act: &AdminAct, servers: u32, place: &Place, reply: &Reply) -> Mem<Turn>
    requires servers { servers ≤ 8 }
    requires fits { FitsPlace act.now place.now }
    ensures { IfOk result (λ t. t ≡ rows.answered (record { act = act.now; servers = servers }) place.now reply.now) }
{
    match place {
        Place::Seeks { cause } => Ok(seek_answered(*cause, reply)),
        Place::Locks { cause, volume: _ } => lock_answered(alloc, act, servers, *cause, reply),
        Place::Frees { code, .. } => Ok(free_answered(*code, reply)),
        Place::Creates { fresh, at } => creating::answered(alloc, fresh, *at, reply),
        Place::Adds { hold, server: _ } => copying::add_answered(hold, reply),
        Place::Backs { hold, at } => copying::backup_answered(hold, *at, reply),
        Place::Dumps { saving, at } => copying::dump_answered(alloc, saving, *at, reply),
        Place::Releases { hold, at } => releasing::answered(alloc, hold, *at, reply),
        Place::Tours { tour, at } => releasing::tour_answered(alloc, tour, *at, reply),
        Place::Visits { tour, site, at } => visiting::answered(alloc, tour, *site, *at, reply),
        Place::Surveys {
            hold,
            purpose,
            server,
            left,
            seen,
        } => surveying::answered(alloc, hold, *purpose, *server, left, seen, reply),
        Place::Plans { hold, target } => moving::plan_answered(hold, *target, reply),
        Place::Moves { trip, at } => moving::answered(trip, *at, reply),
        Place::Removes { hold, seen, at } => removing::answered(alloc, hold, seen, *at, reply),
        Place::Sweeps {
            hold,
            spot,
            left,
            at,
        } => removing::sweep_answered(alloc, hold, *spot, left, *at, reply),
        Place::Asks { cause, hold, seen } => {
            recovering::entry_answered(alloc, servers, *cause, hold, seen, reply)
        }
        Place::Mends { mend, at } => recovering::answered(alloc, mend, *at, reply),
    }
}

/// Where a reply leads. The place stays as it is, so where memory is wanting nothing has changed: a hold is shared, and lists are copied.
pub fn answered(
    alloc: Global,
    act: &AdminAct,
    servers: u32,
    place: &Place,
    reply: &Reply,
) -> Mem<Turn>
    requires short { IsShortAdminAct act.now }
    requires servers { servers ≤ 8 }
    requires fits { FitsPlace act.now place.now }
    requires within { IsWithin cell_replies reply.now }
    ensures value { IfOk result (λ t. t ≡ rows.answered (record { act = act.now; servers = servers }) place.now reply.now) }
    ensures fits { IfOk result (λ t. FitsTurn act.now t) }
{
    leads(alloc, act, servers, place, reply)
}

// ---- where refusals lead

/// Where a refusal leads from this place.
fn refusal_leads(alloc: Global, place: &Place, code: Code) -> Mem<Turn>
    ensures { IfOk result (λ t. t ≡ rows.refused place.now code) }
{
    match place {
        Place::Seeks { cause } | Place::Locks { cause, volume: _ } => Ok(seek_fails(*cause, code)),
        Place::Frees { first, .. } => Ok(fails(*first, code)),
        Place::Creates { fresh, at } => creating::refused(alloc, fresh, *at, code),
        Place::Tours { tour, at: _ } => Ok(releasing::tour_refused(tour, code)),
        Place::Visits { tour, site, at } => visiting::refused(alloc, tour, *site, *at, code),
        Place::Surveys { purpose, .. } => Ok(surveying::refused(*purpose, code)),
        Place::Asks { cause, .. } => Ok(mend_fails(*cause, code)),
        Place::Mends { mend, at: _ } => Ok(mend_fails(mend.cause, code)),
        _ => Ok(fails(None, code)),
    }
}

/// Where a refusal leads, or a call that was given up.
pub fn refused(alloc: Global, act: &AdminAct, place: &Place, code: Code) -> Mem<Turn>
    requires fits { FitsPlace act.now place.now }
    ensures value { IfOk result (λ t. t ≡ rows.refused place.now code) }
    ensures fits { IfOk result (λ t. FitsTurn act.now t) }
{
    refusal_leads(alloc, place, code)
}
