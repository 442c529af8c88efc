//! A recovery, behind the survey: what an act left that fell or failed is put in order. It is settled once what is to be done, by what the
//! servers listed and by the entry as the database has it then. The reference has no command for it; `vos syncvldb`, `vos syncserv`, `vos
//! unlock` and `vos zap` do its parts.

ghost use Rattle.std.specs.Prelude.{◌≡◌, ◌≤◌, IfOk, filter, map};
ghost use Rattle.std.specs.List.{list_any};
ghost use Rattle.spec_history.specs.declared.scripts.AdminAct.{AdminAct as Act};
ghost use Rattle.afs_num.specs.declared.location_calls.LocReply.TheVariants as entries;
ghost use Rattle.afs_num.specs.declared.messages.Reply.TheVariants as tell;
ghost use Rattle.spec_adminrows.specs.Recovering as recovering;
ghost use Rattle.spec_adminrows.specs.Removing.{spot_of};
ghost use Rattle.afs_adminparts.specs.Errands.{in_cell};
ghost use Rattle.afs_adminparts.specs.Fitting.{FitsMend, FitsMending};

use crate::removing::spot_of;
use afs_adminparts::asking::{OFFLINE, at_loc, at_server, family, held_at_loc};
use afs_adminparts::copies::{copied, copy_mend};
use afs_adminparts::entries::{has_read_only_at, home_in, is_usable};
use afs_adminparts::surveying::all_servers;
use afs_adminparts::turning::{FINE, NOT_THERE, mend_fails};
use afs_num::location_calls::{LocCall, LocEntry, LocReply};
use afs_num::messages::Reply;
use afs_num::sequences::Sequence;
use afs_num::types::Mem;
use afs_num::volume_calls::{VolCall, VolReply};
use spec_adminrows::places::{
    AllSeen, Cause, Hold, Mend, Mending, Place, Seen, Servers, SharedHold, Spot, Spots,
};
use spec_adminrows::turns::{Ask, Turn};
use std::alloc::Global;

// ---- what is asked

/// GetEntryByID: which server does the database name now?
pub fn entry_asks(hold: &Hold) -> Ask
    ensures { result ≡ recovering.entry_asks hold.now }
{
    held_at_loc(
        hold,
        LocCall::GetEntryById {
            volume: family(hold),
        },
    )
}

/// What is asked where a volume is put in order.
pub fn asks(mend: &Mend, at: Mending) -> Ask
    requires mend { FitsMend mend.now }
    requires step { FitsMending at }
    ensures { result ≡ recovering.mend_asks mend.now at }
{
    let Mend {
        stamp,
        volume,
        named,
        ..
    } = *mend;
    let family = volume;
    match at {
        Mending::Takes { server } => at_server(
            stamp,
            server,
            VolCall::TransCreate {
                family,
                volume,
                flags: OFFLINE,
            },
        ),
        Mending::Points {
            server,
            transaction,
        } => at_server(
            stamp,
            server,
            VolCall::SetForwarding {
                family,
                transaction,
                server: named,
            },
        ),
        Mending::Deletes {
            server,
            transaction,
        } => at_server(
            stamp,
            server,
            VolCall::DeleteVolume {
                family,
                transaction,
            },
        ),
        Mending::Drops { spot } => at_server(
            stamp,
            spot.server,
            VolCall::TransCreate {
                family,
                volume: spot.volume,
                flags: OFFLINE,
            },
        ),
        Mending::Dropped { spot, transaction } => at_server(
            stamp,
            spot.server,
            VolCall::DeleteVolume {
                family,
                transaction,
            },
        ),
        Mending::Begins => at_server(
            stamp,
            named,
            VolCall::TransCreate {
                family,
                volume,
                flags: OFFLINE,
            },
        ),
        Mending::Opens { transaction } => at_server(
            stamp,
            named,
            VolCall::SetFlags {
                family,
                transaction,
                flags: 0,
            },
        ),
        Mending::Ends { transaction } => at_server(
            stamp,
            named,
            VolCall::EndTrans {
                family,
                transaction,
            },
        ),
        Mending::Frees => at_loc(stamp, LocCall::ReleaseLock { volume }),
    }
}

// ---- what is to be done

/// Whether this volume was seen at this server.
fn is_at(server: u32, volume: u32, seen: &Seen) -> bool
    ensures { result ≡ recovering.is_listed_at server volume seen.now }
{
    seen.server == server && seen.volume.volume == volume
}

/// Whether this volume was seen there by a list.
fn is_among(server: u32, volume: u32, seen: &[Seen]) -> bool
    ensures { result ≡ list_any (recovering.is_listed_at server volume) seen.now }
{
    seen.iter().any(|one| is_at(server, volume, one))
}

/// Whether a copy of the volume was seen at this server, which isn't the one that the entry names.
fn has_copy(volume: u32, named: u32, seen: &[Seen], server: u32) -> bool
    ensures { result ≡ recovering.has_copy volume named seen.now server }
{
    server != named && is_among(server, volume, seen)
}

/// Those of these servers that have a further copy of the volume.
fn copies_among(
    alloc: Global,
    servers: &[u32],
    volume: u32,
    named: u32,
    seen: &[Seen],
) -> Mem<Servers>
    ensures { IfOk result (λ c. c ≡ filter (recovering.has_copy volume named seen.now) servers.now) }
{
    let mut copies = Sequence::new(alloc);
    for server in servers {
        if has_copy(volume, named, seen, *server) {
            copies.push(*server)?;
        }
    }
    Ok(copies)
}

/// The servers that have a further copy of the volume.
fn copies_of(alloc: Global, servers: u32, volume: u32, named: u32, seen: &[Seen]) -> Mem<Servers>
    requires { servers ≤ 8 }
    ensures { IfOk result (λ c. c ≡ recovering.copies_of (in_cell servers) volume named seen.now) }
{
    let all = all_servers(alloc, servers)?;
    copies_among(alloc, all.as_slice(), volume, named, seen)
}

/// The read-only volume stays at its sites.
fn is_kept_read_only(entry: &LocEntry, seen: &Seen) -> bool
    ensures { result ≡ recovering.is_kept_read_only entry.now seen.now }
{
    seen.volume.volume == entry.read_only && has_read_only_at(seen.server, entry)
}

/// The backup stays at the server that the entry names.
fn is_kept_backup(entry: &LocEntry, seen: &Seen) -> bool
    ensures { result ≡ recovering.is_kept_backup entry.now seen.now }
{
    seen.volume.volume == entry.backup && seen.server == home_in(entry)
}

/// Whether another volume than the one of this number was seen where it shouldn't be.
fn must_go(volume: u32, entry: &LocEntry, seen: &Seen) -> bool
    ensures { result ≡ recovering.must_go volume entry.now seen.now }
{
    !(seen.volume.volume == volume || is_kept_read_only(entry, seen) || is_kept_backup(entry, seen))
}

/// The other volumes that have to go, in the order in which they were seen: by server and number.
fn others_of(alloc: Global, volume: u32, entry: &LocEntry, seen: &[Seen]) -> Mem<Spots>
    ensures { IfOk result (λ s. s ≡ map spot_of (filter (recovering.must_go volume entry.now) seen.now)) }
{
    let mut others = Sequence::new(alloc);
    for one in seen {
        if must_go(volume, entry, one) {
            others.push(spot_of(one))?;
        }
    }
    Ok(others)
}

/// The flags of the volume at this server, where it was seen there.
fn flags_at(server: u32, volume: u32, seen: &[Seen]) -> Option<u32>
    ensures { result ≡ recovering.flags_at server volume seen.now }
{
    let found = seen.iter().find(|one| is_at(server, volume, one))?;
    Some(found.volume.flags)
}

/// What is to be done.
fn mend_of(
    alloc: Global,
    servers: u32,
    cause: Cause,
    hold: &Hold,
    seen: &[Seen],
    entry: &LocEntry,
) -> Mem<Mend>
    requires { servers ≤ 8 }
    ensures { IfOk result (λ m. m ≡ recovering.mend_of (in_cell servers) cause hold.now seen.now entry.now) }
{
    let volume = family(hold);
    let named = home_in(entry);
    Ok(Mend {
        cause,
        stamp: hold.stamp,
        volume,
        named,
        copies: copies_of(alloc, servers, volume, named, seen)?,
        others: others_of(alloc, volume, entry, seen)?,
        flags: flags_at(named, volume, seen),
    })
}

// ---- where replies lead

fn mends(alloc: Global, mend: &Mend, at: Mending) -> Mem<Turn>
    ensures { IfOk result (λ t. t ≡ recovering.mends mend.now at) }
{
    Ok(Turn::Goes {
        place: Place::Mends {
            mend: copy_mend(alloc, mend)?,
            at,
        },
    })
}

/// The volume comes into service, where it isn't; where it isn't at the named server the recovery is stuck.
fn opens_or_frees(alloc: Global, mend: &Mend) -> Mem<Turn>
    ensures { IfOk result (λ t. t ≡ recovering.opens_or_frees mend.now mend.now.flags) }
{
    match mend.flags {
        None => Ok(mend_fails(mend.cause, NOT_THERE)),
        Some(0) => mends(alloc, mend, Mending::Frees),
        Some(_) => mends(alloc, mend, Mending::Begins),
    }
}

/// The same with these other volumes left.
fn with_others(alloc: Global, mend: &Mend, left: &[Spot]) -> Mem<Mend>
    ensures { IfOk result (λ m. m ≡ record mend.now { others = left.now }) }
{
    Ok(Mend {
        cause: mend.cause,
        stamp: mend.stamp,
        volume: mend.volume,
        named: mend.named,
        copies: copied(alloc, mend.copies.as_slice())?,
        others: copied(alloc, left)?,
        flags: mend.flags,
    })
}

/// The next of the other volumes goes; behind the last one the volume itself is looked at.
fn drops_others(alloc: Global, mend: &Mend) -> Mem<Turn>
    ensures { IfOk result (λ t. t ≡ recovering.drops_others mend.now mend.now.others) }
{
    let [spot, left @ ..] = mend.others.as_slice() else {
        return opens_or_frees(alloc, mend);
    };
    Ok(Turn::Goes {
        place: Place::Mends {
            mend: with_others(alloc, mend, left)?,
            at: Mending::Drops { spot: *spot },
        },
    })
}

/// The same with these further copies left.
fn with_copies(alloc: Global, mend: &Mend, left: &[u32]) -> Mem<Mend>
    ensures { IfOk result (λ m. m ≡ record mend.now { copies = left.now }) }
{
    Ok(Mend {
        cause: mend.cause,
        stamp: mend.stamp,
        volume: mend.volume,
        named: mend.named,
        copies: copied(alloc, left)?,
        others: copied(alloc, mend.others.as_slice())?,
        flags: mend.flags,
    })
}

/// The next further copy goes; behind the last one the other volumes do.
fn mends_on(alloc: Global, mend: &Mend) -> Mem<Turn>
    ensures { IfOk result (λ t. t ≡ recovering.mends_on mend.now) }
{
    let [server, left @ ..] = mend.copies.as_slice() else {
        return drops_others(alloc, mend);
    };
    Ok(Turn::Goes {
        place: Place::Mends {
            mend: with_copies(alloc, mend, left)?,
            at: Mending::Takes { server: *server },
        },
    })
}

/// The entry as the database has it now.
fn entry_told(
    alloc: Global,
    servers: u32,
    cause: Cause,
    hold: &Hold,
    seen: &[Seen],
    entry: &LocEntry,
) -> Mem<Turn>
    requires { servers ≤ 8 }
    ensures { IfOk result (λ t. t ≡ recovering.entry_answered (in_cell servers) cause hold.now seen.now (tell.Location (entries.GetEntryById entry.now))) }
{
    if !is_usable(entry) {
        return Ok(Turn::Passes);
    }
    let mend = mend_of(alloc, servers, cause, hold, seen, entry)?;
    mends_on(alloc, &mend)
}

/// Where the reply to GetEntryByID leads. Of another kind it is none to the call.
pub fn entry_answered(
    alloc: Global,
    servers: u32,
    cause: Cause,
    hold: &SharedHold,
    seen: &AllSeen,
    reply: &Reply,
) -> Mem<Turn>
    requires { servers ≤ 8 }
    ensures { IfOk result (λ t. (act : Act) → t ≡ recovering.entry_answered (record { act = act; servers = servers }) cause hold.now seen.now reply.now) }
{
    match reply {
        Reply::Location(LocReply::GetEntryById { entry }) => entry_told(
            alloc,
            servers,
            cause,
            hold.get(),
            seen.as_slice(),
            entry,
        ),
        _ => Ok(Turn::Passes),
    }
}

/// The volume is in order. Behind a failure the code of that is the answer.
fn mended(cause: Cause) -> Turn
    ensures { result ≡ recovering.mended cause }
{
    match cause {
        Cause::Asked => Turn::Ends { code: FINE },
        Cause::After { code } => Turn::Ends { code },
    }
}

/// Where a reply of a volume server leads.
fn told(alloc: Global, mend: &Mend, at: Mending, reply: &VolReply) -> Mem<Turn>
    ensures { IfOk result (λ t. t ≡ recovering.mend_answered mend.now at (tell.Volume reply.now)) }
{
    match (at, reply) {
        (Mending::Takes { server }, VolReply::TransCreate { transaction }) => mends(
            alloc,
            mend,
            Mending::Points {
                server,
                transaction: *transaction,
            },
        ),
        (
            Mending::Points {
                server,
                transaction,
            },
            VolReply::SetForwarding,
        ) => mends(
            alloc,
            mend,
            Mending::Deletes {
                server,
                transaction,
            },
        ),
        (Mending::Drops { spot }, VolReply::TransCreate { transaction }) => mends(
            alloc,
            mend,
            Mending::Dropped {
                spot,
                transaction: *transaction,
            },
        ),
        (Mending::Deletes { .. } | Mending::Dropped { .. }, VolReply::DeleteVolume) => mends_on(
            alloc, mend,
        ),
        (Mending::Begins, VolReply::TransCreate { transaction }) => mends(
            alloc,
            mend,
            Mending::Opens {
                transaction: *transaction,
            },
        ),
        (Mending::Opens { transaction }, VolReply::SetFlags) => mends(
            alloc,
            mend,
            Mending::Ends { transaction },
        ),
        (Mending::Ends { .. }, VolReply::EndTrans) => mends(alloc, mend, Mending::Frees),
        _ => Ok(Turn::Passes),
    }
}

/// The lock is released.
fn freed(mend: &Mend, at: Mending) -> Turn
    ensures { result ≡ recovering.mend_answered mend.now at (tell.Location entries.ReleaseLock) }
{
    match at {
        Mending::Frees => mended(mend.cause),
        _ => Turn::Passes,
    }
}

/// Where a reply leads. Of another kind it is none to the call.
pub fn answered(alloc: Global, mend: &Mend, at: Mending, reply: &Reply) -> Mem<Turn>
    ensures { IfOk result (λ t. t ≡ recovering.mend_answered mend.now at reply.now) }
{
    match reply {
        Reply::Volume(reply) => told(alloc, mend, at, reply),
        Reply::Location(LocReply::ReleaseLock) => Ok(freed(mend, at)),
        _ => Ok(Turn::Passes),
    }
}
