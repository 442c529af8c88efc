//! A move, behind the survey: what is asked at each of its places, and where a reply leads.

ghost use Rattle.std.specs.Prelude.{◌≡◌, ◌≤◌, [], IfOk};
ghost use Rattle.afs_num.specs.declared.location_calls.LocReply.TheVariants as entries;
ghost use Rattle.afs_num.specs.declared.messages.Reply.TheVariants as tell;
ghost use Rattle.afs_num.specs.declared.volume_calls.VolReply.TheVariants as volumes;
ghost use Rattle.spec_adminrows.specs.Moving as rows;
ghost use Rattle.spec_adminrows.specs.declared.places.Moving.TheVariants as places;
ghost use Rattle.afs_adminparts.specs.Errands.{in_cell};
ghost use Rattle.afs_adminparts.specs.Fitting.{FitsTrip};

use afs_adminparts::asking::{
    BUSY, CLOSED, OFFLINE, READ_ONLY, READ_WRITE, UNFILLED, at_home, family, held_at, held_at_loc,
    home,
};
use afs_adminparts::copies::copy_trip;
use afs_adminparts::entries::entry_moved;
use afs_adminparts::surveying::surveys_all;
use afs_adminparts::turning::{FINE, SAME_PLACE, frees};
use afs_num::location_calls::{LocCall, LocReply};
use afs_num::messages::Reply;
use afs_num::sequences::Octets;
use afs_num::types::Mem;
use afs_num::volume_calls::{VolCall, VolReply};
use spec_adminrows::places::{Hold, Moving, Place, Purpose, SharedHold, Trip};
use spec_adminrows::turns::{Ask, Turn};
use std::alloc::Global;

// ---- what is asked

/// A number for the clone.
pub fn plan_asks(hold: &Hold) -> Ask
    ensures { result ≡ rows.plan_asks hold.now }
{
    held_at_loc(hold, LocCall::GetNewVolumeId)
}

/// The clone is made at the old server.
fn clone_asks(alloc: Global, name: &Octets, trip: &Trip, transaction: u32) -> Mem<Ask>
    requires fits { FitsTrip trip.now }
    ensures { IfOk result (λ a. a ≡ rows.move_asks name.now trip.now (places.Clones transaction)) }
{
    let name = name.copy(alloc)?;
    let hold = trip.hold.get();
    Ok(at_home(
        hold,
        VolCall::Clone {
            family: family(hold),
            transaction,
            volume: trip.clone,
            name,
            kind: READ_ONLY,
        },
    ))
}

/// The volume is made at the new server, and not filled yet.
fn make_asks(alloc: Global, name: &Octets, trip: &Trip, counter: u32) -> Mem<Ask>
    requires fits { FitsTrip trip.now }
    ensures { IfOk result (λ a. a ≡ rows.move_asks name.now trip.now (places.Makes counter)) }
{
    let name = name.copy(alloc)?;
    let hold = trip.hold.get();
    Ok(held_at(
        hold,
        trip.target,
        VolCall::CreateVolume {
            family: family(hold),
            volume: family(hold),
            name,
            kind: READ_WRITE,
            flags: UNFILLED,
            quota: 1,
        },
    ))
}

/// The deciding write: the entry names the new server.
fn decide_asks(alloc: Global, trip: &Trip) -> Mem<Ask>
    ensures { IfOk result (λ a. a ≡ rows.move_asks [] trip.now (places.Decides 0 0)) }
{
    let hold = trip.hold.get();
    let entry = entry_moved(alloc, trip.target, &hold.entry)?;
    Ok(held_at_loc(
        hold,
        LocCall::ReplaceEntry {
            volume: family(hold),
            entry,
        },
    ))
}

/// What is asked; only a name and the entry of the deciding write take memory.
pub fn asks(alloc: Global, name: &Octets, trip: &Trip, at: Moving) -> Mem<Ask>
    requires fits { FitsTrip trip.now }
    ensures { IfOk result (λ a. a ≡ rows.move_asks name.now trip.now at) }
{
    let hold = trip.hold.get();
    let family = family(hold);
    let target = trip.target;
    match at {
        Moving::Begins => Ok(at_home(
            hold,
            VolCall::TransCreate {
                family,
                volume: family,
                flags: BUSY,
            },
        )),
        Moving::Clones { transaction } => clone_asks(alloc, name, trip, transaction),
        Moving::Cloned { transaction, .. } | Moving::Sent { transaction, .. } => {
            Ok(at_home(
                hold,
                VolCall::EndTrans {
                    family,
                    transaction,
                },
            ))
        }
        Moving::Makes { counter } => make_asks(alloc, name, trip, counter),
        Moving::Opens { .. } => Ok(at_home(
            hold,
            VolCall::TransCreate {
                family,
                volume: trip.clone,
                flags: BUSY,
            },
        )),
        Moving::Sends {
            new,
            transaction,
            ..
        } => Ok(at_home(
            hold,
            VolCall::Forward {
                family,
                transaction,
                from: 0,
                server: target,
                its_transaction: new,
            },
        )),
        Moving::Holds { .. } => Ok(at_home(
            hold,
            VolCall::TransCreate {
                family,
                volume: family,
                flags: OFFLINE,
            },
        )),
        Moving::Fences { old, .. } => Ok(at_home(
            hold,
            VolCall::SetFlags {
                family,
                transaction: old,
                flags: CLOSED,
            },
        )),
        Moving::Fills { counter, new, old } => Ok(at_home(
            hold,
            VolCall::Forward {
                family,
                transaction: old,
                from: counter,
                server: target,
                its_transaction: new,
            },
        )),
        Moving::Clears { new, .. } => Ok(held_at(
            hold,
            target,
            VolCall::SetFlags {
                family,
                transaction: new,
                flags: CLOSED,
            },
        )),
        Moving::Decides { .. } => decide_asks(alloc, trip),
        Moving::Starts { new, .. } => Ok(held_at(
            hold,
            target,
            VolCall::SetFlags {
                family,
                transaction: new,
                flags: 0,
            },
        )),
        Moving::Started { new, .. } => Ok(held_at(
            hold,
            target,
            VolCall::EndTrans {
                family,
                transaction: new,
            },
        )),
        Moving::Points { old } => Ok(at_home(
            hold,
            VolCall::SetForwarding {
                family,
                transaction: old,
                server: target,
            },
        )),
        Moving::Deletes { old } => Ok(at_home(
            hold,
            VolCall::DeleteVolume {
                family,
                transaction: old,
            },
        )),
        Moving::Drops => Ok(at_home(
            hold,
            VolCall::TransCreate {
                family,
                volume: trip.clone,
                flags: OFFLINE,
            },
        )),
        Moving::Dropped { transaction } | Moving::DroppedBackup { transaction } => {
            Ok(at_home(
                hold,
                VolCall::DeleteVolume {
                    family,
                    transaction,
                },
            ))
        }
        Moving::DropsBackup => Ok(at_home(
            hold,
            VolCall::TransCreate {
                family,
                volume: hold.entry.backup,
                flags: OFFLINE,
            },
        )),
    }
}

// ---- where replies lead

/// To the server where the volume is, nothing moves.
pub fn moves_to(alloc: Global, servers: u32, hold: &SharedHold, target: u32) -> Mem<Turn>
    requires servers { servers ≤ 8 }
    ensures { IfOk result (λ t. t ≡ rows.moves_to (in_cell servers) hold.now target) }
{
    if target == home(hold.get()) {
        return frees(hold, SAME_PLACE);
    }
    surveys_all(alloc, servers, hold, Purpose::Moves { target })
}

/// The move goes on at this step.
fn moves(trip: &Trip, at: Moving) -> Mem<Turn>
    ensures { IfOk result (λ t. t ≡ rows.moves trip.now at) }
{
    Ok(Turn::Goes {
        place: Place::Moves {
            trip: copy_trip(trip)?,
            at,
        },
    })
}

/// The clone has its number.
fn planned(hold: &SharedHold, target: u32, clone: u32) -> Mem<Turn>
    ensures { IfOk result (λ t. t ≡ rows.moves (rows.trip_of hold.now target clone) places.Begins) }
{
    let trip = Trip {
        hold: hold.copy()?,
        target,
        clone,
    };
    Ok(Turn::Goes {
        place: Place::Moves {
            trip,
            at: Moving::Begins,
        },
    })
}

/// Where the reply to the call for that number leads.
pub fn plan_answered(hold: &SharedHold, target: u32, reply: &Reply) -> Mem<Turn>
    ensures { IfOk result (λ t. t ≡ rows.plan_answered hold.now target reply.now) }
{
    match reply {
        Reply::Location(LocReply::GetNewVolumeId { volume }) => planned(hold, target, *volume),
        _ => Ok(Turn::Passes),
    }
}

/// A backup goes too: it was one of the volume at the old server.
fn moved_off(trip: &Trip) -> Mem<Turn>
    ensures { IfOk result (λ t. t ≡ rows.moved_off trip.now trip.now.hold.entry.backup) }
{
    if trip.hold.get().entry.backup == 0 {
        return frees(&trip.hold, FINE);
    }
    moves(trip, Moving::DropsBackup)
}

/// A transaction was opened.
fn opened(trip: &Trip, at: Moving, transaction: u32) -> Mem<Turn>
    ensures { IfOk result (λ t. t ≡ rows.move_answered trip.now at (tell.Volume (volumes.TransCreate transaction))) }
{
    match at {
        Moving::Begins => moves(trip, Moving::Clones { transaction }),
        Moving::Opens { counter, new } => moves(
            trip,
            Moving::Sends {
                counter,
                new,
                transaction,
            },
        ),
        Moving::Holds { counter, new } => moves(
            trip,
            Moving::Fences {
                counter,
                new,
                old: transaction,
            },
        ),
        Moving::Drops => moves(trip, Moving::Dropped { transaction }),
        Moving::DropsBackup => moves(trip, Moving::DroppedBackup { transaction }),
        _ => Ok(Turn::Passes),
    }
}

/// The clone was made, at this counter.
fn cloned(trip: &Trip, at: Moving, counter: u32, release: u32) -> Mem<Turn>
    ensures { IfOk result (λ t. t ≡ rows.move_answered trip.now at (tell.Volume (volumes.Clone counter release))) }
{
    match at {
        Moving::Clones { transaction } => moves(
            trip,
            Moving::Cloned {
                counter,
                transaction,
            },
        ),
        _ => Ok(Turn::Passes),
    }
}

/// The volume was made at the new server.
fn made(trip: &Trip, at: Moving, new: u32) -> Mem<Turn>
    ensures { IfOk result (λ t. t ≡ rows.move_answered trip.now at (tell.Volume (volumes.CreateVolume new))) }
{
    match at {
        Moving::Makes { counter } => moves(trip, Moving::Opens { counter, new }),
        _ => Ok(Turn::Passes),
    }
}

/// A dump was taken over.
fn forwarded(trip: &Trip, at: Moving) -> Mem<Turn>
    ensures { IfOk result (λ t. t ≡ rows.move_answered trip.now at (tell.Volume volumes.Forward)) }
{
    match at {
        Moving::Sends {
            counter,
            new,
            transaction,
        } => moves(
            trip,
            Moving::Sent {
                counter,
                new,
                transaction,
            },
        ),
        Moving::Fills {
            counter: _,
            new,
            old,
        } => moves(trip, Moving::Clears { new, old }),
        _ => Ok(Turn::Passes),
    }
}

/// Flags were set.
fn flagged(trip: &Trip, at: Moving) -> Mem<Turn>
    ensures { IfOk result (λ t. t ≡ rows.move_answered trip.now at (tell.Volume volumes.SetFlags)) }
{
    match at {
        Moving::Fences { counter, new, old } => moves(trip, Moving::Fills { counter, new, old }),
        Moving::Clears { new, old } => moves(trip, Moving::Decides { new, old }),
        Moving::Starts { new, old } => moves(trip, Moving::Started { new, old }),
        _ => Ok(Turn::Passes),
    }
}

/// A transaction was ended.
fn ended(trip: &Trip, at: Moving) -> Mem<Turn>
    ensures { IfOk result (λ t. t ≡ rows.move_answered trip.now at (tell.Volume volumes.EndTrans)) }
{
    match at {
        Moving::Cloned {
            counter,
            transaction: _,
        } => moves(trip, Moving::Makes { counter }),
        Moving::Sent {
            counter,
            new,
            transaction: _,
        } => moves(trip, Moving::Holds { counter, new }),
        Moving::Started { new: _, old } => moves(trip, Moving::Points { old }),
        _ => Ok(Turn::Passes),
    }
}

/// The old server names the new one from now on.
fn pointed(trip: &Trip, at: Moving) -> Mem<Turn>
    ensures { IfOk result (λ t. t ≡ rows.move_answered trip.now at (tell.Volume volumes.SetForwarding)) }
{
    match at {
        Moving::Points { old } => moves(trip, Moving::Deletes { old }),
        _ => Ok(Turn::Passes),
    }
}

/// A volume was deleted.
fn deleted(trip: &Trip, at: Moving) -> Mem<Turn>
    ensures { IfOk result (λ t. t ≡ rows.move_answered trip.now at (tell.Volume volumes.DeleteVolume)) }
{
    match at {
        Moving::Deletes { old: _ } => moves(trip, Moving::Drops),
        Moving::Dropped { transaction: _ } => moved_off(trip),
        Moving::DroppedBackup { transaction: _ } => frees(&trip.hold, FINE),
        _ => Ok(Turn::Passes),
    }
}

/// Where a reply of a volume server leads, by its kind.
fn told(trip: &Trip, at: Moving, reply: &VolReply) -> Mem<Turn>
    ensures { IfOk result (λ t. t ≡ rows.move_answered trip.now at (tell.Volume reply.now)) }
{
    match reply {
        VolReply::TransCreate { transaction } => opened(trip, at, *transaction),
        VolReply::Clone { counter, release } => cloned(trip, at, *counter, *release),
        VolReply::CreateVolume { transaction } => made(trip, at, *transaction),
        VolReply::Forward => forwarded(trip, at),
        VolReply::SetFlags => flagged(trip, at),
        VolReply::EndTrans => ended(trip, at),
        VolReply::SetForwarding => pointed(trip, at),
        VolReply::DeleteVolume => deleted(trip, at),
        _ => Ok(Turn::Passes),
    }
}

/// The deciding write is done.
fn decided(trip: &Trip, at: Moving) -> Mem<Turn>
    ensures { IfOk result (λ t. t ≡ rows.move_answered trip.now at (tell.Location entries.ReplaceEntry)) }
{
    match at {
        Moving::Decides { new, old } => moves(trip, Moving::Starts { new, old }),
        _ => Ok(Turn::Passes),
    }
}

/// Where a reply leads. One of another kind than the place waits for is none to its call.
pub fn answered(trip: &Trip, at: Moving, reply: &Reply) -> Mem<Turn>
    ensures { IfOk result (λ t. t ≡ rows.move_answered trip.now at reply.now) }
{
    match reply {
        Reply::Volume(reply) => told(trip, at, reply),
        Reply::Location(LocReply::ReplaceEntry) => decided(trip, at),
        _ => Ok(Turn::Passes),
    }
}
