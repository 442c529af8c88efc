//! A removal (`vos remove`), behind the survey: the volume itself, and then each other volume of the family that was seen.

ghost use Rattle.std.specs.Prelude.{◌≡◌, IfOk, filter, map};
ghost use Rattle.afs_num.specs.declared.messages.Reply.TheVariants as tell;
ghost use Rattle.spec_shape.specs.Tables.{IsServer};
ghost use Rattle.spec_adminrows.specs.Asks as asks;
ghost use Rattle.spec_adminrows.specs.Removing as removing;

use afs_adminparts::asking::{CLOSED, OFFLINE, at_home, family, held_at, held_at_loc, home};
use afs_adminparts::copies::copied;
use afs_adminparts::turning::FINE;
use afs_num::location_calls::{LocCall, LocReply};
use afs_num::messages::Reply;
use afs_num::sequences::Sequence;
use afs_num::types::Mem;
use afs_num::volume_calls::{VolCall, VolReply};
use spec_adminrows::places::{
    AllSeen, Hold, Place, Removing, Seen, SharedHold, Spot, Spots, Sweeping,
};
use spec_adminrows::turns::{Ask, Turn};
use std::alloc::Global;

// ---- the volume itself

/// What is asked where the volume itself is removed.
pub fn asks(hold: &Hold, at: Removing) -> Ask
    requires { IsServer (asks.home hold.now) }
    ensures { result ≡ removing.remove_asks hold.now at }
{
    let family = family(hold);
    match at {
        Removing::Begins => at_home(
            hold,
            VolCall::TransCreate {
                family,
                volume: family,
                flags: OFFLINE,
            },
        ),
        Removing::Fences { transaction } => at_home(
            hold,
            VolCall::SetFlags {
                family,
                transaction,
                flags: CLOSED,
            },
        ),
        Removing::Decides { .. } => held_at_loc(hold, LocCall::DeleteEntry { volume: family }),
        Removing::Deletes { transaction } => at_home(
            hold,
            VolCall::DeleteVolume {
                family,
                transaction,
            },
        ),
    }
}

fn removes(alloc: Global, hold: &SharedHold, seen: &[Seen], at: Removing) -> Mem<Turn>
    ensures { IfOk result (λ t. t ≡ removing.removes hold.now seen.now at) }
{
    Ok(Turn::Goes {
        place: Place::Removes {
            hold: hold.copy()?,
            seen: copied(alloc, seen)?,
            at,
        },
    })
}

/// Where what was seen is.
pub fn spot_of(seen: &Seen) -> Spot
    ensures { result ≡ removing.spot_of seen.now }
{
    Spot {
        server: seen.server,
        volume: seen.volume.volume,
    }
}

/// Whether another volume was seen than the one of this number at its server.
fn is_other(hold: &Hold, seen: &Seen) -> bool
    ensures { result ≡ removing.is_other_copy hold.now seen.now }
{
    seen.server != home(hold) || seen.volume.volume != family(hold)
}

/// The other volumes of the family, in the order in which they were seen: by server and number.
fn others_of(alloc: Global, hold: &Hold, seen: &[Seen]) -> Mem<Spots>
    ensures { IfOk result (λ s. s ≡ removing.others_of hold.now seen.now) }
{
    let mut others = Sequence::new(alloc);
    for one in seen {
        if is_other(hold, one) {
            others.push(spot_of(one))?;
        }
    }
    Ok(others)
}

/// Where a reply of the volume server leads.
fn told(
    alloc: Global,
    hold: &SharedHold,
    seen: &[Seen],
    at: Removing,
    reply: &VolReply,
) -> Mem<Turn>
    ensures { IfOk result (λ t. t ≡ removing.remove_answered hold.now seen.now at (tell.Volume reply.now)) }
{
    match (at, reply) {
        (Removing::Begins, VolReply::TransCreate { transaction }) => removes(
            alloc,
            hold,
            seen,
            Removing::Fences {
                transaction: *transaction,
            },
        ),
        (Removing::Fences { transaction }, VolReply::SetFlags) => removes(
            alloc,
            hold,
            seen,
            Removing::Decides { transaction },
        ),
        (Removing::Deletes { .. }, VolReply::DeleteVolume) => sweeps_others(alloc, hold, seen),
        _ => Ok(Turn::Passes),
    }
}

/// Where a reply of the database leads.
fn located(
    alloc: Global,
    hold: &SharedHold,
    seen: &[Seen],
    at: Removing,
    reply: &LocReply,
) -> Mem<Turn>
    ensures { IfOk result (λ t. t ≡ removing.remove_answered hold.now seen.now at (tell.Location reply.now)) }
{
    match (at, reply) {
        (Removing::Decides { transaction }, LocReply::DeleteEntry) => removes(
            alloc,
            hold,
            seen,
            Removing::Deletes { transaction },
        ),
        _ => Ok(Turn::Passes),
    }
}

/// Where a reply leads. Of another kind it is none to the call.
pub fn answered(
    alloc: Global,
    hold: &SharedHold,
    seen: &AllSeen,
    at: Removing,
    reply: &Reply,
) -> Mem<Turn>
    ensures { IfOk result (λ t. t ≡ removing.remove_answered hold.now seen.now at reply.now) }
{
    match reply {
        Reply::Volume(reply) => told(alloc, hold, seen.as_slice(), at, reply),
        Reply::Location(reply) => located(alloc, hold, seen.as_slice(), at, reply),
        Reply::File(_) => Ok(Turn::Passes),
    }
}

// ---- the others

/// What is asked where another volume of the family is removed.
pub fn sweep_asks(hold: &Hold, spot: Spot, at: Sweeping) -> Ask
    requires { IsServer spot.server }
    ensures { result ≡ removing.sweep_asks hold.now spot at }
{
    let family = family(hold);
    let call = match at {
        Sweeping::Begins => VolCall::TransCreate {
            family,
            volume: spot.volume,
            flags: OFFLINE,
        },
        Sweeping::Deletes { transaction } => VolCall::DeleteVolume {
            family,
            transaction,
        },
    };
    held_at(hold, spot.server, call)
}

/// The first of these goes. The entry went, and its lock with it: none is released at the end.
fn sweeps(alloc: Global, hold: &SharedHold, left: &[Spot]) -> Mem<Turn>
    ensures { IfOk result (λ t. t ≡ removing.sweeps hold.now left.now) }
{
    let [spot, left @ ..] = left else {
        return Ok(Turn::Ends { code: FINE });
    };
    Ok(Turn::Goes {
        place: Place::Sweeps {
            hold: hold.copy()?,
            spot: *spot,
            left: copied(alloc, left)?,
            at: Sweeping::Begins,
        },
    })
}

/// The volume itself is gone: the others follow.
fn sweeps_others(alloc: Global, hold: &SharedHold, seen: &[Seen]) -> Mem<Turn>
    ensures { IfOk result (λ t. t ≡ removing.sweeps hold.now (removing.others_of hold.now seen.now)) }
{
    let others = others_of(alloc, hold.get(), seen)?;
    sweeps(alloc, hold, others.as_slice())
}

/// The transaction on the volume began: it is deleted.
fn sweep_begun(
    alloc: Global,
    hold: &SharedHold,
    spot: Spot,
    left: &[Spot],
    transaction: u32,
) -> Mem<Turn>
    ensures { IfOk result (λ t. t ≡ Turn.Goes (Place.Sweeps hold.now spot left.now (Sweeping.Deletes transaction))) }
{
    Ok(Turn::Goes {
        place: Place::Sweeps {
            hold: hold.copy()?,
            spot,
            left: copied(alloc, left)?,
            at: Sweeping::Deletes { transaction },
        },
    })
}

/// Where a reply leads. Of another kind it is none to the call.
pub fn sweep_answered(
    alloc: Global,
    hold: &SharedHold,
    spot: Spot,
    left: &Spots,
    at: Sweeping,
    reply: &Reply,
) -> Mem<Turn>
    ensures { IfOk result (λ t. t ≡ removing.sweep_answered hold.now spot left.now at reply.now) }
{
    match (at, reply) {
        (Sweeping::Begins, Reply::Volume(VolReply::TransCreate { transaction })) => sweep_begun(
            alloc,
            hold,
            spot,
            left.as_slice(),
            *transaction,
        ),
        (Sweeping::Deletes { .. }, Reply::Volume(VolReply::DeleteVolume)) => sweeps(
            alloc,
            hold,
            left.as_slice(),
        ),
        _ => Ok(Turn::Passes),
    }
}
