//! Each server is asked which volumes of the family it has, which brings it the stamp: so begin a move, a removal and a recovery.

ghost use Rattle.std.specs.Prelude.{◌≡◌, ◌≤◌, ◌++◌, [], IfOk, map};
ghost use Rattle.spec_shape.specs.Tables.{IsServer};
ghost use Rattle.spec_adminrows.specs.Asks as asks;
ghost use Rattle.spec_adminrows.specs.Surveying as surveying;
ghost use Rattle.afs_adminparts.specs.Errands.{in_cell};

use crate::asking::{family, held_at};
use crate::copies::copied;
use crate::turning::{fails, mend_fails};
use afs_num::messages::Reply;
use afs_num::sequences::Sequence;
use afs_num::types::{Code, Mem};
use afs_num::volume_calls::{ListedVolume, VolCall, VolReply};
use spec_adminrows::places::{AllSeen, Hold, Place, Purpose, Removing, Seen, Servers, SharedHold};
use spec_adminrows::turns::{Ask, Turn};
use std::alloc::Global;

/// ListVols at this server.
pub fn asks(hold: &Hold, server: u32) -> Ask
    requires { IsServer server }
    ensures { result ≡ surveying.survey_asks hold.now server }
{
    held_at(
        hold,
        server,
        VolCall::ListVols {
            family: family(hold),
        },
    )
}

/// The servers of the cell, by their numbers.
pub fn all_servers(alloc: Global, servers: u32) -> Mem<Servers>
    requires { servers ≤ 8 }
    ensures { IfOk result (λ ss. ss ≡ asks.all_servers (in_cell servers)) }
{
    let mut all = Sequence::new(alloc);
    for before in 0..servers {
        all.push(before + 1)?;
    }
    Ok(all)
}

/// Behind the last server: what was seen tells what is to be done.
fn surveyed(alloc: Global, hold: &SharedHold, purpose: Purpose, seen: &[Seen]) -> Mem<Turn>
    ensures { IfOk result (λ t. t ≡ surveying.surveyed hold.now purpose seen.now) }
{
    let hold = hold.copy()?;
    let place = match purpose {
        Purpose::Moves { target } => Place::Plans { hold, target },
        Purpose::Removes => Place::Removes {
            hold,
            seen: copied(alloc, seen)?,
            at: Removing::Begins,
        },
        Purpose::Mends { cause } => Place::Asks {
            cause,
            hold,
            seen: copied(alloc, seen)?,
        },
    };
    Ok(Turn::Goes { place })
}

/// The next of these servers is asked; behind the last one the survey is done.
fn surveys(
    alloc: Global,
    hold: &SharedHold,
    purpose: Purpose,
    left: &[u32],
    seen: &[Seen],
) -> Mem<Turn>
    ensures { IfOk result (λ t. t ≡ surveying.surveys hold.now purpose left.now seen.now) }
{
    let [server, left @ ..] = left else {
        return surveyed(alloc, hold, purpose, seen);
    };
    Ok(Turn::Goes {
        place: Place::Surveys {
            hold: hold.copy()?,
            purpose,
            server: *server,
            left: copied(alloc, left)?,
            seen: copied(alloc, seen)?,
        },
    })
}

/// The survey begins, at server 1.
pub fn surveys_all(alloc: Global, servers: u32, hold: &SharedHold, purpose: Purpose) -> Mem<Turn>
    requires { servers ≤ 8 }
    ensures { IfOk result (λ t. t ≡ surveying.surveys_all (in_cell servers) hold.now purpose) }
{
    let all = all_servers(alloc, servers)?;
    surveys(alloc, hold, purpose, all.as_slice(), &[])
}

/// What was seen, with what this server listed.
fn with_listed(alloc: Global, server: u32, seen: &[Seen], listed: &[ListedVolume]) -> Mem<AllSeen>
    ensures { IfOk result (λ s. s ≡ seen.now ++ map (surveying.seen_by server) listed.now) }
{
    let mut all = copied(alloc, seen)?;
    for volume in listed {
        all.push(Seen {
            server,
            volume: *volume,
        })?;
    }
    Ok(all)
}

/// Where a reply leads. Of another kind it is none to the call.
pub fn answered(
    alloc: Global,
    hold: &SharedHold,
    purpose: Purpose,
    server: u32,
    left: &Servers,
    seen: &AllSeen,
    reply: &Reply,
) -> Mem<Turn>
    ensures { IfOk result (λ t. t ≡ surveying.survey_answered hold.now purpose server left.now seen.now reply.now) }
{
    let Reply::Volume(VolReply::ListVols { volumes }) = reply else {
        return Ok(Turn::Passes);
    };
    let seen = with_listed(alloc, server, seen.as_slice(), volumes.as_slice())?;
    surveys(alloc, hold, purpose, left.as_slice(), seen.as_slice())
}

/// Where a refusal leads, or a call that was given up (code -1).
pub fn refused(purpose: Purpose, code: Code) -> Turn
    ensures { result ≡ surveying.survey_refused purpose code }
{
    match purpose {
        Purpose::Moves { .. } | Purpose::Removes => fails(None, code),
        Purpose::Mends { cause } => mend_fails(cause, code),
    }
}
