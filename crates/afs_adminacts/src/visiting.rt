//! A release at one of its sites: the clone is sent there, and the read-only volume that it fills comes into service. A failure skips
//! the rest of the site.

ghost use Rattle.std.specs.Prelude.{◌≡◌, ◌++◌, IfOk};
ghost use Rattle.std.specs.List.{list_any};
ghost use Rattle.afs_num.specs.declared.messages.Reply.TheVariants as tell;
ghost use Rattle.afs_num.specs.declared.volume_calls.VolReply.TheVariants as volumes;
ghost use Rattle.spec_shape.specs.Tables.{IsServer};
ghost use Rattle.spec_adminrows.specs.Releasing as rows;
ghost use Rattle.spec_adminrows.specs.declared.places.Visiting.TheVariants as places;
ghost use Rattle.afs_adminparts.specs.Fitting.{FitsTour};

use crate::releasing::{copy_tour, tours_on};
use afs_adminparts::asking::{BUSY, OFFLINE, READ_ONLY, UNFILLED, at_home, family, held_at};
use afs_adminparts::copies::{copied, name_with};
use afs_adminparts::turning::{code_or, is_superseded};
use afs_num::messages::Reply;
use afs_num::sequences::Octets;
use afs_num::types::{Code, Mem};
use afs_num::volume_calls::{ListedVolume, ListedVolumes, VolCall, VolReply};
use spec_adminrows::places::{Place, Tour, Visiting};
use spec_adminrows::turns::{Ask, Turn};
use std::alloc::Global;

/// The end of the name of a read-only volume.
const READ_ONLY_END: &[u8] = b".readonly";

// ---- what is asked

/// The read-only volume is made at this server, and not filled yet.
fn make_asks(alloc: Global, name: &Octets, tour: &Tour, site: u32) -> Mem<Ask>
    requires site { IsServer site }
    ensures { IfOk result (λ a. a ≡ rows.visit_asks name.now tour.now site places.Makes) }
{
    let name = name_with(alloc, name, READ_ONLY_END)?;
    let hold = tour.hold.get();
    Ok(held_at(
        hold,
        site,
        VolCall::CreateVolume {
            family: family(hold),
            volume: tour.read_only,
            name,
            kind: READ_ONLY,
            flags: UNFILLED,
            quota: 1,
        },
    ))
}

/// What is asked at this site; only the name of a new read-only volume takes memory.
pub fn asks(alloc: Global, name: &Octets, tour: &Tour, site: u32, at: Visiting) -> Mem<Ask>
    requires fits { FitsTour tour.now }
    requires site { IsServer site }
    ensures { IfOk result (λ a. a ≡ rows.visit_asks name.now tour.now site at) }
{
    let hold = tour.hold.get();
    let family = family(hold);
    match at {
        Visiting::Stamps => Ok(held_at(hold, site, VolCall::ListVols { family })),
        Visiting::Takes => Ok(held_at(
            hold,
            site,
            VolCall::TransCreate {
                family,
                volume: tour.read_only,
                flags: OFFLINE,
            },
        )),
        Visiting::Makes => make_asks(alloc, name, tour, site),
        Visiting::Opens { .. } => Ok(at_home(
            hold,
            VolCall::TransCreate {
                family,
                volume: tour.clone,
                flags: BUSY,
            },
        )),
        Visiting::Sends { transaction, clone } => Ok(at_home(
            hold,
            VolCall::Forward {
                family,
                transaction: clone,
                from: 0,
                server: site,
                its_transaction: transaction,
            },
        )),
        Visiting::Closes { clone, .. } | Visiting::Leaves { clone, .. } => Ok(at_home(
            hold,
            VolCall::EndTrans {
                family,
                transaction: clone,
            },
        )),
        Visiting::Sets { transaction } => Ok(held_at(
            hold,
            site,
            VolCall::SetFlags {
                family,
                transaction,
                flags: 0,
            },
        )),
        Visiting::Ends { transaction } => Ok(held_at(
            hold,
            site,
            VolCall::EndTrans {
                family,
                transaction,
            },
        )),
    }
}

// ---- where replies lead

/// The visit goes on at this step.
fn visits(alloc: Global, tour: &Tour, site: u32, at: Visiting) -> Mem<Turn>
    ensures { IfOk result (λ t. t ≡ rows.visits tour.now site at) }
{
    Ok(Turn::Goes {
        place: Place::Visits {
            tour: copy_tour(alloc, tour)?,
            site,
            at,
        },
    })
}

/// The site was reached.
fn reaches(alloc: Global, tour: &Tour, site: u32) -> Mem<Turn>
    ensures { IfOk result (λ t. t ≡ rows.reaches tour.now site) }
{
    let mut reached = copied(alloc, tour.reached.as_slice())?;
    reached.push(site)?;
    tours_on(alloc, tour, tour.first, reached)
}

/// The rest of the site is skipped with this code.
fn skips(alloc: Global, tour: &Tour, code: Code) -> Mem<Turn>
    ensures { IfOk result (λ t. t ≡ rows.skips tour.now code) }
{
    let reached = copied(alloc, tour.reached.as_slice())?;
    tours_on(alloc, tour, Some(code_or(code, tour.first)), reached)
}

/// Whether a volume of this number is there.
fn is_there(listed: &[ListedVolume], id: u32) -> bool
    ensures { result ≡ list_any (rows.is_listed id) listed.now }
{
    listed.iter().any(|volume| volume.volume == id)
}

/// The server has the stamp. A read-only volume that is there is taken.
fn takes_or_makes(alloc: Global, tour: &Tour, site: u32, listed: &[ListedVolume]) -> Mem<Turn>
    ensures { IfOk result (λ t. t ≡ rows.takes_or_makes tour.now site listed.now) }
{
    if is_there(listed, tour.read_only) {
        return visits(alloc, tour, site, Visiting::Takes);
    }
    visits(alloc, tour, site, Visiting::Makes)
}

/// The server listed its volumes of the family.
fn stamped(alloc: Global, tour: &Tour, site: u32, at: Visiting, listed: &ListedVolumes) -> Mem<Turn>
    ensures { IfOk result (λ t. t ≡ rows.visit_answered tour.now site at (tell.Volume (volumes.ListVols listed.now))) }
{
    match at {
        Visiting::Stamps => takes_or_makes(alloc, tour, site, listed.as_slice()),
        _ => Ok(Turn::Passes),
    }
}

/// A transaction was opened.
fn opened(alloc: Global, tour: &Tour, site: u32, at: Visiting, opened: u32) -> Mem<Turn>
    ensures { IfOk result (λ t. t ≡ rows.visit_answered tour.now site at (tell.Volume (volumes.TransCreate opened))) }
{
    match at {
        Visiting::Takes => visits(
            alloc,
            tour,
            site,
            Visiting::Opens {
                transaction: opened,
            },
        ),
        Visiting::Opens { transaction } => visits(
            alloc,
            tour,
            site,
            Visiting::Sends {
                transaction,
                clone: opened,
            },
        ),
        _ => Ok(Turn::Passes),
    }
}

/// The read-only volume was made.
fn made(alloc: Global, tour: &Tour, site: u32, at: Visiting, transaction: u32) -> Mem<Turn>
    ensures { IfOk result (λ t. t ≡ rows.visit_answered tour.now site at (tell.Volume (volumes.CreateVolume transaction))) }
{
    match at {
        Visiting::Makes => visits(alloc, tour, site, Visiting::Opens { transaction }),
        _ => Ok(Turn::Passes),
    }
}

/// The clone was taken over.
fn forwarded(alloc: Global, tour: &Tour, site: u32, at: Visiting) -> Mem<Turn>
    ensures { IfOk result (λ t. t ≡ rows.visit_answered tour.now site at (tell.Volume volumes.Forward)) }
{
    match at {
        Visiting::Sends { transaction, clone } => {
            visits(alloc, tour, site, Visiting::Closes { transaction, clone })
        }
        _ => Ok(Turn::Passes),
    }
}

/// The read-only volume is in service.
fn flagged(alloc: Global, tour: &Tour, site: u32, at: Visiting) -> Mem<Turn>
    ensures { IfOk result (λ t. t ≡ rows.visit_answered tour.now site at (tell.Volume volumes.SetFlags)) }
{
    match at {
        Visiting::Sets { transaction } => visits(alloc, tour, site, Visiting::Ends { transaction }),
        _ => Ok(Turn::Passes),
    }
}

/// A transaction was ended.
fn ended(alloc: Global, tour: &Tour, site: u32, at: Visiting) -> Mem<Turn>
    ensures { IfOk result (λ t. t ≡ rows.visit_answered tour.now site at (tell.Volume volumes.EndTrans)) }
{
    match at {
        Visiting::Closes {
            transaction,
            clone: _,
        } => visits(alloc, tour, site, Visiting::Sets { transaction }),
        Visiting::Ends { transaction: _ } => reaches(alloc, tour, site),
        Visiting::Leaves { code, clone: _ } => skips(alloc, tour, code),
        _ => Ok(Turn::Passes),
    }
}

/// Where a reply of a volume server leads, by its kind.
fn told(alloc: Global, tour: &Tour, site: u32, at: Visiting, reply: &VolReply) -> Mem<Turn>
    ensures { IfOk result (λ t. t ≡ rows.visit_answered tour.now site at (tell.Volume reply.now)) }
{
    match reply {
        VolReply::ListVols { volumes } => stamped(alloc, tour, site, at, volumes),
        VolReply::TransCreate { transaction } => opened(alloc, tour, site, at, *transaction),
        VolReply::CreateVolume { transaction } => made(alloc, tour, site, at, *transaction),
        VolReply::Forward => forwarded(alloc, tour, site, at),
        VolReply::SetFlags => flagged(alloc, tour, site, at),
        VolReply::EndTrans => ended(alloc, tour, site, at),
        _ => Ok(Turn::Passes),
    }
}

/// Where a reply leads at this site.
pub fn answered(alloc: Global, tour: &Tour, site: u32, at: Visiting, reply: &Reply) -> Mem<Turn>
    ensures { IfOk result (λ t. t ≡ rows.visit_answered tour.now site at reply.now) }
{
    match reply {
        Reply::Volume(reply) => told(alloc, tour, site, at, reply),
        _ => Ok(Turn::Passes),
    }
}

// ---- where refusals lead

/// The site is skipped with this code, unless the later one says that another administrator has the entry.
fn site_fails(alloc: Global, tour: &Tour, code: Code, late: Code) -> Mem<Turn>
    ensures { IfOk result (λ t. t ≡ rows.site_fails tour.now code late) }
{
    if is_superseded(late) {
        return Ok(Turn::Ends { code: late });
    }
    skips(alloc, tour, code)
}

/// The same where a transaction of the clone stands open: it is ended first.
fn site_fails_open(alloc: Global, tour: &Tour, site: u32, clone: u32, code: Code) -> Mem<Turn>
    ensures { IfOk result (λ t. t ≡ rows.site_fails_open tour.now site clone code) }
{
    if is_superseded(code) {
        return Ok(Turn::Ends { code });
    }
    visits(alloc, tour, site, Visiting::Leaves { code, clone })
}

/// Where a refusal leads at this site. That the transaction of the clone couldn't be ended isn't looked at.
pub fn refused(alloc: Global, tour: &Tour, site: u32, at: Visiting, code: Code) -> Mem<Turn>
    ensures { IfOk result (λ t. t ≡ rows.visit_refused tour.now site at code) }
{
    match at {
        Visiting::Sends {
            transaction: _,
            clone,
        } => site_fails_open(alloc, tour, site, clone, code),
        Visiting::Leaves {
            code: first,
            clone: _,
        } => site_fails(alloc, tour, first, code),
        _ => site_fails(alloc, tour, code, code),
    }
}
