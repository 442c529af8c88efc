//! A release (`vos release`): a clone of the volume goes to each site of the read-only volume. What is done at one site stands in
//! `visiting`.

ghost use Rattle.std.specs.Prelude.{◌≡◌, [], map, filter, IfOk};
ghost use Rattle.afs_num.specs.declared.location_calls.LocReply.TheVariants as entries;
ghost use Rattle.afs_num.specs.declared.messages.Reply.TheVariants as tell;
ghost use Rattle.afs_num.specs.declared.volume_calls.VolReply.TheVariants as volumes;
ghost use Rattle.spec_adminrows.specs.Entries.{is_read_only_site};
ghost use Rattle.spec_adminrows.specs.Releasing as rows;
ghost use Rattle.spec_adminrows.specs.declared.places.Touring.TheVariants as places;
ghost use Rattle.afs_adminparts.specs.Fitting.{FitsHold, FitsTour};

use afs_adminparts::asking::{BUSY, OFFLINE, READ_ONLY, at_home, family, held_at_loc};
use afs_adminparts::copies::copied;
use afs_adminparts::entries::{entry_released, is_read_only_site};
use afs_adminparts::turning::{FINE, code_or, fails};
use afs_num::location_calls::{LocCall, LocReply, LocSite};
use afs_num::messages::Reply;
use afs_num::sequences::Octets;
use afs_num::types::{Code, Mem};
use afs_num::volume_calls::{ListedVolumes, VolCall, VolReply};
use spec_adminrows::places::{
    Hold, Place, Releasing, Servers, SharedHold, Tour, Touring, Visiting,
};
use spec_adminrows::turns::{Ask, Turn};
use std::alloc::Global;

// ---- what is asked

/// What is asked before the clone has its number.
pub fn asks(hold: &Hold, at: Releasing) -> Ask
    requires fits { FitsHold hold.now }
    ensures { result ≡ rows.release_asks hold.now at }
{
    match at {
        Releasing::Stamps => at_home(
            hold,
            VolCall::ListVols {
                family: family(hold),
            },
        ),
        Releasing::Numbers | Releasing::NumbersClone { .. } => {
            held_at_loc(hold, LocCall::GetNewVolumeId)
        }
    }
}

/// The clone is made.
fn clone_asks(alloc: Global, name: &Octets, tour: &Tour, transaction: u32) -> Mem<Ask>
    requires fits { FitsTour tour.now }
    ensures { IfOk result (λ a. a ≡ rows.tour_asks name.now tour.now (places.Clones transaction)) }
{
    let name = name.copy(alloc)?;
    let hold = tour.hold.get();
    Ok(at_home(
        hold,
        VolCall::Clone {
            family: family(hold),
            transaction,
            volume: tour.clone,
            name,
            kind: READ_ONLY,
        },
    ))
}

/// The entry names the read-only volume, and no site that was reached is new any more.
fn write_asks(alloc: Global, tour: &Tour) -> Mem<Ask>
    ensures { IfOk result (λ a. a ≡ rows.tour_asks [] tour.now places.Writes) }
{
    let hold = tour.hold.get();
    let entry = entry_released(alloc, tour.read_only, &tour.reached, &hold.entry)?;
    Ok(held_at_loc(
        hold,
        LocCall::ReplaceEntry {
            volume: family(hold),
            entry,
        },
    ))
}

/// What is asked before the first site and behind the last one.
pub fn tour_asks(alloc: Global, name: &Octets, tour: &Tour, at: Touring) -> Mem<Ask>
    requires fits { FitsTour tour.now }
    ensures { IfOk result (λ a. a ≡ rows.tour_asks name.now tour.now at) }
{
    let hold = tour.hold.get();
    let family = family(hold);
    match at {
        Touring::Begins => Ok(at_home(
            hold,
            VolCall::TransCreate {
                family,
                volume: family,
                flags: BUSY,
            },
        )),
        Touring::Clones { transaction } => clone_asks(alloc, name, tour, transaction),
        Touring::Cloned { transaction } => {
            Ok(at_home(
                hold,
                VolCall::EndTrans {
                    family,
                    transaction,
                },
            ))
        }
        Touring::Drops => Ok(at_home(
            hold,
            VolCall::TransCreate {
                family,
                volume: tour.clone,
                flags: OFFLINE,
            },
        )),
        Touring::Dropped { transaction } => {
            Ok(at_home(
                hold,
                VolCall::DeleteVolume {
                    family,
                    transaction,
                },
            ))
        }
        Touring::Writes => write_asks(alloc, tour),
    }
}

// ---- where replies lead, before the clone has its number

/// The release goes on at this step.
pub fn releases(hold: &SharedHold, at: Releasing) -> Mem<Turn>
    ensures { IfOk result (λ t. t ≡ rows.releases hold.now at) }
{
    Ok(Turn::Goes {
        place: Place::Releases {
            hold: hold.copy()?,
            at,
        },
    })
}

/// The entry may have a number for the read-only volume already.
fn numbers(hold: &SharedHold) -> Mem<Turn>
    ensures { IfOk result (λ t. t ≡ rows.numbers_clone hold.now hold.now.entry.read_only) }
{
    let read_only = hold.get().entry.read_only;
    if read_only == 0 {
        return releases(hold, Releasing::Numbers);
    }
    releases(hold, Releasing::NumbersClone { read_only })
}

/// The servers of the read-only volume's sites, in the entry's order.
fn sites_of(alloc: Global, sites: &[LocSite]) -> Mem<Servers>
    ensures { IfOk result (λ s. s ≡ map rows.server_of (filter is_read_only_site sites.now)) }
{
    let mut servers = Servers::new(alloc);
    for site in sites {
        if is_read_only_site(site) {
            servers.push(site.server)?;
        }
    }
    Ok(servers)
}

/// Both volumes have their numbers: the tour begins.
fn tour_begins(alloc: Global, hold: &SharedHold, read_only: u32, clone: u32) -> Mem<Turn>
    ensures { IfOk result (λ t. t ≡ rows.tours (rows.tour_of hold.now read_only clone) places.Begins) }
{
    let left = sites_of(alloc, hold.get().entry.sites.as_slice())?;
    let tour = Tour {
        hold: hold.copy()?,
        read_only,
        clone,
        first: None,
        reached: Servers::new(alloc),
        left,
    };
    Ok(Turn::Goes {
        place: Place::Tours {
            tour,
            at: Touring::Begins,
        },
    })
}

/// A number came.
fn numbered(alloc: Global, hold: &SharedHold, at: Releasing, volume: u32) -> Mem<Turn>
    ensures { IfOk result (λ t. t ≡ rows.release_answered hold.now at (tell.Location (entries.GetNewVolumeId volume))) }
{
    match at {
        Releasing::Stamps => Ok(Turn::Passes),
        Releasing::Numbers => releases(hold, Releasing::NumbersClone { read_only: volume }),
        Releasing::NumbersClone { read_only } => tour_begins(alloc, hold, read_only, volume),
    }
}

/// The server has the stamp; what it listed isn't looked at.
fn stamped(hold: &SharedHold, at: Releasing, listed: &ListedVolumes) -> Mem<Turn>
    ensures { IfOk result (λ t. t ≡ rows.release_answered hold.now at (tell.Volume (volumes.ListVols listed.now))) }
{
    match at {
        Releasing::Stamps => numbers(hold),
        _ => Ok(Turn::Passes),
    }
}

/// Where a reply leads before the clone has its number.
pub fn answered(alloc: Global, hold: &SharedHold, at: Releasing, reply: &Reply) -> Mem<Turn>
    ensures { IfOk result (λ t. t ≡ rows.release_answered hold.now at reply.now) }
{
    match reply {
        Reply::Volume(VolReply::ListVols { volumes }) => stamped(hold, at, volumes),
        Reply::Location(LocReply::GetNewVolumeId { volume }) => {
            numbered(alloc, hold, at, *volume)
        }
        _ => Ok(Turn::Passes),
    }
}

// ---- where replies lead, before the first site and behind the last one

/// The tour, which a further place has.
pub fn copy_tour(alloc: Global, tour: &Tour) -> Mem<Tour>
    ensures { IfOk result (λ r. r ≡ tour.now) }
{
    let reached = copied(alloc, tour.reached.as_slice())?;
    let left = copied(alloc, tour.left.as_slice())?;
    Ok(Tour {
        hold: tour.hold.copy()?,
        read_only: tour.read_only,
        clone: tour.clone,
        first: tour.first,
        reached,
        left,
    })
}

/// The release goes on at this step.
fn tours(alloc: Global, tour: &Tour, at: Touring) -> Mem<Turn>
    ensures { IfOk result (λ t. t ≡ rows.tours tour.now at) }
{
    Ok(Turn::Goes {
        place: Place::Tours {
            tour: copy_tour(alloc, tour)?,
            at,
        },
    })
}

/// The tour with these codes and servers behind it, and with those before it.
fn toured(tour: &Tour, first: Option<Code>, reached: Servers, left: Servers) -> Mem<Tour>
    ensures { IfOk result (λ r. r ≡ record tour.now { first = first; reached = reached; left = left }) }
{
    Ok(Tour {
        hold: tour.hold.copy()?,
        read_only: tour.read_only,
        clone: tour.clone,
        first,
        reached,
        left,
    })
}

/// The next site, or the end of the tour.
pub fn tours_on(alloc: Global, tour: &Tour, first: Option<Code>, reached: Servers) -> Mem<Turn>
    ensures { IfOk result (λ t. t ≡ rows.tours_on (record tour.now { first = first; reached = reached })) }
{
    match tour.left.as_slice() {
        [] => Ok(Turn::Goes {
            place: Place::Tours {
                tour: toured(tour, first, reached, Servers::new(alloc))?,
                at: Touring::Drops,
            },
        }),
        [site, left @ ..] => {
            let left = copied(alloc, left)?;
            Ok(Turn::Goes {
                place: Place::Visits {
                    tour: toured(tour, first, reached, left)?,
                    site: *site,
                    at: Visiting::Stamps,
                },
            })
        }
    }
}

/// A transaction was opened.
fn opened(alloc: Global, tour: &Tour, at: Touring, transaction: u32) -> Mem<Turn>
    ensures { IfOk result (λ t. t ≡ rows.tour_answered tour.now at (tell.Volume (volumes.TransCreate transaction))) }
{
    match at {
        Touring::Begins => tours(alloc, tour, Touring::Clones { transaction }),
        Touring::Drops => tours(alloc, tour, Touring::Dropped { transaction }),
        _ => Ok(Turn::Passes),
    }
}

/// The clone was made.
fn cloned(alloc: Global, tour: &Tour, at: Touring, counter: u32, release: u32) -> Mem<Turn>
    ensures { IfOk result (λ t. t ≡ rows.tour_answered tour.now at (tell.Volume (volumes.Clone counter release))) }
{
    match at {
        Touring::Clones { transaction } => tours(alloc, tour, Touring::Cloned { transaction }),
        _ => Ok(Turn::Passes),
    }
}

/// The clone's transaction was ended: the first site comes.
fn ended(alloc: Global, tour: &Tour, at: Touring) -> Mem<Turn>
    ensures { IfOk result (λ t. t ≡ rows.tour_answered tour.now at (tell.Volume volumes.EndTrans)) }
{
    match at {
        Touring::Cloned { transaction: _ } => {
            let reached = copied(alloc, tour.reached.as_slice())?;
            tours_on(alloc, tour, tour.first, reached)
        }
        _ => Ok(Turn::Passes),
    }
}

/// The clone was deleted.
fn deleted(alloc: Global, tour: &Tour, at: Touring) -> Mem<Turn>
    ensures { IfOk result (λ t. t ≡ rows.tour_answered tour.now at (tell.Volume volumes.DeleteVolume)) }
{
    match at {
        Touring::Dropped { transaction: _ } => tours(alloc, tour, Touring::Writes),
        _ => Ok(Turn::Passes),
    }
}

/// The lock is released. The answer is the first code with which a site was skipped.
fn releases_lock(tour: &Tour) -> Mem<Turn>
    ensures { IfOk result (λ t. t ≡ rows.releases_lock tour.now) }
{
    Ok(Turn::Goes {
        place: Place::Frees {
            hold: tour.hold.copy()?,
            code: code_or(FINE, tour.first),
            first: tour.first,
        },
    })
}

/// The entry was written.
fn written(tour: &Tour, at: Touring) -> Mem<Turn>
    ensures { IfOk result (λ t. t ≡ rows.tour_answered tour.now at (tell.Location entries.ReplaceEntry)) }
{
    match at {
        Touring::Writes => releases_lock(tour),
        _ => Ok(Turn::Passes),
    }
}

/// Where a reply of a volume server leads, by its kind.
fn tour_told(alloc: Global, tour: &Tour, at: Touring, reply: &VolReply) -> Mem<Turn>
    ensures { IfOk result (λ t. t ≡ rows.tour_answered tour.now at (tell.Volume reply.now)) }
{
    match reply {
        VolReply::TransCreate { transaction } => opened(alloc, tour, at, *transaction),
        VolReply::Clone { counter, release } => cloned(alloc, tour, at, *counter, *release),
        VolReply::EndTrans => ended(alloc, tour, at),
        VolReply::DeleteVolume => deleted(alloc, tour, at),
        _ => Ok(Turn::Passes),
    }
}

/// Where a reply leads before the first site and behind the last one.
pub fn tour_answered(alloc: Global, tour: &Tour, at: Touring, reply: &Reply) -> Mem<Turn>
    ensures { IfOk result (λ t. t ≡ rows.tour_answered tour.now at reply.now) }
{
    match reply {
        Reply::Volume(reply) => tour_told(alloc, tour, at, reply),
        Reply::Location(LocReply::ReplaceEntry) => written(tour, at),
        _ => Ok(Turn::Passes),
    }
}

/// Before the first site and behind the last one a recovery follows, behind the first code.
pub fn tour_refused(tour: &Tour, code: Code) -> Turn
    ensures { result ≡ rows.tour_refused tour.now code }
{
    fails(tour.first, code)
}
