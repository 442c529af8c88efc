//! Where an act stands among the sites of a read-only volume.

ghost use Rattle.std.specs.Prelude.{◌≡◌, Some, IfOk, IfSome, filter, map, slice_get};
ghost use Rattle.std.specs.List.{AllByRecursion};
ghost use Rattle.std.specs.Option.{option_copied, option_map};
ghost use Rattle.afs_acts.specs.Named.{operand_at};
ghost use Rattle.spec_adminrows.specs.Entries.{is_read_only_site};
ghost use Rattle.spec_adminrows.specs.Releasing.{server_of};
ghost use Rattle.spec_copyrows.specs.Sites.{behind_first, code_or_dead, entry_located, is_read_only_of, left_line, new_round, round_begun, round_by_entry, round_or};
ghost use Rattle.afs_num.specs.Nodes.{IsNode};
ghost use Rattle.spec_rows.specs.Going.{operand_in};
ghost use Rattle.spec_shape.specs.Tables.{IsServer};

use afs_acts::{Going, Location, Place, find_place};
use afs_num::location_calls::{LocEntry, LocSite};
use afs_num::types::{Code, Mem, Node};
use spec_history::lines::Line;
use std::alloc::Global;
use std::marker::Model;

/// The flag of a site of a read-only volume.
const READ_ONLY_SITE: u32 = 2;

/// The call was given up.
const DEAD: Code = Code(-1);

/// Where an act stands among the sites of a read-only volume: those that it hasn't left, the one that it calls first; the last release that
/// one of them offered and that was below the highest seen; and the last code, other than 106 and 110, with which one refused.
#[derive(Drop)]
pub struct Round {
    volume: u32,
    sites: Vec<u32>,
    offered: Option<u32>,
    refusal: Option<Code>,
}

impl Model for Round {
    ghost use Rattle.std.specs.List.{AllByRecursion};
    ghost use Rattle.spec_copyrows.specs.Sites.{Round};
    ghost use Rattle.spec_shape.specs.Tables.{IsServer};

    ghost Value = { Round };

    ghost view = { λ r. record { volume = r.volume; sites = r.sites.items; offered = r.offered; refusal = r.refusal } };

    ghost invariant = { λ r. AllByRecursion IsServer r.sites.items };
}

fn is_read_only_site(site: &LocSite) -> bool
    ensures { result ≡ is_read_only_site site.now }
{
    site.flags & READ_ONLY_SITE != 0
}

/// The servers of the sites of a read-only volume.
fn read_only_servers(alloc: Global, sites: &[LocSite]) -> Mem<Vec<u32>>
    ensures { IfOk result (λ ss. ss.items ≡ map server_of (filter is_read_only_site sites.now)) }
{
    let mut servers = Vec::new(alloc);
    for site in sites {
        if is_read_only_site(site) {
            servers.push(site.server)?;
        }
    }
    Ok(servers)
}

fn copy_sites(alloc: Global, sites: &[u32]) -> Mem<Vec<u32>>
    ensures { IfOk result (λ ss. ss.items ≡ sites.now) }
{
    let mut copy = Vec::with_capacity(alloc, sites.len())?;
    copy.extend_from_slice(sites)?;
    Ok(copy)
}

fn first_server(sites: &[u32]) -> Option<u8>
    requires { AllByRecursion IsServer sites.now }
    ensures value { result ≡ slice_get sites.now 0 }
    ensures node { IfSome result (λ server. IsNode (Node.Server server)) }
{
    match sites {
        [server, ..] => Some(*server as u8),
        [] => None,
    }
}

fn leave_first(sites: &mut Vec<u32>)
    ensures { sites.new.items ≡ behind_first sites.old.items }
{
    if !sites.is_empty() {
        sites.remove(0);
    }
}

/// Whether the entry's read-only volume has this number.
fn is_read_only_of(volume: u32, entry: &LocEntry) -> bool
    ensures { result ≡ is_read_only_of volume entry.now }
{
    volume != 0 && entry.read_only == volume
}

impl Round {
    /// Through all sites of the entry's read-only volume.
    fn begun(alloc: Global, volume: u32, location: &Location) -> Mem<Round>
        ensures { IfOk result (λ r. r ≡ new_round volume location.now) }
    {
        Ok(Round {
            volume,
            sites: read_only_servers(alloc, location.sites())?,
            offered: None,
            refusal: None,
        })
    }

    /// A copy.
    pub fn copy(&self, alloc: Global) -> Mem<Round>
        ensures { IfOk result (λ r. r ≡ self.now) }
    {
        Ok(Round {
            volume: self.volume,
            sites: copy_sites(alloc, &self.sites)?,
            offered: self.offered,
            refusal: self.refusal,
        })
    }

    /// The number of the volume.
    pub fn volume(&self) -> u32
        ensures { result ≡ self.now.volume }
    {
        self.volume
    }

    /// The site that it calls: the first of those that it hasn't left.
    pub fn first(&self) -> Option<u8>
        ensures value { result ≡ slice_get self.now.sites 0 }
        ensures node { IfSome result (λ server. IsNode (Node.Server server)) }
    {
        first_server(&self.sites)
    }

    /// It leaves the site that it called last.
    pub fn leave(&mut self)
        ensures { self.new ≡ record self.old { sites = behind_first self.old.sites } }
    {
        leave_first(&mut self.sites);
    }

    /// A site offered a release below the highest seen.
    pub fn note_offer(&mut self, release: u32)
        ensures { self.new ≡ record self.old { offered = Some release } }
    {
        self.offered = Some(release);
    }

    /// A site refused.
    pub fn note_refusal(&mut self, code: Code)
        ensures { self.new ≡ record self.old { refusal = Some code } }
    {
        self.refusal = Some(code);
    }

    /// The code that is the answer where all sites are left and none offered an older release.
    fn code(&self) -> Code
        ensures { result ≡ code_or_dead self.now.refusal }
    {
        match self.refusal {
            Some(code) => code,
            None => DEAD,
        }
    }

    /// The answer where all sites are left.
    pub fn left_line(&self, node: Node, seen: u32) -> Line
        ensures { result ≡ left_line node self.now seen }
    {
        match self.offered {
            Some(release) => Line::Older {
                node,
                offered: release,
                seen,
            },
            None => Line::Answer {
                node,
                code: self.code(),
            },
        }
    }
}

/// What the table has of an operand.
fn entry_at<'a>(table: &'a [Location], place: Option<Place<'_>>) -> Option<&'a Location>
    ensures { option_copied result ≡ entry_located table.now (option_map operand_at place.entry) }
{
    match place {
        Some(place) => find_place(table, place),
        None => None,
    }
}

/// A new round, where the volume is the read-only one of this entry.
fn round_by_entry(alloc: Global, volume: u32, location: Option<&Location>) -> Mem<Option<Round>>
    ensures { IfOk result (λ r. r ≡ round_by_entry volume (option_copied location.entry)) }
{
    match location {
        Some(location) if is_read_only_of(volume, location.entry()) => {
            Ok(Some(Round::begun(alloc, volume, location)?))
        }
        _ => Ok(None),
    }
}

/// A copy of the round that was begun, where it is in this volume.
fn round_begun(alloc: Global, volume: u32, begun: Option<&Round>) -> Mem<Option<Round>>
    ensures { IfOk result (λ r. r ≡ round_begun volume (option_copied begun.entry)) }
{
    match begun {
        Some(round) if round.volume == volume => Ok(Some(round.copy(alloc)?)),
        _ => Ok(None),
    }
}

/// The round of an act in a volume: the one that was begun there, else a new one, where the volume is the read-only one of its operand's
/// entry.
pub fn round_for(
    alloc: Global,
    begun: Option<&Round>,
    table: &[Location],
    going: &Going,
    volume: u32,
) -> Mem<Option<Round>>
    ensures { IfOk result (λ r. r ≡ round_or (round_begun volume (option_copied begun.entry)) (round_by_entry volume (entry_located table.now (operand_in going.now volume)))) }
{
    match round_begun(alloc, volume, begun)? {
        Some(round) => Ok(Some(round)),
        None => round_by_entry(alloc, volume, entry_at(table, going.place_in(volume))),
    }
}
