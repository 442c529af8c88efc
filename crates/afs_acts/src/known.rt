//! Where volumes are, as a client knows it.

ghost use Rattle.std.specs.Prelude.{◌≡◌, ◌<◌, ◌&&◌, ◌++◌, ◌∷◌, [], IfOk, IfSome, List, OnOk, find, length, nat_eq};
ghost use Rattle.std.specs.List.{All, AllByRecursion, list_any};
ghost use Rattle.std.specs.Option.{option_copied, option_map};
ghost use Rattle.spec_history.specs.declared.scripts.VolumeLine.{VolumeLine};
ghost use Rattle.afs_num.specs.Nodes.{IsNode};
ghost use Rattle.std.specs.Str.{bytes_eq};
ghost use Rattle.spec_ideal.specs.Volumes.{has_bit};
ghost use Rattle.afs_num.specs.declared.location_calls.LocEntry.{LocEntry as Known};
ghost use Rattle.afs_num.specs.declared.location_calls.LocSite.{LocSite as KnownSite};
ghost use Rattle.spec_records.specs.Entries.{entry_of_line, is_read_write, read_write_site, same_entry, same_numbers, same_sites};
ghost use Rattle.spec_rows.specs.ClientRow.{home_of, stands_for};
ghost use Rattle.spec_rows.specs.Runs.{location_by, locations_in};
ghost use Rattle.spec_shape.specs.Tables.{IsEntry, IsServer, IsSite};
ghost use Rattle.afs_acts.specs.Acts.{HasServer, first_volume_line};
ghost use Rattle.afs_acts.specs.Located.{Puts, sites_from};

use crate::copies::copy_entry;
use afs_num::location_calls::{LocEntry, LocSite, LocSites};
use afs_num::types::{Mem, Node};
use spec_history::scripts::{VolumeLine, VolumeLines};
use std::alloc::Global;
use std::marker::Model;
use std::sync::Arc;

/// The flag of the site of a read-write volume.
const READ_WRITE_SITE: u32 = 4;

/// The flag of a family that has a read-write volume.
const EXISTS_READ_WRITE: u32 = 4_096;

/// What a client knows of a volume: the entry of the location database, and the server that it names, which is looked up once. A copy
/// shares the entry.
#[derive(Drop)]
pub struct Location {
    entry: Arc<LocEntry>,
    server: u8,
}

impl Model for Location {
    ghost use Rattle.std.specs.Prelude.{◌≡◌};
    ghost use Rattle.std.specs.Arc.{arc_value};
    ghost use Rattle.std.specs.List.{AllByRecursion};
    ghost use Rattle.spec_shape.specs.Tables.{IsSite};
    ghost use Rattle.afs_num.specs.Nodes.{IsNode};
    ghost use Rattle.afs_num.specs.declared.location_calls.LocEntry.{LocEntry};
    ghost use Rattle.afs_num.specs.declared.types.Node.{Node};
    ghost use Rattle.spec_rows.specs.ClientRow.{home_of};

    ghost Value = { LocEntry };

    ghost view = { λ l. arc_value l.entry };

    ghost invariant = { λ l. record { home : home_of (arc_value l.entry) ≡ l.server; node : IsNode (Node.Server l.server); sites : AllByRecursion IsSite (arc_value l.entry).sites } };
}

fn is_read_write(site: &LocSite) -> bool
    ensures { result ≡ is_read_write site.now }
{
    site.flags & READ_WRITE_SITE != 0
}

/// The site of the read-write volume.
fn find_site(entry: &LocEntry) -> Option<&LocSite>
    requires { IsEntry entry.now }
    ensures found { option_copied result ≡ find is_read_write entry.now.sites }
    ensures server { IfSome result (λ s. IsServer s.now.server) }
{
    entry
        .sites
        .as_slice()
        .iter()
        .find(|site| is_read_write(site))
}

/// The server of the read-write volume; the first where there is none.
fn home_of(entry: &LocEntry) -> u8
    requires { IsEntry entry.now }
    ensures value { result ≡ home_of entry.now }
    ensures node { IsNode (Node.Server result) }
{
    match find_site(entry) {
        Some(site) => site.server as u8,
        None => 1,
    }
}

impl Location {
    /// What an entry tells.
    pub fn new(alloc: Global, entry: &LocEntry) -> Mem<Location>
        requires { IsEntry entry.now }
        ensures { IfOk result (λ l. l ≡ entry.now) }
    {
        Ok(Location {
            entry: Arc::new(alloc, copy_entry(alloc, entry)?)?,
            server: home_of(entry),
        })
    }

    pub fn entry(&self) -> &LocEntry
        ensures { result.now ≡ self.now }
    {
        &self.entry
    }

    /// The sites of the entry.
    pub fn sites(&self) -> &[LocSite]
        ensures sites { result.now ≡ self.now.sites }
        ensures servers { AllByRecursion IsSite result.now }
    {
        self.entry.sites.as_slice()
    }

    pub fn server(&self) -> u8
        ensures value { result ≡ home_of self.now }
        ensures node { IsNode (Node.Server result) }
    {
        self.server
    }

    /// A copy. It is refused where the entry has as many copies as can be counted.
    fn copy(&self) -> Mem<Location>
        ensures { IfOk result (λ l. l ≡ self.now) }
    {
        Ok(Location {
            entry: self.entry.clone()?,
            server: self.server,
        })
    }
}

// ---- the table of a client at its start

fn next_line(lines: &[VolumeLine]) -> Option<(&VolumeLine, &[VolumeLine])>
    ensures value { option_map (λ r. (r.0.now, r.1.now)) result ≡ first_volume_line lines.now }
    ensures less { IfSome result (λ r. length r.1.now < length lines.now) }
{
    match lines {
        [line, rest @ ..] => Some((line, rest)),
        [] => None,
    }
}

/// Whether one of these lines has the number: of the lines with one number the last counts.
fn is_told(id: u32, lines: &[VolumeLine]) -> bool
    ensures { result ≡ list_any (λ (v : VolumeLine). nat_eq v.id id) lines.now }
{
    lines.iter().any(|line| line.id == id)
}

/// The one site of a volume at set-up.
fn first_site(alloc: Global, server: u8) -> Mem<LocSites>
    ensures { IfOk result (λ ss. ss ≡ record { server = server; flags = read_write_site } ∷ []) }
{
    let mut sites = LocSites::new(alloc);
    sites.push(LocSite {
        server: server as u32,
        flags: READ_WRITE_SITE,
    })?;
    Ok(sites)
}

/// The entry of a volume at set-up. It has no copies.
fn entry_of_line(alloc: Global, volume: &VolumeLine) -> Mem<LocEntry>
    ensures { IfOk result (λ e. e ≡ entry_of_line volume.now) }
{
    let sites = first_site(alloc, volume.server)?;
    Ok(LocEntry {
        name: volume.name.copy(alloc)?,
        read_write: volume.id,
        read_only: 0,
        backup: 0,
        flags: EXISTS_READ_WRITE,
        sites,
    })
}

/// Where a volume is at set-up.
fn first_location(alloc: Global, volume: &VolumeLine) -> Mem<Location>
    requires { HasServer volume.now }
    ensures { IfOk result (λ l. l ≡ entry_of_line volume.now) }
{
    let entry = entry_of_line(alloc, volume)?;
    Ok(Location {
        entry: Arc::new(alloc, entry)?,
        server: volume.server,
    })
}

/// Adds where a volume is, if its line counts.
fn add_place(
    alloc: Global,
    table: &mut Vec<Location>,
    volume: &VolumeLine,
    is_told_later: bool,
) -> Mem<()>
    requires { HasServer volume.now }
    ensures { OnOk result ((ls : List Known) → table.new.items ++ ls ≡ table.old.items ++ location_by is_told_later volume.now ls) }
{
    if is_told_later {
        return Ok(());
    }
    table.push(first_location(alloc, volume)?)?;
    Ok(())
}

/// The table of the volumes at set-up.
pub fn locations(alloc: Global, volumes: &VolumeLines) -> Mem<Vec<Location>>
    requires { All HasServer volumes.now }
    ensures { IfOk result (λ ls. ls.items ≡ locations_in volumes.now) }
{
    let mut table = Vec::new(alloc);
    let mut rest = volumes.as_slice();
    while let Some((volume, more)) = next_line(rest) {
        add_place(alloc, &mut table, volume, is_told(volume.id, more))?;
        rest = more;
    }
    Ok(table)
}

// ---- an entry comes

/// The first of these sites, and those behind it.
fn next_site(sites: &[LocSite]) -> Option<(&LocSite, &[LocSite])>
    ensures value { option_map (λ r. (r.0.now, r.1.now)) result ≡ sites_from sites.now }
    ensures less { IfSome result (λ r. length r.1.now < length sites.now) }
{
    match sites {
        [site, rest @ ..] => Some((site, rest)),
        [] => None,
    }
}

fn same_site(one: &LocSite, other: &LocSite) -> bool
    ensures { result ≡ (nat_eq one.now.server other.now.server && nat_eq one.now.flags other.now.flags) }
{
    one.server == other.server && one.flags == other.flags
}

fn same_sites(sites: &[LocSite], others: &[LocSite]) -> bool
    ensures { result ≡ same_sites sites.now others.now }
{
    let mut left = sites;
    let mut right = others;
    while let Some((site, rest)) = next_site(left) {
        let Some((other, more)) = next_site(right) else {
            return false;
        };
        if !same_site(site, other) {
            return false;
        }
        left = rest;
        right = more;
    }
    right.is_empty()
}

fn same_numbers(entry: &LocEntry, other: &LocEntry) -> bool
    ensures { result ≡ same_numbers entry.now other.now }
{
    entry.read_write == other.read_write
        && (entry.read_only == other.read_only && entry.backup == other.backup)
}

fn same_name(entry: &LocEntry, other: &LocEntry) -> bool
    ensures { result ≡ bytes_eq entry.now.name other.now.name }
{
    entry.name.as_slice() == other.name.as_slice()
}

/// Whether two entries are the same in all.
fn same_entry(entry: &LocEntry, other: &LocEntry) -> bool
    ensures { result ≡ same_entry entry.now other.now }
{
    same_name(entry, other)
        && (same_numbers(entry, other)
            && (entry.flags == other.flags
                && same_sites(entry.sites.as_slice(), other.sites.as_slice())))
}

/// Whether an entry that comes takes the place of this one: they have the same name, or the same number.
fn stands_for(entry: &LocEntry, known: &LocEntry) -> bool
    ensures { result ≡ stands_for entry.now known.now }
{
    same_name(known, entry) || known.read_write == entry.read_write
}

/// The table with an entry that comes, which takes the place of all that have its name or its number. There is no such table where this
/// one has just that entry.
pub fn with_location(
    alloc: Global,
    table: &[Location],
    location: Location,
) -> Mem<Option<Vec<Location>>>
    ensures { IfOk result (λ t. Puts location table.now (option_map (λ v. v.items) t)) }
{
    let mut placed = Vec::with_capacity(alloc, table.len() + 1)?;
    for known in table {
        if same_entry(location.entry(), known.entry()) {
            return Ok(None);
        }
        if !stands_for(location.entry(), known.entry()) {
            placed.push(known.copy()?)?;
        }
    }
    placed.push(location)?;
    Ok(Some(placed))
}
