//! What administrators write into entries of the location database. An entry is copied, and the copy changed.

ghost use Rattle.std.specs.Prelude.{◌≡◌, IfOk, [], map};
ghost use Rattle.spec_adminrows.specs.Entries as entries;
ghost use Rattle.spec_records.specs.Entries.{is_read_write, site_of};

use crate::copies::copy_entry;
use afs_num::location_calls::{LocEntry, LocSite, LocSites};
use afs_num::sequences::Octets;
use afs_num::types::Mem;
use spec_adminrows::places::Servers;
use std::alloc::Global;

/// The flags of a site: it is new; the read-only volume is there; the read-write one is.
const NEW_SITE: u32 = 1;

const READ_ONLY_SITE: u32 = 2;

const READ_WRITE_SITE: u32 = 4;

/// The flags of an entry: its family has a read-write volume, a read-only one, a backup.
const EXISTS_READ_WRITE: u32 = 4_096;

const EXISTS_READ_ONLY: u32 = 8_192;

const EXISTS_BACKUP: u32 = 16_384;

/// An entry of the database has at most so many sites.
const MOST_LISTED_SITES: usize = 8;

// ---- flags

fn with_read_only(flags: u32) -> u32
    ensures { result ≡ entries.with_bit entries.exists_read_only flags }
{
    flags | EXISTS_READ_ONLY
}

fn with_backup(flags: u32) -> u32
    ensures { result ≡ entries.with_bit entries.exists_backup flags }
{
    flags | EXISTS_BACKUP
}

fn without_backup(flags: u32) -> u32
    ensures { result ≡ entries.without_bit entries.exists_backup flags }
{
    flags & !EXISTS_BACKUP
}

fn without_new(flags: u32) -> u32
    ensures { result ≡ entries.without_bit entries.new_site flags }
{
    flags & !NEW_SITE
}

// ---- where its volumes are

fn is_read_write(site: &LocSite) -> bool
    ensures { result ≡ is_read_write site.now }
{
    site.flags & READ_WRITE_SITE != 0
}

/// Whether the read-only volume is at this site, or is to be there.
pub fn is_read_only_site(site: &LocSite) -> bool
    ensures { result ≡ entries.is_read_only_site site.now }
{
    site.flags & READ_ONLY_SITE != 0
}

/// The server of the read-write volume, 1 to 8, where the entry names one.
fn site_of(entry: &LocEntry) -> Option<u32>
    ensures { result ≡ site_of entry.now }
{
    let site = entry
        .sites
        .as_slice()
        .iter()
        .find(|site| is_read_write(site))?;
    Some(site.server)
}

/// The server of the read-write volume, 1 to 8; 0 where the entry names none.
pub fn home_in(entry: &LocEntry) -> u32
    ensures { result ≡ entries.home_in entry.now }
{
    match site_of(entry) {
        Some(server) => server,
        None => 0,
    }
}

fn is_read_only_at(server: u32, site: &LocSite) -> bool
    ensures { result ≡ entries.is_read_only_at server site.now }
{
    site.server == server && is_read_only_site(site)
}

/// Whether the read-only volume has a site at this server.
pub fn has_read_only_at(server: u32, entry: &LocEntry) -> bool
    ensures { result ≡ entries.has_read_only_at server entry.now }
{
    entry
        .sites
        .as_slice()
        .iter()
        .any(|site| is_read_only_at(server, site))
}

/// Whether an act goes on with the entry: it names the volume's server, and has no more sites than the database lists.
pub fn is_usable(entry: &LocEntry) -> bool
    ensures { result ≡ entries.is_usable entry.now }
{
    site_of(entry).is_some() && entry.sites.len() <= MOST_LISTED_SITES
}

// ---- what is written

/// A read-write volume has one site.
fn first_site(alloc: Global, server: u32) -> Mem<LocSites>
    ensures { IfOk result (λ ss. ss ≡ (entries.new_entry [] 0 server).sites) }
{
    let mut sites = LocSites::new(alloc);
    sites.push(LocSite {
        server,
        flags: READ_WRITE_SITE,
    })?;
    Ok(sites)
}

/// The entry of a new volume, which is at this server.
pub fn new_entry(alloc: Global, name: &Octets, volume: u32, server: u32) -> Mem<LocEntry>
    ensures { IfOk result (λ e. e ≡ entries.new_entry name.now volume server) }
{
    let sites = first_site(alloc, server)?;
    Ok(LocEntry {
        name: name.copy(alloc)?,
        read_write: volume,
        read_only: 0,
        backup: 0,
        flags: EXISTS_READ_WRITE,
        sites,
    })
}

/// The entry with a further site of the read-only volume, which is new.
pub fn entry_added(alloc: Global, server: u32, entry: &LocEntry) -> Mem<LocEntry>
    ensures { IfOk result (λ e. e ≡ entries.entry_added server entry.now) }
{
    let mut added = copy_entry(alloc, entry)?;
    added.sites.push(LocSite {
        server,
        flags: NEW_SITE + READ_ONLY_SITE,
    })?;
    Ok(added)
}

/// The entry with a backup of this number.
pub fn entry_backed(alloc: Global, backup: u32, entry: &LocEntry) -> Mem<LocEntry>
    ensures { IfOk result (λ e. e ≡ entries.entry_backed backup entry.now) }
{
    let mut backed = copy_entry(alloc, entry)?;
    backed.backup = backup;
    backed.flags = with_backup(entry.flags);
    Ok(backed)
}

/// A site that a release reached isn't new any more.
fn site_released(reached: &[u32], site: &LocSite) -> LocSite
    ensures { result ≡ entries.site_released reached.now site.now }
{
    if is_read_only_site(site) && reached.contains(&site.server) {
        LocSite {
            server: site.server,
            flags: without_new(site.flags),
        }
    } else {
        *site
    }
}

fn sites_released(alloc: Global, reached: &[u32], sites: &LocSites) -> Mem<LocSites>
    ensures { IfOk result (λ ss. ss ≡ map (entries.site_released reached.now) sites.now) }
{
    let mut released = LocSites::new(alloc);
    for site in sites.as_slice() {
        released.push(site_released(reached, site))?;
    }
    Ok(released)
}

/// The entry behind a release to these servers, under this number of the read-only volume.
pub fn entry_released(
    alloc: Global,
    read_only: u32,
    reached: &Servers,
    entry: &LocEntry,
) -> Mem<LocEntry>
    ensures { IfOk result (λ e. e ≡ entries.entry_released read_only reached.now entry.now) }
{
    let sites = sites_released(alloc, reached.as_slice(), &entry.sites)?;
    Ok(LocEntry {
        name: entry.name.copy(alloc)?,
        read_write: entry.read_write,
        read_only,
        backup: entry.backup,
        flags: with_read_only(entry.flags),
        sites,
    })
}

/// The read-write volume's site is at the new server.
fn site_moved(target: u32, site: &LocSite) -> LocSite
    ensures { result ≡ entries.site_moved target site.now }
{
    if is_read_write(site) {
        LocSite {
            server: target,
            flags: site.flags,
        }
    } else {
        *site
    }
}

fn sites_moved(alloc: Global, target: u32, sites: &LocSites) -> Mem<LocSites>
    ensures { IfOk result (λ ss. ss ≡ map (entries.site_moved target) sites.now) }
{
    let mut moved = LocSites::new(alloc);
    for site in sites.as_slice() {
        moved.push(site_moved(target, site))?;
    }
    Ok(moved)
}

/// The entry of a volume that moved to this server. Its backup, which was at the old one, is gone.
pub fn entry_moved(alloc: Global, target: u32, entry: &LocEntry) -> Mem<LocEntry>
    ensures { IfOk result (λ e. e ≡ entries.entry_moved target entry.now) }
{
    let sites = sites_moved(alloc, target, &entry.sites)?;
    Ok(LocEntry {
        name: entry.name.copy(alloc)?,
        read_write: entry.read_write,
        read_only: entry.read_only,
        backup: 0,
        flags: without_backup(entry.flags),
        sites,
    })
}
