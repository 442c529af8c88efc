//! Entries and locks in a record.

ghost use Rattle.std.specs.Prelude.{◌≡◌, ◌++◌, OnOk};
ghost use Rattle.spec_records.specs.LocRecords.{deed_form, deed_made, entry_form, is_no_entry, listed_form, lock_form, site_form, sites_form};
ghost use Rattle.spec_shape.specs.Rows.{empty_entry};
ghost use Rattle.afs_record.specs.Reading.{GivesForm, ReadsForm};

use crate::types::{Deed, Doing, Listed, Lock};
use afs_num::location_calls::{LocEntry, LocSite, LocSites};
use afs_num::types::Mem;
use afs_record::faults::RecordFault;
use afs_record::forms::{Form, flag_number, read_flag, read_server, read_text};
use afs_record::lists::ListOf;
use afs_xdr::reading::Reader;
use afs_xdr::writing::Writer;
use std::alloc::Global;

/// The most bytes of a volume's name.
const MOST_NAME: u32 = 32;

/// The most sites of an entry.
const MOST_SITES: usize = 16;

/// What a deed does, in its first word.
const SETS: u32 = 0;

const REMOVES: u32 = 1;

const LEAVES: u32 = 2;

/// A server, and the flags of what it has.
struct Site;

impl Form for Site {
    type Value = LocSite;

    ghost form = { site_form };

    fn read(_alloc: Global, r: &mut Reader) -> Result<LocSite, RecordFault> {
        let server = read_server(r)?;
        let flags = r.word()?;
        Ok(LocSite { server, flags })
    }

    fn write(value: &LocSite, w: &mut Writer) -> Mem<()> {
        w.words(&[value.server, value.flags])
    }
}

/// Reads sites.
fn read_sites(alloc: Global, r: &mut Reader) -> Result<LocSites, RecordFault>
    ensures { ReadsForm sites_form.at (λ s. s) r.old r.new result }
{
    let sites = ListOf::<Site>::read(alloc, r)?;
    if sites.len() > MOST_SITES {
        return Err(RecordFault::NoForm);
    }
    Ok(sites)
}

/// Reads an entry.
#[tactic(auto, unfolding(spec_records::specs::LocRecords::entry_form))]
fn read_entry(alloc: Global, r: &mut Reader) -> Result<LocEntry, RecordFault>
    ensures { ReadsForm entry_form.at (λ e. e) r.old r.new result }
{
    let name = read_text(alloc, r, MOST_NAME)?;
    let read_write = r.word()?;
    let read_only = r.word()?;
    let backup = r.word()?;
    let flags = r.word()?;
    let sites = read_sites(alloc, r)?;
    Ok(LocEntry {
        name,
        read_write,
        read_only,
        backup,
        flags,
        sites,
    })
}

/// Appends an entry.
#[tactic(auto, unfolding(spec_records::specs::LocRecords::entry_form))]
fn write_entry(entry: &LocEntry, w: &mut Writer) -> Mem<()>
    requires { entry_form.Fits entry.now }
    ensures { OnOk result (w.new ≡ w.old ++ entry_form.spelled entry.now) }
{
    w.opaque(entry.name.as_slice())?;
    w.words(&[entry.read_write, entry.read_only, entry.backup, entry.flags])?;
    ListOf::<Site>::write(&entry.sites, w)
}

/// Appends an entry all of whose fields are 0 or empty.
#[tactic(auto, unfolding(spec_records::specs::LocRecords::entry_form))]
fn write_no_entry(w: &mut Writer) -> Mem<()>
    ensures { OnOk result (w.new ≡ w.old ++ entry_form.spelled empty_entry) }
{
    w.opaque(&[])?;
    w.words(&[0, 0, 0, 0, 0])
}

/// Reads a lock. Where none is held, each of its words is 0.
fn read_lock(r: &mut Reader) -> Result<Option<Lock>, RecordFault>
    ensures { ReadsForm lock_form.at (λ l. l) r.old r.new result }
{
    let operation = r.word()?;
    let stamp = r.word()?;
    let forced = read_flag(r)?;
    if operation != 0 {
        return Ok(Some(Lock {
            operation,
            stamp,
            forced,
        }));
    }
    if stamp == 0 && !forced {
        Ok(None)
    } else {
        Err(RecordFault::NoForm)
    }
}

/// Appends a lock.
fn write_lock(lock: &Option<Lock>, w: &mut Writer) -> Mem<()>
    requires { lock_form.Fits lock.now }
    ensures { OnOk result (w.new ≡ w.old ++ lock_form.spelled lock.now) }
{
    match lock {
        Some(lock) => w.words(&[lock.operation, lock.stamp, flag_number(lock.forced)]),
        None => w.words(&[0, 0, 0]),
    }
}

/// An entry with its lock.
pub(crate) struct OneListed;

impl Form for OneListed {
    type Value = Listed;

    ghost form = { listed_form };

    fn read(alloc: Global, r: &mut Reader) -> Result<Listed, RecordFault> {
        let entry = read_entry(alloc, r)?;
        let lock = read_lock(r)?;
        Ok(Listed { entry, lock })
    }

    fn write(value: &Listed, w: &mut Writer) -> Mem<()> {
        write_entry(&value.entry, w)?;
        write_lock(&value.lock, w)
    }
}

/// Whether no entry is named: all its fields are 0 or empty.
fn is_no_entry(entry: &LocEntry) -> bool
    ensures { result ≡ is_no_entry entry.now }
{
    entry.name.is_empty()
        && entry.read_write == 0
        && entry.read_only == 0
        && entry.backup == 0
        && entry.flags == 0
        && entry.sites.is_empty()
}

/// What a word, an entry and its lock say is done.
fn deed_made(word: u32, listed: Listed) -> Result<Deed, RecordFault>
    ensures { GivesForm (deed_made (word, listed)) result }
{
    let Listed { entry, lock } = listed;
    match word {
        SETS => Ok(Deed {
            doing: Doing::Sets(Listed { entry, lock }),
        }),
        REMOVES => match lock {
            Some(_) => Err(RecordFault::NoForm),
            None => Ok(Deed {
                doing: Doing::Removes(entry),
            }),
        },
        LEAVES => {
            if is_no_entry(&entry) && lock.is_none() {
                Ok(Deed {
                    doing: Doing::Leaves,
                })
            } else {
                Err(RecordFault::NoForm)
            }
        }
        _ => Err(RecordFault::NoForm),
    }
}

/// Reads a deed.
pub(crate) fn read_deed(alloc: Global, r: &mut Reader) -> Result<Deed, RecordFault>
    ensures { ReadsForm deed_form.at (λ d. d) r.old r.new result }
{
    let word = r.word()?;
    let listed = OneListed::read(alloc, r)?;
    deed_made(word, listed)
}

/// Appends a deed. Where it names no entry, all fields of one are 0 or empty.
pub(crate) fn write_deed(deed: &Deed, w: &mut Writer) -> Mem<()>
    requires { deed_form.Fits deed.now }
    ensures { OnOk result (w.new ≡ w.old ++ deed_form.spelled deed.now) }
{
    match &deed.doing {
        Doing::Sets(listed) => {
            w.word(SETS)?;
            OneListed::write(listed, w)
        }
        Doing::Removes(entry) => {
            w.word(REMOVES)?;
            write_entry(entry, w)?;
            write_lock(&None, w)
        }
        Doing::Leaves => {
            w.word(LEAVES)?;
            write_no_entry(w)?;
            write_lock(&None, w)
        }
    }
}
