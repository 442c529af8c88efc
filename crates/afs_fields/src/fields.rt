//! Fields by their kinds: one list of the kinds, from which both the reading and the writing of a field are made.

ghost use Rattle.std.specs.Prelude.{◌≡◌, ◌++◌, ◌<◌, ◌^◌, length, OnOk, OnErr, FitsSigned};
ghost use Rattle.afs_xdr.specs.Reading.{Reads, KeepsEnd};
ghost use Rattle.afs_xdr.specs.Words.{word, opaque, opaque_at, AreWords};
ghost use Rattle.spec_shape.specs.Spelling.{field_spelled, entry, entry_words, site_words, Extends, IsSpellable};
ghost use Rattle.std.specs.List.{AllByRecursion};
ghost use Rattle.spec_shape.specs.Items.{entry_at};
ghost use Rattle.spec_shape.specs.Parts.{field_of};
ghost use Rattle.spec_shape.specs.Tables.{IsInRange};
ghost use Rattle.spec_shape.specs.Reading.{ReadsField, signed_at, field_at};
ghost use Rattle.std.specs.Int.{w32, cast_unsigned};

use crate::items::{Item, read_server, read_volume_kind};
use crate::lists::{read_list, write_list};
use afs_num::calls::{AfsCallBack, AfsFetchStatus, AfsStoreStatus, AfsVolSync};
use afs_num::location_calls::LocEntry;
use afs_num::sequences::Octets;
use afs_num::types::{Fid, Mem};
use afs_xdr::faults::XdrFault;
use afs_xdr::reading::Reader;
use afs_xdr::writing::Writer;
use spec_shape::faults::FieldFault;
use spec_shape::kinds::{Field, Kind, Part};
use std::alloc::Global;

/// A volume's name in a location entry, in bytes.
const VOLUME_NAME_LIMIT: u32 = 32;

/// The sites of a location entry.
const SITE_LIMIT: u32 = 16;

/// The kinds of fields, each with how it is read and how it is written: first those of a fixed size, then those that
/// take memory, then those with a limit of their row.
macro_rules! with_kinds {
    ($arms:ident $value:tt) => {
        $arms! {
            $value
            [
                Word(Reader::word, write_word),
                Signed(read_signed, write_signed),
                VolumeKind(read_volume_kind, write_word),
                Server(read_server, write_word),
                Fid(Fid::read, Fid::write),
                StoreStatus(AfsStoreStatus::read, AfsStoreStatus::write),
                FetchStatus(AfsFetchStatus::read, AfsFetchStatus::write),
                CallBack(AfsCallBack::read, AfsCallBack::write),
                VolSync(AfsVolSync::read, AfsVolSync::write)
            ]
            [
                Entry(read_entry, write_entry)
            ]
            [
                Opaque(read_octets, write_octets),
                Fids(read_list, write_list),
                CallBacks(read_list, write_list),
                Statuses(read_list, write_list),
                Volumes(read_list, write_list)
            ]
        }
    };
}

/// The arms of the reading.
macro_rules! reading_arms {
    (
        ($kind:expr, $alloc:expr, $r:expr)
        [$($fixed:ident($read:path, $write:path)),*]
        [$($owned:ident($read_owned:path, $write_owned:path)),*]
        [$($limited:ident($read_most:path, $write_all:path)),*]
    ) => {
        match $kind {
            Kind::Nothing => Err(FieldFault::Xdr(XdrFault::BadType)),
            $(Kind::$fixed => match $read($r) {
                Ok(value) => Ok(Field::$fixed(value)),
                Err(fault) => Err(FieldFault::Xdr(fault)),
            },)*
            $(Kind::$owned => match $read_owned($alloc, $r) {
                Ok(value) => Ok(Field::$owned(value)),
                Err(fault) => Err(fault),
            },)*
            $(Kind::$limited(most) => match $read_most($alloc, $r, most) {
                Ok(value) => Ok(Field::$limited(value)),
                Err(fault) => Err(fault),
            },)*
        }
    };
}

/// The arms of the writing.
macro_rules! writing_arms {
    (
        ($part:expr, $w:expr)
        [$($fixed:ident($read:path, $write:path)),*]
        [$($owned:ident($read_owned:path, $write_owned:path)),*]
        [$($limited:ident($read_most:path, $write_all:path)),*]
    ) => {
        match $part {
            $(Part::$fixed(value) => $write(value, $w),)*
            $(Part::$owned(value) => $write_owned(value, $w),)*
            $(Part::$limited(values) => $write_all(values, $w),)*
        }
    };
}

/// Reads a signed word.
#[tactic(auto, unfolding(spec_shape::specs::Reading::signed_at))]
pub(crate) fn read_signed(r: &mut Reader) -> Result<i32, XdrFault>
    ensures value { Reads signed_at (λ z. z) r.old r.new result }
    ensures end { KeepsEnd r.old r.new }
{
    let n = r.word()?;
    Ok(n.cast_signed())
}

/// Reads an opaque, and copies it.
pub(crate) fn read_octets(alloc: Global, r: &mut Reader, most: u32) -> Result<Octets, FieldFault>
    ensures value { ReadsField (opaque_at most) (λ s. s) r.old r.new result }
    ensures end { KeepsEnd r.old r.new }
{
    let bytes = r.opaque(most)?;
    let octets = Octets::from_slice(alloc, bytes)?;
    Ok(octets)
}

/// Reads a location entry.
#[tactic(auto, unfolding(spec_shape::specs::Items::entry_at))]
pub(crate) fn read_entry(alloc: Global, r: &mut Reader) -> Result<LocEntry, FieldFault>
    ensures value { ReadsField entry_at (λ e. e) r.old r.new result }
    ensures end { KeepsEnd r.old r.new }
{
    let name = read_octets(alloc, r, VOLUME_NAME_LIMIT)?;
    let read_write = r.word()?;
    let read_only = r.word()?;
    let backup = r.word()?;
    let flags = r.word()?;
    let sites = read_list(alloc, r, SITE_LIMIT)?;
    Ok(LocEntry {
        name,
        read_write,
        read_only,
        backup,
        flags,
        sites,
    })
}

fn write_word(n: &u32, w: &mut Writer) -> Mem<()>
    ensures ok { OnOk result (w.new ≡ w.old ++ word n.now) }
    ensures fits { n.now < 2 ^ 32 }
    ensures err { OnErr result (w.new ≡ w.old) }
{
    w.word(*n)
}

fn write_signed(z: &i32, w: &mut Writer) -> Mem<()>
    ensures ok { OnOk result (w.new ≡ w.old ++ word (cast_unsigned w32 z.now)) }
    ensures fits { FitsSigned w32 z.now }
    ensures err { OnErr result (w.new ≡ w.old) }
{
    w.word(z.cast_unsigned())
}

fn write_octets(bytes: &Octets, w: &mut Writer) -> Mem<()>
    requires { length bytes.now < 2 ^ 32 }
    ensures ok { OnOk result (w.new ≡ w.old ++ opaque bytes.now) }
    ensures err { OnErr result (w.new ≡ w.old) }
{
    w.opaque(bytes.as_slice())
}

/// Appends a location entry. After want of memory bytes of it may stand behind those from before.
fn write_entry(e: &LocEntry, w: &mut Writer) -> Mem<()>
    requires name { length e.now.name < 2 ^ 32 }
    requires sites { length e.now.sites < 2 ^ 32 }
    ensures ok { OnOk result (w.new ≡ w.old ++ entry e.now) }
    ensures fits { OnOk result (AreWords (entry_words e.now) × AllByRecursion (λ s. AreWords (site_words s)) e.now.sites) }
    ensures err { OnErr result (Extends w.old w.new) }
{
    w.opaque(e.name.as_slice())?;
    w.words(&[e.read_write, e.read_only, e.backup, e.flags])?;
    write_list(&e.sites, w)
}

/// Reads a field of this kind.
#[tactic(auto, unfolding(spec_shape::specs::Reading::field_at))]
pub fn read_field(alloc: Global, kind: Kind, r: &mut Reader) -> Result<Field, FieldFault>
    ensures value { ReadsField (field_at kind) (λ f. f) r.old r.new result }
    ensures end { KeepsEnd r.old r.new }
{
    with_kinds!(reading_arms(kind, alloc, r))
}

/// Appends a field. After want of memory bytes of it may stand behind those from before.
pub fn write_part(part: Part, w: &mut Writer) -> Mem<()>
    requires { IsSpellable (field_of part) }
    ensures ok { OnOk result (w.new ≡ w.old ++ field_spelled (field_of part.entry)) }
    ensures fits { OnOk result (IsInRange (field_of part.entry)) }
    ensures err { OnErr result (Extends w.old w.new) }
{
    with_kinds!(writing_arms(part, w))
}
