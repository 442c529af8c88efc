//! The kinds of records: for each its number, and its fields in order, each of its form.

ghost use Rattle.std.specs.Prelude.{◌≡◌, ◌<◌, ◌^◌, ◌++◌, [], false, length, OnOk};
ghost use Rattle.afs_num.specs.declared.records.RecordBody.TheVariants as bodies;
ghost use Rattle.spec_records.specs.Forms.{image_form, list_form, word_form};
ghost use Rattle.spec_records.specs.Records.{body_at, row};
ghost use Rattle.afs_xdr.specs.Words.{opaque, words};
ghost use Rattle.afs_record.specs.Reading.{GivesForm, MakesAtEnd};

use crate::faults::RecordFault;
use crate::forms::{
    Form, Image, Word, flag_number, read_flag, read_server, read_text, read_volume_kind,
};
use crate::lists::ListOf;
use crate::volumes::{MOST_NAME, Volume};
use afs_num::records::RecordBody;
use afs_num::sequences::Octets;
use afs_num::types::Mem;
use afs_num::vnodes::{VnodeNumbers, Vnodes};
use afs_xdr::reading::Reader;
use afs_xdr::writing::Writer;
use std::alloc::Global;

/// The most bytes of a dump.
const MOST_DUMP: u32 = 33_554_432;

/// The number of a body's kind.
pub(crate) fn number_of(body: &RecordBody) -> u32
    ensures { result ≡ (row body.now).number }
{
    match body {
        RecordBody::First { .. } => 1,
        RecordBody::Change { .. } => 2,
        RecordBody::Boot { .. } => 3,
        RecordBody::Create { .. } => 4,
        RecordBody::Delete { .. } => 5,
        RecordBody::Clone { .. } => 6,
        RecordBody::Restore { .. } => 7,
        RecordBody::Flags { .. } => 8,
        RecordBody::Forward { .. } => 9,
        RecordBody::Stamp => 10,
    }
}

/// Appends words, a text, and further words.
fn write_around(before: &[u32], text: &Octets, after: &[u32], w: &mut Writer) -> Mem<()>
    requires { length text.now < 2 ^ 32 }
    ensures { OnOk result (w.new ≡ w.old ++ (words before.now ++ (opaque text.now ++ words after.now))) }
{
    w.words(before)?;
    w.opaque(text.as_slice())?;
    w.words(after)
}

/// Appends words, the images of vnodes, and numbers.
fn write_left(numbers: &[u32], vnodes: &Vnodes, removed: &VnodeNumbers, w: &mut Writer) -> Mem<()>
    requires vnodes { (list_form image_form).Fits vnodes.now }
    requires removed { (list_form word_form).Fits removed.now }
    ensures { OnOk result (w.new ≡ w.old ++ (words numbers.now ++ ((list_form image_form).spelled vnodes.now ++ (list_form word_form).spelled removed.now))) }
{
    w.words(numbers)?;
    ListOf::<Image>::write(vnodes, w)?;
    ListOf::<Word>::write(removed, w)
}

/// Appends the fields of a body.
pub(crate) fn write_body(body: &RecordBody, w: &mut Writer) -> Mem<()>
    requires { (row body.now).Fits }
    ensures { OnOk result (w.new ≡ w.old ++ (row body.now).spelled) }
{
    match body {
        RecordBody::First { volumes } => ListOf::<Volume>::write(volumes, w),
        RecordBody::Change {
            id,
            counter,
            unique,
            vnodes,
            removed,
        } => write_left(&[*id, *counter, *unique], vnodes, removed, w),
        RecordBody::Boot { boot } => w.word(*boot),
        RecordBody::Create {
            id,
            family,
            name,
            kind,
            flags,
            quota,
            is_new,
        } => {
            let after = [*kind, *flags, *quota, flag_number(*is_new)];
            write_around(&[*id, *family], name, &after, w)
        }
        RecordBody::Delete { id } => w.word(*id),
        RecordBody::Clone {
            source,
            id,
            name,
            kind,
            release,
        } => write_around(&[*source, *id], name, &[*kind, *release], w),
        RecordBody::Restore { id, dump } => write_around(&[*id], dump, &[], w),
        RecordBody::Flags { id, flags } => w.words(&[*id, *flags]),
        RecordBody::Forward { id, server } => w.words(&[*id, *server]),
        RecordBody::Stamp => Ok(()),
    }
}

fn read_change(alloc: Global, r: &mut Reader) -> Result<RecordBody, RecordFault>
    ensures { MakesAtEnd ((row (bodies.Change 0 0 0 [] [])).make r.old.left) r.new result }
{
    let id = r.word()?;
    let counter = r.word()?;
    let unique = r.word()?;
    let vnodes = ListOf::<Image>::read(alloc, r)?;
    let removed = ListOf::<Word>::read(alloc, r)?;
    Ok(RecordBody::Change {
        id,
        counter,
        unique,
        vnodes,
        removed,
    })
}

fn read_create(alloc: Global, r: &mut Reader) -> Result<RecordBody, RecordFault>
    ensures { MakesAtEnd ((row (bodies.Create 0 0 [] 0 0 0 false)).make r.old.left) r.new result }
{
    let id = r.word()?;
    let family = r.word()?;
    let name = read_text(alloc, r, MOST_NAME)?;
    let kind = read_volume_kind(r)?;
    let flags = r.word()?;
    let quota = r.word()?;
    let is_new = read_flag(r)?;
    Ok(RecordBody::Create {
        id,
        family,
        name,
        kind,
        flags,
        quota,
        is_new,
    })
}

fn read_clone(alloc: Global, r: &mut Reader) -> Result<RecordBody, RecordFault>
    ensures { MakesAtEnd ((row (bodies.Clone 0 0 [] 0 0)).make r.old.left) r.new result }
{
    let source = r.word()?;
    let id = r.word()?;
    let name = read_text(alloc, r, MOST_NAME)?;
    let kind = read_volume_kind(r)?;
    let release = r.word()?;
    Ok(RecordBody::Clone {
        source,
        id,
        name,
        kind,
        release,
    })
}

/// Reads the fields of the body with this number.
fn read_fields(alloc: Global, number: u32, r: &mut Reader) -> Result<RecordBody, RecordFault>
    ensures { MakesAtEnd (body_at number r.old.left) r.new result }
{
    match number {
        1 => {
            let volumes = ListOf::<Volume>::read(alloc, r)?;
            Ok(RecordBody::First { volumes })
        }
        2 => read_change(alloc, r),
        3 => {
            let boot = r.word()?;
            Ok(RecordBody::Boot { boot })
        }
        4 => read_create(alloc, r),
        5 => {
            let id = r.word()?;
            Ok(RecordBody::Delete { id })
        }
        6 => read_clone(alloc, r),
        7 => {
            let id = r.word()?;
            let dump = read_text(alloc, r, MOST_DUMP)?;
            Ok(RecordBody::Restore { id, dump })
        }
        8 => {
            let id = r.word()?;
            let flags = r.word()?;
            Ok(RecordBody::Flags { id, flags })
        }
        9 => {
            let id = r.word()?;
            let server = read_server(r)?;
            Ok(RecordBody::Forward { id, server })
        }
        10 => Ok(RecordBody::Stamp),
        _ => Err(RecordFault::NoForm),
    }
}

/// Reads the body with this number, to the last byte.
pub(crate) fn read_body(
    alloc: Global,
    number: u32,
    r: &mut Reader,
) -> Result<RecordBody, RecordFault>
    ensures { GivesForm (body_at number r.old.left) result }
{
    let body = read_fields(alloc, number, r)?;
    r.end()?;
    Ok(body)
}
