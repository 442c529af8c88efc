//! The kinds of records: for each its number, and its fields in order, each of its form.

ghost use Rattle.std.specs.Prelude.{◌≡◌, ◌++◌, OnOk};
ghost use Rattle.spec_records.specs.LocRecords.{loc_table, row};
ghost use Rattle.spec_records.specs.Records.{body_in};
ghost use Rattle.afs_locrecord.specs.Bodies.{body_of};
ghost use Rattle.afs_record.specs.Reading.{GivesForm, MakesAtEnd};
ghost use Rattle.afs_locrecord.specs.Reading.{body_result};

use crate::entries::{OneListed, read_deed, write_deed};
use crate::types::Body;
use afs_num::types::Mem;
use afs_record::faults::RecordFault;
use afs_record::forms::Form;
use afs_record::lists::ListOf;
use afs_xdr::reading::Reader;
use afs_xdr::writing::Writer;
use std::alloc::Global;

/// The number of a body's kind.
pub(crate) fn number_of(body: &Body) -> u32
    ensures { result ≡ (row (body_of body.now)).number }
{
    match body {
        Body::First { .. } => 1,
        Body::Boot { .. } => 3,
        Body::Database { .. } => 11,
    }
}

/// Appends the fields of a body.
pub(crate) fn write_body(body: &Body, w: &mut Writer) -> Mem<()>
    requires { (row (body_of body.now)).Fits }
    ensures { OnOk result (w.new ≡ w.old ++ (row (body_of body.now)).spelled) }
{
    match body {
        Body::First {
            entries,
            next_id,
            next_stamp,
        } => {
            ListOf::<OneListed>::write(entries, w)?;
            w.words(&[*next_id, *next_stamp])
        }
        Body::Boot { boot } => w.word(*boot),
        Body::Database {
            deed,
            next_id,
            next_stamp,
        } => {
            write_deed(deed, w)?;
            w.words(&[*next_id, *next_stamp])
        }
    }
}

fn read_first(alloc: Global, r: &mut Reader) -> Result<Body, RecordFault>
    ensures { MakesAtEnd (body_in loc_table 1 r.old.left) r.new (body_result result) }
{
    let entries = ListOf::<OneListed>::read(alloc, r)?;
    let next_id = r.word()?;
    let next_stamp = r.word()?;
    Ok(Body::First {
        entries,
        next_id,
        next_stamp,
    })
}

fn read_boot(r: &mut Reader) -> Result<Body, RecordFault>
    ensures { MakesAtEnd (body_in loc_table 3 r.old.left) r.new (body_result result) }
{
    let boot = r.word()?;
    Ok(Body::Boot { boot })
}

fn read_database(alloc: Global, r: &mut Reader) -> Result<Body, RecordFault>
    ensures { MakesAtEnd (body_in loc_table 11 r.old.left) r.new (body_result result) }
{
    let deed = read_deed(alloc, r)?;
    let next_id = r.word()?;
    let next_stamp = r.word()?;
    Ok(Body::Database {
        deed,
        next_id,
        next_stamp,
    })
}

/// Reads the fields of the body with this number.
fn read_fields(alloc: Global, number: u32, r: &mut Reader) -> Result<Body, RecordFault>
    ensures { MakesAtEnd (body_in loc_table number r.old.left) r.new (body_result result) }
{
    match number {
        1 => read_first(alloc, r),
        3 => read_boot(r),
        11 => read_database(alloc, r),
        _ => Err(RecordFault::NoForm),
    }
}

/// Reads the body with this number, to the last byte.
pub(crate) fn read_body(alloc: Global, number: u32, r: &mut Reader) -> Result<Body, RecordFault>
    ensures { GivesForm (body_in loc_table number r.old.left) (body_result result) }
{
    let body = read_fields(alloc, number, r)?;
    r.end()?;
    Ok(body)
}
