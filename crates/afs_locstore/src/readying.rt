//! Records are made ready: what can fail comes before anything is done.

ghost use Rattle.std.specs.Prelude.{◌≡◌, IfOk};
ghost use Rattle.std.specs.List.{AllByRecursion};
ghost use Rattle.spec_records.specs.LocRecords.{deed_form, listed_form, loc_record_bytes, row, Database, FitsLocRecord};
ghost use Rattle.afs_locrecord.specs.Bodies.{body_of};
ghost use Rattle.afs_locstore.specs.Listings.{are_placed, CanBeAllPut};
ghost use Rattle.afs_locstore.specs.States as states;
ghost use Rattle.afs_locstore.specs.States.{record_of, CanPut, IsSpelledOut};

use crate::placed::Placed;
use crate::ready::{Ready, Redo};
use afs_locrecord::records::{decode_loc_record, encode_loc_record};
use afs_locrecord::types::{AllListed, Body, Deed, Doing, LocRecord};
use afs_num::sequences::{Octets, Sequence};
use afs_num::types::Mem;
use afs_record::faults::RecordFault;
use spec_records::laws::loc_records_are_read_again;
use std::alloc::{AllocError, Global};

/// These entries, to be put.
fn placed_of(alloc: Global, entries: AllListed) -> Mem<Sequence<Placed>>
    requires { AllByRecursion listed_form.Fits entries }
    ensures placed { IfOk result (λ ps. are_placed ps ≡ entries) }
    ensures can { IfOk result (λ ps. CanBeAllPut ps) }
{
    let mut placed = Sequence::new(alloc);
    for listed in entries.into_vec() {
        placed.push(Placed::of(alloc, listed)?)?;
    }
    Ok(placed)
}

/// A deed with the counters behind it.
fn redo_of_deed(alloc: Global, deed: Deed, next_id: u32, next_stamp: u32) -> Mem<Redo>
    requires { deed_form.Fits deed }
    ensures told { IfOk result (λ r. states.body_of r ≡ Database deed next_id next_stamp) }
    ensures can { IfOk result (λ r. CanPut r) }
{
    let Deed { doing } = deed;
    match doing {
        Doing::Sets(listed) => Ok(Redo::Sets {
            placed: Placed::of(alloc, listed)?,
            next_id,
            next_stamp,
        }),
        Doing::Removes(entry) => Ok(Redo::Removes {
            entry,
            next_id,
            next_stamp,
        }),
        Doing::Leaves => Ok(Redo::Leaves {
            next_id,
            next_stamp,
        }),
    }
}

/// What a record's body says.
pub(crate) fn redo_of(alloc: Global, body: Body) -> Mem<Redo>
    requires { (row (body_of body)).Fits }
    ensures told { IfOk result (λ r. states.body_of r ≡ body_of body) }
    ensures can { IfOk result (λ r. CanPut r) }
{
    match body {
        Body::First {
            entries,
            next_id,
            next_stamp,
        } => Ok(Redo::First {
            placed: placed_of(alloc, entries)?,
            next_id,
            next_stamp,
        }),
        Body::Boot { boot } => Ok(Redo::Boot { boot }),
        Body::Database {
            deed,
            next_id,
            next_stamp,
        } => redo_of_deed(alloc, deed, next_id, next_stamp),
    }
}

/// A record's spelling, and the record as it is read from it: a copy.
fn copied(alloc: Global, rec: &LocRecord) -> Mem<(Octets, LocRecord)>
    requires { FitsLocRecord rec.now }
    ensures bytes { IfOk result (λ p. p.0 ≡ loc_record_bytes rec.now) }
    ensures copy { IfOk result (λ p. p.1 ≡ rec.now) }
{
    loc_records_are_read_again();
    let bytes = encode_loc_record(alloc, rec)?;
    match decode_loc_record(alloc, bytes.as_slice()) {
        Ok(copy) => Ok((bytes, copy)),
        Err(RecordFault::OutOfMemory) => Err(AllocError),
        Err(RecordFault::NoForm) => unreachable!(),
    }
}

/// A record made ready for its commit.
pub(crate) fn ready(alloc: Global, rec: &LocRecord) -> Mem<Ready>
    requires { FitsLocRecord rec.now }
    ensures told { IfOk result (λ p. record_of p.head p.redo ≡ rec.now) }
    ensures spelled { IfOk result (λ p. IsSpelledOut p) }
{
    let (bytes, LocRecord { head, body }) = copied(alloc, rec)?;
    let redo = redo_of(alloc, body)?;
    Ok(Ready { bytes, head, redo })
}
