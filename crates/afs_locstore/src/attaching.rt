//! The records of a disk, taken one after the other.

ghost use Rattle.std.specs.Prelude.{◌≡◌, Err, Some, true, IfOk, OnOk};
ghost use Rattle.spec_records.specs.LocDurable.{loc_is_first};
ghost use Rattle.spec_records.specs.LocRecords.{loc_record_at, loc_record_bytes, FitsLocRecord};
ghost use Rattle.afs_store.specs.Folds.{IsBadAt, TakesNone, TakesOne, TellsOne};
ghost use Rattle.afs_locrecord.specs.Bodies.{body_of};
ghost use Rattle.afs_locstore.specs.LocFold.{loc_fold};
ghost use Rattle.afs_locstore.specs.States.{parts_of};
ghost use Rattle.afs_record.specs.declared.faults.Unfit.TheVariants.{Bad};

use crate::memory::State;
use crate::readying::redo_of;
use afs_locrecord::records::decode_loc_record;
use afs_locrecord::types::{Body, LocRecord};
use afs_num::types::Node;
use afs_record::faults::{RecordFault, Unfit};
use spec_history::lines::Lines;
use std::alloc::Global;

/// Whether a record tells the entries of set-up.
fn is_first(body: &Body) -> bool
    ensures { result ≡ loc_is_first (body_of body.now) }
{
    match body {
        Body::First { .. } => true,
        _ => false,
    }
}

/// A record as it is read. `Bad` where the bytes have no form of a record, or the first isn't one of set-up.
fn read(alloc: Global, first: bool, bytes: &[u8]) -> Result<LocRecord, Unfit>
    ensures read { IfOk result (λ r. loc_record_at bytes.now ≡ Some r) }
    ensures fits { IfOk result (λ r. FitsLocRecord r × (loc_record_bytes r ≡ bytes.now)) }
    ensures first { IfOk result (λ r. first ≡ true → loc_is_first r.body ≡ true) }
    ensures bad { result ≡ Err Bad → TakesNone loc_fold first bytes.now }
{
    let rec = match decode_loc_record(alloc, bytes) {
        Ok(rec) => rec,
        Err(RecordFault::NoForm) => return Err(Unfit::Bad),
        Err(RecordFault::OutOfMemory) => return Err(Unfit::OutOfMemory),
    };
    if first && !is_first(&rec.body) {
        drop(rec);
        return Err(Unfit::Bad);
    }
    Ok(rec)
}

/// Takes one record more; the lines that it tells, where they are wanted. `Bad` where it can't be taken.
pub(crate) fn take_one(
    alloc: Global,
    _node: Node,
    state: &mut State,
    first: bool,
    wanted: bool,
    bytes: &[u8],
) -> Result<Lines, Unfit>
    ensures taken { OnOk result (TakesOne loc_fold first bytes.now (parts_of state.old) (parts_of state.new)) }
    ensures lines { IfOk result (λ ls. TellsOne loc_fold _node wanted bytes.now (parts_of state.old) ls) }
    ensures bad { result ≡ Err Bad → IsBadAt loc_fold first bytes.now (parts_of state.old) }
{
    let rec = read(alloc, first, bytes)?;
    let LocRecord { head, body } = rec;
    let lines = if wanted {
        state.told(alloc, &body)?
    } else {
        Lines::new(alloc)
    };
    let redo = redo_of(alloc, body)?;
    if !state.can_take(&redo) {
        return Err(Unfit::Bad);
    }
    state.reserve(&redo)?;
    state.redo(head, redo);
    Ok(lines)
}
