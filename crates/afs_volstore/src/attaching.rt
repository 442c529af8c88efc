//! The records of a disk, taken one after the other.

ghost use Rattle.std.specs.Prelude.{◌≡◌, ◌<◌, Err, None, Some, true, IfOk, OnOk};
ghost use Rattle.std.specs.Option.{option_map};
ghost use Rattle.afs_num.specs.declared.faults.StoreFault.TheVariants as faults;
ghost use Rattle.spec_fold.specs.Fold.{body_taken, is_first};
ghost use Rattle.spec_records.specs.Durable.{noted};
ghost use Rattle.spec_records.specs.Records.{record_at, record_bytes, FitsRecord};
ghost use Rattle.afs_memory.specs.Called.{IsCaller};
ghost use Rattle.afs_store.specs.Folds.{IsBadAt, TakesNone, TakesOne, TellsOne};
ghost use Rattle.afs_volstore.specs.VolumeFold.{volume_fold};
ghost use Rattle.afs_memory.specs.Redoing.{FitsRedo};
ghost use Rattle.afs_memory.specs.Redos.{body_of, IsReady, Suits};
ghost use Rattle.afs_memory.specs.States.{parts_of};
ghost use Rattle.afs_record.specs.declared.faults.Unfit.TheVariants.{Bad};

use crate::altering::change_in;
use afs_memory::memory::State;
use afs_memory::redo::Redo;
use afs_memory::redoing::put_volumes;
use afs_num::faults::StoreFault;
use afs_num::records::{RecordBody, RecordHead, StoreRecord};
use afs_num::sequences::Octets;
use afs_num::types::Node;
use afs_readying::readying::redo_of;
use afs_record::faults::{RecordFault, Unfit};
use afs_record::records::decode_record;
use spec_history::lines::Lines;
use std::alloc::Global;

/// Does what a record's body says. `Bad` where it can't be taken; then the state may be any.
fn take_body(state: &mut State, redo: Redo) -> Result<(), Unfit>
    requires ready { IsReady redo }
    requires images { FitsRedo redo }
    requires suits { Suits redo (parts_of state.old) }
    ensures taken { OnOk result (body_taken (body_of redo) (parts_of state.old) ≡ Some (parts_of state.new)) }
    ensures bad { result ≡ Err Bad → body_taken (body_of redo) (parts_of state.old) ≡ None }
{
    match redo {
        Redo::Volumes(added) => {
            state.shelves.volumes.reserve(added.len())?;
            if put_volumes(&mut state.shelves.volumes, added) {
                Ok(())
            } else {
                Err(Unfit::Bad)
            }
        }
        Redo::Change(id, change) => {
            change_in(state.alloc, &mut state.shelves.volumes, id, change)
        }
        Redo::Start(boot) => {
            state.start(boot);
            Ok(())
        }
        Redo::Deed(deed) => {
            state.take_deed(deed)?;
            Ok(())
        }
    }
}

/// Does what a record says. `Bad` where it can't be taken; then the state may be any.
fn take(state: &mut State, head: RecordHead, redo: Redo) -> Result<(), Unfit>
    requires caller { IsCaller head.caller }
    requires ready { IsReady redo }
    requires images { FitsRedo redo }
    requires suits { Suits redo (parts_of state.old) }
    ensures taken { OnOk result (option_map (noted head) (body_taken (body_of redo) (parts_of state.old)) ≡ Some (parts_of state.new)) }
    ensures bad { result ≡ Err Bad → body_taken (body_of redo) (parts_of state.old) ≡ None }
{
    take_body(state, redo)?;
    state.reserve_head()?;
    state.note(head);
    Ok(())
}

/// Whether a record tells the volumes of set-up.
fn is_first(body: &RecordBody) -> bool
    ensures { result ≡ is_first body.now }
{
    match body {
        RecordBody::First { .. } => true,
        _ => false,
    }
}

/// A record as it is read. `Bad` where the bytes have no form of a record, or the first isn't one of set-up.
fn read(alloc: Global, first: bool, bytes: &[u8]) -> Result<StoreRecord, Unfit>
    ensures read { IfOk result (λ r. record_at bytes.now ≡ Some r) }
    ensures fits { IfOk result (λ r. FitsRecord r × (record_bytes r ≡ bytes.now)) }
    ensures first { IfOk result (λ r. first ≡ true → is_first r.body ≡ true) }
    ensures bad { result ≡ Err Bad → TakesNone volume_fold first bytes.now }
{
    let rec = match decode_record(alloc, bytes) {
        Ok(rec) => rec,
        Err(RecordFault::NoForm) => return Err(Unfit::Bad),
        Err(RecordFault::OutOfMemory) => return Err(Unfit::OutOfMemory),
    };
    if first && !is_first(&rec.body) {
        drop(rec);
        return Err(Unfit::Bad);
    }
    Ok(rec)
}

/// Takes one record more; the lines that it tells, where they are wanted.
pub(crate) fn take_one(
    alloc: Global,
    server: Node,
    state: &mut State,
    first: bool,
    wanted: bool,
    bytes: &[u8],
) -> Result<Lines, Unfit>
    ensures taken { OnOk result (TakesOne volume_fold first bytes.now (parts_of state.old) (parts_of state.new)) }
    ensures lines { IfOk result (λ ls. TellsOne volume_fold server wanted bytes.now (parts_of state.old) ls) }
    ensures bad { result ≡ Err Bad → IsBadAt volume_fold first bytes.now (parts_of state.old) }
{
    let rec = read(alloc, first, bytes)?;
    let StoreRecord { head, body } = rec;
    let redo = redo_of(state, body)?;
    let lines = if wanted {
        state.lines(server, &head, &redo)?
    } else {
        Lines::new(alloc)
    };
    take(state, head, redo)?;
    Ok(lines)
}
