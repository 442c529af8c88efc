//! Records are made ready: what can fail comes before anything is done.

ghost use Rattle.std.specs.Prelude.{◌≡◌, ◌≤◌, Err, None, true, false, length, map, IfOk};
ghost use Rattle.std.specs.List.{list_all, AllByRecursion};
ghost use Rattle.spec_ideal.specs.VnodeImage.{FitsImage};
ghost use Rattle.spec_ideal.specs.VnodeMaps.{most_vnodes};
ghost use Rattle.spec_records.specs.Durable.{Durable, by_number, stored_of, with_volumes};
ghost use Rattle.spec_records.specs.Records.{ascend_from, record_bytes, row, volume_form, FitsRecord};
ghost use Rattle.spec_fold.specs.Fold.{body_taken};
ghost use Rattle.afs_volume.specs.Assembling.{can_be_read};
ghost use Rattle.afs_volume.specs.Listed.{listed_as};
ghost use Rattle.afs_volume.specs.Seen.{IsReadable};
ghost use Rattle.afs_memory.specs.Named.{IsNamed, IsRestored, IsRestoredThere};
ghost use Rattle.afs_readying.specs.Preparing.{IsSpelledOut};
ghost use Rattle.afs_memory.specs.Redoing.{FitsRedo};
ghost use Rattle.afs_memory.specs.Redos.{body_of, record_of, told, IsMadeAgain, IsReady, Suits};
ghost use Rattle.afs_memory.specs.States.{parts_of};
ghost use Rattle.afs_record.specs.declared.faults.Unfit.TheVariants.{Bad};

use crate::copying::{copy_head, copy_numbers};
use crate::deeds::deed_of;
use crate::prepared::Prepared;
use afs_memory::memory::State;
use afs_memory::redo::Redo;
use afs_num::calls::FsReply;
use afs_num::histories::Versions;
use afs_num::records::{RecordBody, StoreRecord, StoredVolume, StoredVolumes};
use afs_num::sequences::{Octets, Sequence};
use afs_num::types::Mem;
use afs_num::vnodes::{Vnode, VnodeNumbers, Vnodes};
use afs_num::volumes::Change;
use afs_record::faults::{RecordFault, Unfit};
use afs_record::records::{decode_record, encode_record};
use afs_shelves::deed::{Deed, RestoreDeed};
use afs_vnode::copying::copy_vnodes;
use afs_vnode::faults::VnodeFault;
use afs_vnode::store::VnodeStore;
use afs_volume::faults::AssembleFault;
use afs_volume::{ReadyChange, ReadyNames, Volume};
use spec_records::laws::records_are_read_again;
use std::alloc::{AllocError, Global};

/// The vnodes of a volume by their numbers.
fn store_of(alloc: Global, vnodes: Vnodes) -> Mem<VnodeStore>
    requires fits { AllByRecursion FitsImage vnodes }
    requires ascend { ascend_from 0 vnodes ≡ true }
    requires few { length vnodes ≤ most_vnodes }
    ensures { IfOk result (λ s. s.table ≡ by_number vnodes) }
{
    let mut store = VnodeStore::new(alloc);
    for vnode in vnodes.into_vec() {
        match store.put(vnode) {
            Ok(()) => {}
            Err(VnodeFault::OutOfMemory) => return Err(AllocError),
            Err(VnodeFault::TooMany) => unreachable!(),
        }
    }
    Ok(store)
}

/// A volume as a first record tells it.
fn volume_of(alloc: Global, given: StoredVolume) -> Result<Volume, Unfit>
    requires { volume_form.Fits given }
    ensures told { IfOk result (λ v. told v ≡ given) }
    ensures again { IfOk result (λ v. IsMadeAgain v) }
    ensures bad { result ≡ Err Bad → stored_of given ≡ None }
{
    let StoredVolume { head, vnodes } = given;
    let vnodes = store_of(alloc, vnodes)?;
    match Volume::assemble(alloc, head, vnodes) {
        Ok(volume) => Ok(volume),
        Err(AssembleFault::NotSound) => Err(Unfit::Bad),
        Err(AssembleFault::OutOfMemory) => Err(Unfit::OutOfMemory),
    }
}

/// The volumes of a first record.
fn volumes_of(alloc: Global, given: StoredVolumes) -> Result<Sequence<Volume>, Unfit>
    requires { AllByRecursion volume_form.Fits given }
    ensures told { IfOk result (λ vs. map told vs ≡ given) }
    ensures again { IfOk result (λ vs. AllByRecursion IsMadeAgain vs) }
    ensures bad { result ≡ Err Bad → (d : Durable) → with_volumes given d ≡ None }
{
    let mut volumes = Sequence::new(alloc);
    for one in given.into_vec() {
        let volume = volume_of(alloc, one)?;
        volumes.push(volume)?;
    }
    Ok(volumes)
}

/// A change as a record tells it.
fn change_of(
    alloc: Global,
    counter: u32,
    unique: u32,
    vnodes: Vnodes,
    removed: VnodeNumbers,
) -> Result<ReadyChange, Unfit>
    ensures told { IfOk result (λ c. (c.counter ≡ counter) × ((c.unique ≡ unique) × ((c.vnodes ≡ vnodes) × (c.removed ≡ removed)))) }
    ensures read { IfOk result (λ c. AllByRecursion IsReadable c.vnodes) }
    ensures bad { result ≡ Err Bad → list_all can_be_read vnodes ≡ false }
{
    let change = Change {
        versions: Versions::new(alloc),
        vnodes,
        removed,
        counter,
        unique,
        reply: FsReply::GiveUpCallBacks,
    };
    match ReadyChange::of(alloc, change) {
        Ok(ready) => Ok(ready),
        Err(AssembleFault::NotSound) => Err(Unfit::Bad),
        Err(AssembleFault::OutOfMemory) => Err(Unfit::OutOfMemory),
    }
}

/// What a record's body says. `Bad` where it can't be taken: of set-up and of a change it is where no store takes it; what a
/// volume server did is looked at here, and made for the volumes that are there.
pub fn redo_of(state: &State, body: RecordBody) -> Result<Redo, Unfit>
    requires { (row body).Fits }
    ensures told { IfOk result (λ r. body_of r ≡ body) }
    ensures ready { IfOk result (λ r. IsReady r) }
    ensures images { IfOk result (λ r. FitsRedo r) }
    ensures suits { IfOk result (λ r. Suits r (parts_of state.now)) }
    ensures bad { result ≡ Err Bad → body_taken body (parts_of state.now) ≡ None }
{
    match body {
        RecordBody::First { volumes } => Ok(Redo::Volumes(volumes_of(state.alloc, volumes)?)),
        RecordBody::Change {
            id,
            counter,
            unique,
            vnodes,
            removed,
        } => {
            let change = change_of(state.alloc, counter, unique, vnodes, removed)?;
            Ok(Redo::Change(id, change))
        }
        RecordBody::Boot { boot } => Ok(Redo::Start(boot)),
        body => Ok(Redo::Deed(deed_of(&state.shelves, &body)?)),
    }
}

/// A record's spelling, and the record as it is read from it: a copy.
fn copied(alloc: Global, rec: &StoreRecord) -> Mem<(Octets, StoreRecord)>
    requires { FitsRecord rec.now }
    ensures bytes { IfOk result (λ p. p.0 ≡ record_bytes rec.now) }
    ensures copy { IfOk result (λ p. p.1 ≡ rec.now) }
{
    records_are_read_again();
    let bytes = encode_record(alloc, rec)?;
    match decode_record(alloc, bytes.as_slice()) {
        Ok(copy) => Ok((bytes, copy)),
        Err(RecordFault::OutOfMemory) => Err(AllocError),
        Err(RecordFault::NoForm) => unreachable!(),
    }
}

/// A record made ready for its commit. `Bad` where it can't be taken.
pub fn ready(state: &State, rec: &StoreRecord) -> Result<Prepared, Unfit>
    requires { FitsRecord rec.now }
    ensures told { IfOk result (λ p. record_of p.head p.redo ≡ rec.now) }
    ensures spelled { IfOk result (λ p. IsSpelledOut p) }
    ensures suits { IfOk result (λ p. Suits p.redo (parts_of state.now)) }
    ensures bad { result ≡ Err Bad → body_taken rec.now.body (parts_of state.now) ≡ None }
{
    let (bytes, StoreRecord { head, body }) = copied(state.alloc, rec)?;
    let redo = redo_of(state, body)?;
    Ok(Prepared { bytes, head, redo })
}

/// A change as a record tells it, with the names of its vnodes. Nothing is read.
fn change_named(
    alloc: Global,
    counter: u32,
    unique: u32,
    vnodes: &[Vnode],
    removed: &[u32],
    names: ReadyNames,
) -> Mem<ReadyChange>
    requires named { names ≡ map listed_as vnodes.now }
    requires readable { AllByRecursion IsReadable vnodes.now }
    ensures told { IfOk result (λ c. (c.counter ≡ counter) × ((c.unique ≡ unique) × ((c.vnodes ≡ vnodes.now) × (c.removed ≡ removed.now)))) }
    ensures read { IfOk result (λ c. AllByRecursion IsReadable c.vnodes) }
{
    let change = Change {
        versions: Versions::new(alloc),
        vnodes: copy_vnodes(alloc, vnodes)?,
        removed: copy_numbers(alloc, removed)?,
        counter,
        unique,
        reply: FsReply::GiveUpCallBacks,
    };
    Ok(ReadyChange::named(change, names))
}

/// What the body of the record of a change says, with the names of its vnodes.
fn redo_named(alloc: Global, body: &RecordBody, names: ReadyNames) -> Mem<Redo>
    requires fits { (row body.now).Fits }
    requires named { IsNamed body.now names }
    ensures told { IfOk result (λ r. body_of r ≡ body.now) }
    ensures ready { IfOk result (λ r. IsReady r) }
    ensures images { IfOk result (λ r. FitsRedo r) }
    ensures suits { IfOk result (λ r. (d : Durable) → Suits r d) }
{
    match body {
        RecordBody::Change {
            id,
            counter,
            unique,
            vnodes,
            removed,
        } => {
            let vnodes = vnodes.as_slice();
            let removed = removed.as_slice();
            let change = change_named(alloc, *counter, *unique, vnodes, removed, names)?;
            Ok(Redo::Change(*id, change))
        }
        _ => unreachable!(),
    }
}

/// The record of a change, which comes with the names of its vnodes, made ready for its commit. It is spelled and copied, and
/// isn't read.
pub fn prepared_change(alloc: Global, rec: &StoreRecord, names: ReadyNames) -> Mem<Prepared>
    requires fits { FitsRecord rec.now }
    requires named { IsNamed rec.now.body names }
    ensures told { IfOk result (λ p. record_of p.head p.redo ≡ rec.now) }
    ensures spelled { IfOk result (λ p. IsSpelledOut p) }
    ensures suits { IfOk result (λ p. (d : Durable) → Suits p.redo d) }
{
    let bytes = encode_record(alloc, rec)?;
    let head = copy_head(alloc, &rec.head)?;
    let redo = redo_named(alloc, &rec.body, names)?;
    Ok(Prepared { bytes, head, redo })
}

/// What the body of the record of a restored dump says, with the volume that the dump makes.
fn redo_restored(alloc: Global, body: &RecordBody, volume: Volume) -> Mem<Redo>
    requires { IsRestored body.now volume }
    ensures told { IfOk result (λ r. body_of r ≡ body.now) }
    ensures ready { IfOk result (λ r. IsReady r) }
    ensures images { IfOk result (λ r. FitsRedo r) }
    ensures suits { IfOk result (λ r. (d : Durable) → IsRestoredThere body.now volume d → Suits r d) }
{
    match body {
        RecordBody::Restore { id: _, dump } => {
            let dump = dump.copy(alloc)?;
            Ok(Redo::Deed(Deed::Restore(RestoreDeed { dump, volume })))
        }
        _ => unreachable!(),
    }
}

/// The record of a dump that is restored, which comes with the volume that the dump makes, made ready for its commit. It is
/// spelled, and shares the dump's bytes; the dump isn't read.
pub fn prepared_restored(alloc: Global, rec: &StoreRecord, volume: Volume) -> Mem<Prepared>
    requires fits { FitsRecord rec.now }
    requires restored { IsRestored rec.now.body volume }
    ensures told { IfOk result (λ p. record_of p.head p.redo ≡ rec.now) }
    ensures spelled { IfOk result (λ p. IsSpelledOut p) }
    ensures suits { IfOk result (λ p. (d : Durable) → IsRestoredThere rec.now.body volume d → Suits p.redo d) }
{
    let bytes = encode_record(alloc, rec)?;
    let head = copy_head(alloc, &rec.head)?;
    let redo = redo_restored(alloc, &rec.body, volume)?;
    Ok(Prepared { bytes, head, redo })
}
