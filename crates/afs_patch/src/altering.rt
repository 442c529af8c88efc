//! Changes that a disk tells: whether a volume can take one in is found out by what it leaves.

ghost use Rattle.std.specs.Prelude.{◌≡◌, ◌≤◌, ◌<◌, Err, None, Some, true, length, IfOk, OnOk};
ghost use Rattle.std.specs.List.{list_all, AllByRecursion};
ghost use Rattle.spec_ideal.specs.VnodeImage.{FitsImage};
ghost use Rattle.spec_ideal.specs.VnodeMaps.{most_vnodes};
ghost use Rattle.spec_records.specs.Durable.{changed_stored};
ghost use Rattle.afs_vnode.specs.Stores.{AreVnodes};
ghost use Rattle.afs_volume.specs.Seen.{IsReadable};
ghost use Rattle.afs_volume.specs.Taking.{put_but, stored_of, without_all, CanTakeIn};
ghost use Rattle.afs_patch.specs.Changing.{is_in, CantBeLeft};
ghost use Rattle.afs_record.specs.declared.faults.Unfit.TheVariants.{Bad};

use crate::patching::can_take;
use afs_num::types::Mem;
use afs_num::vnodes::{VnodeNumbers, Vnodes};
use afs_num::volumes::{Change, VolumeHead};
use afs_record::faults::Unfit;
use afs_vnode::faults::VnodeFault;
use afs_vnode::store::VnodeStore;
use afs_volume::faults::AssembleFault;
use afs_volume::{ReadyChange, Volume};
use std::alloc::Global;

/// Whether there is a vnode of this number.
#[tactic(auto, using(afs_volume::proofs::Tables::got))]
fn is_in(vnodes: &VnodeStore, number: u32) -> bool
    ensures value { result ≡ is_in vnodes.now.table number }
    ensures vnodes { AreVnodes vnodes.now.table }
{
    vnodes.get(number).is_some()
}

/// Whether all these numbers are those of vnodes.
fn are_in(vnodes: &VnodeStore, numbers: &[u32]) -> bool
    ensures { result ≡ list_all (is_in vnodes.now.table) numbers.now }
{
    numbers.iter().all(|number| is_in(vnodes, *number))
}

/// The vnodes of these numbers go.
fn remove_all(vnodes: &mut VnodeStore, numbers: &[u32])
    requires { AreVnodes vnodes.old.table }
    ensures table { vnodes.new.table ≡ without_all numbers.now vnodes.old.table }
    ensures vnodes { AreVnodes vnodes.new.table }
{
    for number in numbers {
        vnodes.remove(*number);
    }
}

/// These vnodes are put, but for those that go. `Bad` where there would be too many.
fn put_all(vnodes: &mut VnodeStore, changed: Vnodes, removed: &[u32]) -> Result<(), Unfit>
    requires fits { AllByRecursion FitsImage changed }
    requires vnodes { AreVnodes vnodes.old.table }
    ensures table { OnOk result (vnodes.new.table ≡ put_but removed.now changed vnodes.old.table) }
    ensures few { OnOk result (length vnodes.new.table ≤ most_vnodes) }
    ensures many { result ≡ Err Bad → most_vnodes < length (put_but removed.now changed vnodes.old.table) }
{
    for vnode in changed.into_vec() {
        if !removed.contains(&vnode.vnode) {
            match vnodes.put(vnode) {
                Ok(()) => {}
                Err(VnodeFault::TooMany) => return Err(Unfit::Bad),
                Err(VnodeFault::OutOfMemory) => return Err(Unfit::OutOfMemory),
            }
        }
    }
    Ok(())
}

/// The head of a volume after a change.
fn counted(head: VolumeHead, counter: u32, unique: u32) -> VolumeHead
    ensures { result ≡ record head { counter = counter; unique = unique } }
{
    VolumeHead {
        counter,
        unique,
        ..head
    }
}

/// The vnodes of a volume after a change. `Bad` where one that goes isn't there, or there would be too many.
fn vnodes_after(
    vnodes: VnodeStore,
    changed: Vnodes,
    removed: VnodeNumbers,
) -> Result<VnodeStore, Unfit>
    requires fits { AllByRecursion FitsImage changed }
    ensures there { IfOk result (λ s. list_all (is_in vnodes.table) removed ≡ true) }
    ensures table { IfOk result (λ s. s.table ≡ put_but removed changed (without_all removed vnodes.table)) }
    ensures few { IfOk result (λ s. length s.table ≤ most_vnodes) }
    ensures bad { result ≡ Err Bad → CantBeLeft removed changed vnodes.table }
{
    let numbers = removed.as_slice();
    if !are_in(&vnodes, numbers) {
        return Err(Unfit::Bad);
    }
    let mut vnodes = vnodes;
    remove_all(&mut vnodes, numbers);
    put_all(&mut vnodes, changed, numbers)?;
    Ok(vnodes)
}

/// The volume that a change makes of another. `Bad` where a disk may not hold it.
fn remade(alloc: Global, volume: Volume, change: Change) -> Result<Volume, Unfit>
    requires read { AllByRecursion IsReadable change.vnodes }
    requires fits { AllByRecursion FitsImage change.vnodes }
    ensures made { IfOk result (λ v. changed_stored change.counter change.unique change.vnodes change.removed (stored_of volume) ≡ Some (stored_of v)) }
    ensures id { IfOk result (λ v. v.head.id ≡ volume.head.id) }
    ensures bad { result ≡ Err Bad → changed_stored change.counter change.unique change.vnodes change.removed (stored_of volume) ≡ None }
{
    let Change {
        versions,
        vnodes: changed,
        removed,
        counter,
        unique,
        reply,
    } = change;
    drop(versions);
    drop(reply);
    let (head, vnodes) = volume.into_parts();
    let after = vnodes_after(vnodes, changed, removed)?;
    match Volume::assemble(alloc, counted(head, counter, unique), after) {
        Ok(volume) => Ok(volume),
        Err(AssembleFault::NotSound) => Err(Unfit::Bad),
        Err(AssembleFault::OutOfMemory) => Err(Unfit::OutOfMemory),
    }
}

/// The volume with a change taken in that it can take in, in a time that is that of the change.
fn taken_in(volume: Volume, change: ReadyChange) -> Mem<Volume>
    requires { CanTakeIn volume change }
    ensures made { IfOk result (λ v. changed_stored change.counter change.unique change.vnodes change.removed (stored_of volume) ≡ Some (stored_of v)) }
    ensures id { IfOk result (λ v. v.head.id ≡ volume.head.id) }
{
    let mut volume = volume;
    match volume.reserve(&change) {
        Ok(()) => {
            volume.take_in(change);
            Ok(volume)
        }
        Err(fault) => {
            drop(change);
            Err(fault)
        }
    }
}

/// The volume after a change. `Bad` where a disk may not hold it. A change that passes the test of what it touches is taken
/// in as it is, and the volume isn't read anew.
pub fn changed(alloc: Global, volume: Volume, change: ReadyChange) -> Result<Volume, Unfit>
    requires read { AllByRecursion IsReadable change.vnodes }
    requires fits { AllByRecursion FitsImage change.vnodes }
    ensures made { IfOk result (λ v. changed_stored change.counter change.unique change.vnodes change.removed (stored_of volume) ≡ Some (stored_of v)) }
    ensures id { IfOk result (λ v. v.head.id ≡ volume.head.id) }
    ensures bad { result ≡ Err Bad → changed_stored change.counter change.unique change.vnodes change.removed (stored_of volume) ≡ None }
{
    match can_take(alloc, &volume, &change) {
        Ok(true) => Ok(taken_in(volume, change)?),
        Ok(false) => remade(alloc, volume, change.into_change()),
        Err(_) => {
            drop(change);
            Err(Unfit::OutOfMemory)
        }
    }
}
