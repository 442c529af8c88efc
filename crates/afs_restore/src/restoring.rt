//! A volume is made of what a dump tells and of what another volume has.

ghost use Rattle.std.specs.Prelude.{◌≡◌, ◌&&◌, nat_eq, not, Some, Err, false, IfOk, IfSome};
ghost use Rattle.std.specs.Option.{option_copied, option_map};
ghost use Rattle.spec_dumps.specs.Streams.{FitsDump};
ghost use Rattle.afs_vnode.specs.Stores.{table_of};
ghost use Rattle.afs_volume.specs.Assembling.{make_volume};
ghost use Rattle.afs_volume.specs.Seen.{AreReadable, FitsHead};
ghost use Rattle.afs_volume.specs.declared.faults.AssembleFault.TheVariants.{NotSound};
ghost use Rattle.afs_restore.specs.Filling.{filled, given_in, image_indexed, kept, next_given, or_kept, ImagesAreGood, AreMade, IsGiven, ImageIsGood, IsList, IsMade};
ghost use Rattle.afs_restore.specs.Parts.{dump_in};
ghost use Rattle.afs_restore.specs.Restoring.{MakesVolume};

use crate::fields::are_bytes;
use crate::headers::{Headers, Told};
use crate::parts::Parts;
use afs_num::types::Mem;
use afs_num::vnodes::{Vnode, Vnodes};
use afs_num::volumes::VolumeHead;
use afs_vnode::copying::copy_vnode;
use afs_vnode::store::VnodeStore;
use afs_volume::Volume;
use afs_volume::faults::AssembleFault;
use std::alloc::Global;

/// The image of this vnode, where it is the next one, and the images after it.
fn next_given(images: &[Vnode], pair: (u32, u32)) -> (Option<&Vnode>, &[Vnode])
    ensures given { option_copied result.0 ≡ (next_given pair images.now).0 }
    ensures later { result.1.now ≡ (next_given pair images.now).1 }
{
    match images {
        [x, later @ ..] if x.vnode == pair.0 => (Some(x), later),
        _ => (None, images),
    }
}

/// A copy of an image that the dump gives.
fn given_copy(alloc: Global, x: &Vnode, pair: (u32, u32)) -> Mem<Vnode>
    requires { ImageIsGood pair x.now }
    ensures value { IfOk result (λ y. y ≡ x.now) }
    ensures made { IfOk result (IsMade pair) }
{
    are_bytes(x.contents.as_slice());
    let copy = copy_vnode(alloc, x)?;
    Ok(copy)
}

/// A copy of the vnode of this number and unique number.
fn kept(alloc: Global, old: &VnodeStore, pair: (u32, u32)) -> Mem<Option<Vnode>>
    requires { AreReadable old.now.table }
    ensures value { IfOk result (λ o. o ≡ kept old.now.table pair) }
    ensures given { IfOk result (λ o. IsGiven pair o) }
{
    match old.get(pair.0) {
        Some(x) if x.unique == pair.1 => {
            let x = copy_vnode(alloc, x)?;
            Ok(Some(x))
        }
        _ => Ok(None),
    }
}

/// The vnode of this pair: a copy of what the dump gives, or else of what the volume has.
fn given_or_kept(
    alloc: Global,
    given: Option<&Vnode>,
    old: &VnodeStore,
    pair: (u32, u32),
) -> Mem<Option<Vnode>>
    requires readable { AreReadable old.now.table }
    requires good { IfSome given (λ x. ImageIsGood pair x.now) }
    ensures value { IfOk result (λ o. o ≡ or_kept (option_copied given.entry) (kept old.now.table pair)) }
    ensures given { IfOk result (λ o. IsGiven pair o) }
{
    match given {
        Some(x) => {
            let x = given_copy(alloc, x, pair)?;
            Ok(Some(x))
        }
        None => kept(alloc, old, pair),
    }
}

/// The index of a vnode begins anew where that is asked.
fn indexed(x: Vnode, anew: bool) -> Vnode
    ensures { result ≡ image_indexed anew x }
{
    let mut x = x;
    if anew {
        x.index = 1;
    }
    x
}

/// The vnodes of the list; none where one of them is given nowhere.
fn filled(
    alloc: Global,
    live: &[(u32, u32)],
    images: &[Vnode],
    old: &VnodeStore,
    anew: bool,
) -> Mem<Option<Vnodes>>
    requires readable { AreReadable old.now.table }
    requires good { ImagesAreGood live.now (given_in live.now images.now) }
    ensures value { IfOk result (λ o. o ≡ filled anew old.now.table live.now (given_in live.now images.now)) }
    ensures made { IfOk result (λ o. IfSome o (AreMade live.now)) }
{
    let mut vnodes = Vec::with_capacity(alloc, live.len())?;
    let mut rest = images;
    for pair in live {
        let (given, later) = next_given(rest, *pair);
        rest = later;
        match given_or_kept(alloc, given, old, *pair)? {
            Some(x) => vnodes.push(indexed(x, anew))?,
            None => return Ok(None),
        }
    }
    Ok(Some(Vnodes::from_vec(vnodes)))
}

/// The head of the restored volume: number, family, name, kind and flags stay, all else is the dump's.
fn restored_head(alloc: Global, old: &VolumeHead, headers: &Headers) -> Mem<VolumeHead>
    ensures { IfOk result (λ h. h ≡ record old.now { quota = headers.now.told.quota; unique = headers.now.told.unique; counter = headers.now.told.counter; release = headers.now.told.release }) }
{
    let told = headers.told;
    Ok(VolumeHead {
        id: old.id,
        family: old.family,
        name: old.name.copy(alloc)?,
        kind: old.kind,
        flags: old.flags,
        quota: told.quota,
        unique: told.unique,
        counter: told.counter,
        release: told.release,
    })
}

/// The volume is a read-write volume of another family than the dump's. The number of a read-write volume is its family.
fn is_other_family(old: &VolumeHead, told: Told) -> bool
    ensures { result ≡ (nat_eq old.now.kind 0 && not (nat_eq old.now.id told.family)) }
{
    old.kind == 0 && old.id != told.family
}

/// The volume of these vnodes, which are those of a list. `NotSound` also where there are none.
fn assembled(
    alloc: Global,
    head: VolumeHead,
    vnodes: Option<Vnodes>,
    live: &[(u32, u32)],
) -> Result<Volume, AssembleFault>
    requires fits { FitsHead head }
    requires listed { IsList live.now }
    requires made { IfSome vnodes (AreMade live.now) }
    ensures ok { IfOk result (λ v. (v.head ≡ head) × (Some v.vnodes.table ≡ option_map table_of vnodes)) }
    ensures not_sound { result ≡ Err NotSound → IfSome vnodes (λ xs. make_volume head (table_of xs) ≡ false) }
{
    let Some(vnodes) = vnodes else {
        return Err(AssembleFault::NotSound);
    };
    Volume::assemble(alloc, head, VnodeStore::of(vnodes))
}

/// The volume that a dump makes of another one, under its number. `NotSound` where a listed vnode is given nowhere, or the vnodes
/// make no sound volume.
pub fn made(alloc: Global, parts: &Parts, old: &Volume) -> Result<Volume, AssembleFault>
    requires { FitsDump (dump_in parts.now) }
    ensures value { MakesVolume (dump_in parts.now) old.now result }
    ensures id { IfOk result (λ v. v.head.id ≡ old.now.head.id) }
{
    let anew = is_other_family(old.head(), parts.headers.told);
    let head = restored_head(alloc, old.head(), &parts.headers)?;
    let live = parts.live.as_slice();
    let vnodes = filled(alloc, live, parts.images.as_slice(), old.vnodes(), anew)?;
    assembled(alloc, head, vnodes, live)
}
