//! A volume made of its parts.

ghost use Rattle.std.specs.Prelude.{◌≡◌, ◌≤◌, true, false, nat_eq, slice_get, Err, IfOk, OnOk};
ghost use Rattle.indexmap.specs.IndexMap as maps;
ghost use Rattle.spec_ideal.specs.Volumes.{blocks_in};
ghost use Rattle.spec_records.specs.Sound.{is_sound};
ghost use Rattle.afs_volume.specs.Assembling.{blocks_in_place, make_volume, IsReadablePlace};
ghost use Rattle.afs_volume.specs.Listed.{Lists};
ghost use Rattle.afs_volume.specs.Seen.{all_seen, volume_seen, AreReadable, FitsHead};
ghost use Rattle.afs_volume.specs.declared.faults.AssembleFault.TheVariants.{NotSound};

use crate::Volume;
use crate::bodies::blocks_of;
use crate::directories::Directories;
use crate::faults::AssembleFault;
use crate::naming::NameCounts;
use crate::soundness::Parts;
use afs_num::volumes::VolumeHead;
use afs_vnode::store::VnodeStore;
use std::alloc::Global;

/// How many blocks the vnode in a place takes.
fn blocks_in_place(vnodes: &VnodeStore, place: u32) -> u64
    requires { IsReadablePlace (slice_get vnodes.now.table place) }
    ensures value { result ≡ blocks_in_place (slice_get vnodes.now.table place) }
    ensures few { result ≤ 2048 }
{
    match vnodes.at(place) {
        Some(x) => blocks_of(x),
        None => 0,
    }
}

/// How many blocks the vnodes take.
fn blocks_in(vnodes: &VnodeStore) -> u32
    requires { AreReadable vnodes.now.table }
    ensures { result ≡ blocks_in (all_seen vnodes.now.table) }
{
    let mut sum = 0;
    for place in 0..vnodes.len() as u32 {
        sum += blocks_in_place(vnodes, place);
    }
    sum as u32
}

/// The names of all directories of the parts of a volume. `NotSound` where they make no sound volume, or can't be read.
fn sound_names(
    alloc: Global,
    head: &VolumeHead,
    vnodes: &VnodeStore,
) -> Result<Directories, AssembleFault>
    ensures listed { IfOk result (λ d. Lists (maps.get nat_eq d.dirs) (all_seen vnodes.now.table)) }
    ensures readable { OnOk result (AreReadable vnodes.now.table) }
    ensures sound { OnOk result (is_sound (volume_seen head.now vnodes.now.table) ≡ true) }
    ensures whole { OnOk result (make_volume head.now vnodes.now.table ≡ true) }
    ensures not_sound { result ≡ Err NotSound → make_volume head.now vnodes.now.table ≡ false }
{
    let dirs = Directories::read(alloc, vnodes)?;
    let counts = NameCounts::of(alloc, vnodes, &dirs)?;
    let parts = Parts {
        head,
        vnodes,
        dirs: &dirs,
        counts: &counts,
    };
    if !parts.is_sound() {
        return Err(AssembleFault::NotSound);
    }
    Ok(dirs)
}

impl Volume {
    /// The volume of these parts. `NotSound` where they make no sound volume, or a directory's contents or access list
    /// can't be read. A refusal gives no part back. The head has to be within the limits of a record, as one that was read is.
    pub fn assemble(
        alloc: Global,
        head: VolumeHead,
        vnodes: VnodeStore,
    ) -> Result<Volume, AssembleFault>
        requires { FitsHead head }
        ensures parts { IfOk result (λ v. (v.head ≡ head) × (v.vnodes ≡ vnodes)) }
        ensures whole { OnOk result (make_volume head vnodes.table ≡ true) }
        ensures not_sound { result ≡ Err NotSound → make_volume head vnodes.table ≡ false }
    {
        let dirs = sound_names(alloc, &head, &vnodes)?;
        let blocks = blocks_in(&vnodes);
        Ok(Volume {
            alloc,
            head,
            vnodes,
            dirs,
            blocks,
        })
    }

    /// The parts of a volume, which `assemble` takes again, as they are or with other vnodes put in. It takes no memory.
    #[tactic(auto, using(crate::proofs::Readable::parts_make))]
    pub fn into_parts(self) -> (VolumeHead, VnodeStore)
        ensures head { result.0 ≡ self.head }
        ensures vnodes { result.1 ≡ self.vnodes }
        ensures whole { make_volume result.0 result.1.table ≡ true }
        ensures fits { FitsHead result.0 }
    {
        let Volume { head, vnodes, .. } = self;
        (head, vnodes)
    }
}
