//! A new volume.

ghost use Rattle.std.specs.Prelude.{◌≡◌, ◌≤◌, ◌∷◌, [], true, is_ok, length, IfOk};
ghost use Rattle.spec_ideal.specs.AccessLists.{acl_at};
ghost use Rattle.spec_ideal.specs.SetUp.{new_root, new_volume};
ghost use Rattle.spec_ideal.specs.VnodeImage.{FitsImage};
ghost use Rattle.spec_records.specs.Records.{most_name};
ghost use Rattle.spec_shape.specs.Tables.{IsVolumeKind};
ghost use Rattle.afs_volume.specs.Giving.{volume_of};
ghost use Rattle.afs_volume.specs.Seen.{all_seen, list_spelled, seen, AreReadable, IsReadable};
ghost use Rattle.afs_volume.specs.Taking.{times_in, IsAtSetUp};

use crate::Volume;
use crate::bodies::spelled;
use crate::directories::Directories;
use crate::faults::AssembleFault;
use crate::finding::DIRECTORY;
use afs_dir::Dir;
use afs_num::sequences::Octets;
use afs_num::types::Mem;
use afs_num::vnodes::Vnode;
use afs_num::volumes::VolumeHead;
use afs_vnode::store::VnodeStore;
use std::alloc::{AllocError, Global};

/// An access list that gives everyone all rights.
#[tactic(auto, using(crate::proofs::Texts::everyone_is_read, crate::proofs::Texts::everyone_is_listed))]
fn everyone(alloc: Global) -> Mem<Octets>
    ensures list { IfOk result (λ text. list_spelled text ≡ new_root.acl) }
    ensures read { IfOk result (λ text. is_ok (acl_at text) ≡ true) }
    ensures short { IfOk result (λ text. length text ≤ 1024) }
{
    let text = Octets::from_slice(alloc, b"1\n0\nsystem:anyuser\t127\n")?;
    Ok(text)
}

/// The root of a new volume.
#[tactic(auto, unfolding(crate::specs::Seen::seen), using(crate::proofs::Texts::nothing_is_short))]
fn new_root(alloc: Global) -> Mem<Vnode>
    ensures seen { IfOk result (λ x. seen x ≡ new_root) }
    ensures number { IfOk result (λ x. x.vnode ≡ 1) }
    ensures time { IfOk result (λ x. x.server_time ≡ 0) }
    ensures readable { IfOk result (λ x. IsReadable x) }
    ensures fits { IfOk result (λ x. FitsImage x) }
{
    let names = Dir::new(alloc)?;
    Ok(Vnode {
        vnode: 1,
        unique: 1,
        kind: DIRECTORY,
        index: 1,
        data_version: 1,
        link_count: 2,
        owner: 0,
        group: 0,
        mode: 0o755,
        segment_size: 0,
        client_time: 0,
        server_time: 0,
        parent_vnode: 0,
        parent_unique: 0,
        change_counter: 1,
        acl: everyone(alloc)?,
        contents: spelled(&names)?,
    })
}

/// The vnodes of a new volume.
#[tactic(auto, unfolding(crate::specs::Seen::all_seen))]
fn new_vnodes(alloc: Global) -> Mem<VnodeStore>
    ensures seen { IfOk result (λ t. all_seen t.table ≡ (1, new_root) ∷ []) }
    ensures times { IfOk result (λ t. times_in t.table ≡ (1, 0) ∷ []) }
    ensures readable { IfOk result (λ t. AreReadable t.table) }
{
    let mut vnodes = VnodeStore::new(alloc);
    match vnodes.put(new_root(alloc)?) {
        Ok(()) => Ok(vnodes),
        Err(_) => Err(AllocError),
    }
}

impl Volume {
    /// A volume with its root alone, which gives everyone all rights. Its kind and its name have to be within the limits of a
    /// record, so that every volume can be told.
    pub fn new(
        alloc: Global,
        id: u32,
        family: u32,
        name: &[u8],
        kind: u32,
        flags: u32,
        quota: u32,
    ) -> Mem<Volume>
        requires kind { IsVolumeKind kind }
        requires name { length name.now ≤ most_name }
        ensures id { IfOk result (λ v. v.head.id ≡ id) }
        ensures value { IfOk result (λ v. volume_of v ≡ new_volume family name.now kind flags quota) }
        ensures times { IfOk result (λ v. IsAtSetUp v) }
    {
        let vnodes = new_vnodes(alloc)?;
        let dirs = match Directories::read(alloc, &vnodes) {
            Ok(dirs) => dirs,
            Err(AssembleFault::OutOfMemory) => return Err(AllocError),
            Err(AssembleFault::NotSound) => unreachable!(),
        };
        let head = VolumeHead {
            id,
            family,
            name: Octets::from_slice(alloc, name)?,
            kind,
            flags,
            quota,
            unique: 2,
            counter: 1,
            release: 0,
        };
        Ok(Volume {
            alloc,
            head,
            vnodes,
            dirs,
            blocks: 1,
        })
    }
}
