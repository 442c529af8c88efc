//! The vnodes of fids.

ghost use Rattle.std.specs.Prelude.{◌≡◌, Some, IfOk, IfSome};
ghost use Rattle.std.specs.Option.{option_copied, option_map};
ghost use Rattle.spec_ideal.specs.Tables.{get};
ghost use Rattle.spec_ideal.specs.VnodeImage.{FitsImage};
ghost use Rattle.spec_ideal.specs.Volumes.{if_unique, vnode_of};
ghost use Rattle.afs_volume.specs.Giving.{volume_of};
ghost use Rattle.afs_reads.specs.Replying.{Finds};
ghost use Rattle.afs_volume.specs.Seen.{seen, IsReadable};

use crate::faults::OpFault;
use afs_num::types::{Code, Fid};
use afs_num::vnodes::Vnode;
use afs_volume::Volume;

/// The vnode of a number, where it has this unique number.
#[tactic(auto, unfolding(afs_volume::specs::Seen::seen))]
pub fn at<'a>(volume: &'a Volume, number: u32, unique: u32) -> Option<&'a Vnode>
    ensures seen { option_map seen (option_copied result) ≡ if_unique unique (get number (volume_of volume.now).vnodes) }
    ensures number { IfSome result (λ x. x.now.vnode ≡ number) }
    ensures value { IfSome result (λ x. get number volume.now.vnodes.table ≡ Some x.now) }
    ensures fits { IfSome result (λ x. FitsImage x.now) }
    ensures readable { IfSome result (λ x. IsReadable x.now) }
{
    match volume.get(number) {
        Some(x) if x.unique == unique => Some(x),
        _ => None,
    }
}

/// The vnode of a fid.
pub fn vnode<'a>(volume: &'a Volume, fid: &Fid) -> Option<&'a Vnode>
    ensures seen { option_map seen (option_copied result) ≡ vnode_of fid.now (volume_of volume.now) }
    ensures number { IfSome result (λ x. x.now.vnode ≡ fid.now.vnode) }
    ensures value { IfSome result (λ x. get fid.now.vnode volume.now.vnodes.table ≡ Some x.now) }
    ensures fits { IfSome result (λ x. FitsImage x.now) }
    ensures readable { IfSome result (λ x. IsReadable x.now) }
{
    at(volume, fid.vnode, fid.unique)
}

/// The vnode of a fid, or 102.
pub fn found<'a>(volume: &'a Volume, fid: &Fid) -> Result<&'a Vnode, OpFault>
    ensures found { Finds (λ x. x.now) (vnode_of fid.now (volume_of volume.now)) result }
    ensures number { IfOk result (λ x. x.now.vnode ≡ fid.now.vnode) }
    ensures value { IfOk result (λ x. get fid.now.vnode volume.now.vnodes.table ≡ Some x.now) }
    ensures fits { IfOk result (λ x. FitsImage x.now) }
    ensures readable { IfOk result (λ x. IsReadable x.now) }
{
    match vnode(volume, fid) {
        Some(x) => Ok(x),
        None => Err(OpFault::Code(Code(102))),
    }
}
