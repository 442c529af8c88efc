//! Operations that take a name away: RemoveFile, RemoveDir.

ghost use Rattle.std.specs.Prelude.{◌≡◌, true, is_some, Some, IfOk};
ghost use Rattle.afs_num.specs.declared.calls.FsCall.TheVariants as calls;
ghost use Rattle.spec_ideal.specs.Directories.{named};
ghost use Rattle.spec_ideal.specs.Operations.{is_kind, removing};
ghost use Rattle.spec_ideal.specs.Tables.{get};
ghost use Rattle.spec_ideal.specs.Volumes.{a_directory, ascending, vnode_of};
ghost use Rattle.afs_reads.specs.Replying.{caller_seen};
ghost use Rattle.afs_changes.specs.Planning.{edits_seen, planned, Plans};
ghost use Rattle.afs_volume.specs.Giving.{volume_of};
ghost use Rattle.afs_volume.specs.Seen.{seen};

use crate::edits::Plan;
use crate::finding::{
    has_name, is_directory_there, is_empty, is_writable, links_of, named, number_named,
};
use crate::naming::{removes, spelled_without};
use afs_num::sequences::Octets;
use afs_num::types::{Fid, Mem};
use afs_num::vnodes::Vnode;
use afs_reads::callers::Caller;
use afs_reads::checks::{check, check_all};
use afs_reads::faults::OpFault;
use afs_reads::finding::found;
use afs_reads::rights::may;
use afs_volume::{Volume, is_directory};

/// A name less, in a directory that has it, and the vnode that it named without that name.
fn removes_name(volume: &Volume, fid: &Fid, d: &Vnode, name: &[u8], links: Option<u64>) -> Mem<Plan>
    requires found { vnode_of fid.now (volume_of volume.now) ≡ Some (seen d.now) }
    requires there { get fid.now.vnode volume.now.vnodes.table ≡ Some d.now }
    requires directory { is_kind (seen d.now).kind a_directory ≡ true }
    requires named { is_some (named name.now (seen d.now).names) ≡ true }
    ensures edits { IfOk result (λ p. edits_seen p.edits ≡ ascending (removing fid.now name.now links (volume_of volume.now))) }
    ensures shown { IfOk result (λ p. p.shown ≡ fid.now.vnode) }
{
    let names = volume.names(fid.vnode, d);
    let number = number_named(names, name);
    let target = named(volume, names, name);
    let left = spelled_without(volume.alloc, names, d.contents.as_slice(), name)?;
    removes(volume.alloc, fid.vnode, left, links, number, target)
}

/// RemoveFile: a name of a file or link less.
pub fn remove_file(
    volume: &Volume,
    caller: &Caller,
    fid: &Fid,
    name: &Octets,
) -> Result<Plan, OpFault>
    ensures { Plans (planned (caller_seen caller.now) (calls.RemoveFile fid.now name.now) (volume_of volume.now)) result }
{
    let d = found(volume, fid)?;
    check(is_directory(d), 20)?;
    let name = name.as_slice();
    let names = volume.names(fid.vnode, d);
    let target = named(volume, names, name);
    check_all(&[
        (!is_directory_there(target), 21),
        (is_writable(volume), 30),
        (may(volume, caller, 16, d), 13),
        (has_name(names, name), 2),
    ])?;
    Ok(removes_name(volume, fid, d, name, None)?)
}

/// RemoveDir: an empty directory and its name.
pub fn remove_dir(
    volume: &Volume,
    caller: &Caller,
    fid: &Fid,
    name: &Octets,
) -> Result<Plan, OpFault>
    ensures { Plans (planned (caller_seen caller.now) (calls.RemoveDir fid.now name.now) (volume_of volume.now)) result }
{
    let d = found(volume, fid)?;
    check(is_directory(d), 20)?;
    let name = name.as_slice();
    let names = volume.names(fid.vnode, d);
    let target = named(volume, names, name);
    let is_there = has_name(names, name);
    check_all(&[
        (!is_there || is_directory_there(target), 20),
        (is_writable(volume), 30),
        (may(volume, caller, 16, d), 13),
        (is_there, 2),
        (is_empty(volume, target), 39),
    ])?;
    let links = links_of(d).saturating_sub(1);
    Ok(removes_name(volume, fid, d, name, Some(links))?)
}
