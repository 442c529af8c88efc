//! Lines of set-up that are one operation each: directories, links and access lists. What is changed is as at first.

ghost use Rattle.std.specs.Prelude.{◌≡◌, ◌≤◌, true, length, IfErr, IfOk};
ghost use Rattle.spec_ideal.specs.Operations.{IsOn};
ghost use Rattle.spec_ideal.specs.SetUp.{a_dir, a_link_to, acl_laid, called, laid_at, laid_in, unless_over, Laid};
ghost use Rattle.spec_ideal.specs.VnodeImage.{most_acl, most_contents};
ghost use Rattle.spec_history.specs.Written.{bytes_in};
ghost use Rattle.afs_laying.specs.Filled.{IsCodeOf, Lays};
ghost use Rattle.afs_changes.specs.Planning.{is_changing};
ghost use Rattle.afs_volume.specs.Giving.{volume_of};
ghost use Rattle.afs_reads.specs.Replying.{FitsCall};
ghost use Rattle.afs_volume.specs.Taking.{IsAtSetUp};

use crate::laying::{lay_edits, led, nothing_set, plan_laid};
use afs_num::calls::FsCall;
use afs_num::sequences::Octets;
use afs_num::types::{Code, Fid};
use afs_reads::checks::check;
use afs_reads::faults::OpFault;
use afs_volume::Volume;
use spec_history::acts::Written;
use spec_history::written::bytes_in;

/// The most bytes that an image holds of contents, and of an access list.
const MOST_CONTENTS: usize = 2_097_152;

const MOST_ACL: usize = 1_024;

/// Lays what a call of the caller with all rights changes, or leaves the volume as it was.
#[tactic(auto, using(afs_volume::proofs::AtSetUp::still_at_set_up))]
fn lay_call(volume: &mut Volume, call: FsCall) -> Result<(), OpFault>
    requires changing { is_changing call ≡ true }
    requires fits { FitsCall call }
    requires on { IsOn volume.old.head.id call }
    ensures lays { Lays (called volume.old.head.id call (volume_of volume.old)) volume.old volume.new result }
    ensures id { volume.new.head.id ≡ volume.old.head.id }
    ensures times { IsAtSetUp volume.old → IsAtSetUp volume.new }
{
    let plan = plan_laid(volume, call)?;
    lay_edits(volume, plan.edits.as_slice())?;
    Ok(())
}

/// The directory in which a path's last name is to stand, and that name: 22 where the path has none, 20 and 2 where the
/// others don't lead to a directory.
fn last_in(volume: &Volume, path: &[Octets]) -> Result<(Fid, Octets), OpFault>
    ensures found { IfOk result (λ p. (x : Laid) → laid_at volume.now.head.id path.now x (volume_of volume.now) ≡ laid_in volume.now.head.id (volume_of volume.now) p.0 p.1 x) }
    ensures volume { IfOk result (λ p. p.0.volume ≡ volume.now.head.id) }
    ensures refused { IfErr result (λ e. (x : Laid) → IsCodeOf (laid_at volume.now.head.id path.now x (volume_of volume.now)) e) }
{
    let Some(name) = path.last() else {
        return Err(OpFault::Code(Code(22)));
    };
    let directory = led(volume, &path[..path.len() - 1])?;
    let name = name.copy(volume.alloc)?;
    Ok((directory, name))
}

/// Lays a directory, or leaves the volume as it was: 22 where its path has no name, 20 and 2 where it doesn't lead to a
/// directory, and the refusals of MakeDir.
pub fn lay_directory(volume: &mut Volume, path: &[Octets]) -> Result<(), OpFault>
    ensures lays { Lays (laid_at volume.old.head.id path.now a_dir (volume_of volume.old)) volume.old volume.new result }
    ensures id { volume.new.head.id ≡ volume.old.head.id }
    ensures times { IsAtSetUp volume.old → IsAtSetUp volume.new }
{
    let (directory, name) = last_in(volume, path)?;
    let call = FsCall::MakeDir {
        directory,
        name,
        status: nothing_set(),
    };
    lay_call(volume, call)
}

/// Lays a link with this text.
fn lay_link_to(volume: &mut Volume, path: &[Octets], target: Octets) -> Result<(), OpFault>
    requires { length target ≤ most_contents }
    ensures lays { Lays (laid_at volume.old.head.id path.now (a_link_to target) (volume_of volume.old)) volume.old volume.new result }
    ensures id { volume.new.head.id ≡ volume.old.head.id }
    ensures times { IsAtSetUp volume.old → IsAtSetUp volume.new }
{
    let (directory, name) = last_in(volume, path)?;
    let call = FsCall::Symlink {
        directory,
        name,
        target,
        status: nothing_set(),
    };
    lay_call(volume, call)
}

/// Lays a link with this text, or leaves the volume as it was: 27 where the text is too large, 22 where the path has no
/// name, 20 and 2 where it doesn't lead to a directory, and the refusals of Symlink.
pub fn lay_link(volume: &mut Volume, path: &[Octets], target: &Written) -> Result<(), OpFault>
    ensures lays { Lays (unless_over most_contents (length (bytes_in target.now)) (laid_at volume.old.head.id path.now (a_link_to (bytes_in target.now)) (volume_of volume.old))) volume.old volume.new result }
    ensures id { volume.new.head.id ≡ volume.old.head.id }
    ensures times { IsAtSetUp volume.old → IsAtSetUp volume.new }
{
    let target = bytes_in(volume.alloc, target)?;
    check(target.len() <= MOST_CONTENTS, 27)?;
    lay_link_to(volume, path, target)
}

/// Gives the directory at a path this access list.
fn lay_acl(volume: &mut Volume, path: &[Octets], acl: Octets) -> Result<(), OpFault>
    requires { length acl ≤ most_acl }
    ensures lays { Lays (acl_laid volume.old.head.id path.now acl (volume_of volume.old)) volume.old volume.new result }
    ensures id { volume.new.head.id ≡ volume.old.head.id }
    ensures times { IsAtSetUp volume.old → IsAtSetUp volume.new }
{
    let fid = led(volume, path)?;
    lay_call(volume, FsCall::StoreAcl { fid, acl })
}

/// Gives the directory at a path this access list, or leaves the volume as it was: 27 where the text is too large, 20
/// and 2 where the path doesn't lead anywhere, and the refusals of StoreACL.
pub fn lay_access_list(volume: &mut Volume, path: &[Octets], text: &Written) -> Result<(), OpFault>
    ensures lays { Lays (unless_over most_acl (length (bytes_in text.now)) (acl_laid volume.old.head.id path.now (bytes_in text.now) (volume_of volume.old))) volume.old volume.new result }
    ensures id { volume.new.head.id ≡ volume.old.head.id }
    ensures times { IsAtSetUp volume.old → IsAtSetUp volume.new }
{
    let acl = bytes_in(volume.alloc, text)?;
    check(acl.len() <= MOST_ACL, 27)?;
    lay_acl(volume, path, acl)
}
