//! What the operation of a call is to do.

ghost use Rattle.std.specs.Prelude.{◌≡◌, ◌≤◌, length, true, IfOk};
ghost use Rattle.spec_ideal.specs.Operations.{by_tests, changes, first_failing, limits, op, IsOn};
ghost use Rattle.spec_ideal.proofs.Looks.{Distinct};
ghost use Rattle.spec_ideal.specs.VnodeMaps.{most_vnodes};
ghost use Rattle.spec_ideal.specs.Soundness.{IsSound};
ghost use Rattle.afs_reads.specs.Replying.{caller_seen, FitsCall};
ghost use Rattle.afs_changes.specs.Planning.{edits_seen, is_changing, planned, Plans};
ghost use Rattle.afs_volume.specs.Giving.{volume_of};

use crate::creating::{create_file, link, make_dir, symlink};
use crate::edits::Plan;
use crate::limits::check_limits;
use crate::operations::{store_acl, store_data, store_status};
use crate::removing::{remove_dir, remove_file};
use crate::renaming::rename;
use afs_num::calls::FsCall;
use afs_reads::callers::Caller;
use afs_reads::faults::OpFault;
use afs_volume::Volume;

/// What the operation of a call is to do.
fn planned(volume: &Volume, caller: &Caller, call: &FsCall) -> Result<Plan, OpFault>
    requires changing { is_changing call.now ≡ true }
    requires fits { FitsCall call.now }
    ensures { Plans (planned (caller_seen caller.now) call.now (volume_of volume.now)) result }
{
    match call {
        FsCall::StoreData {
            fid,
            status,
            position,
            length,
            file_length,
            contents,
        } => store_data(
            volume,
            caller,
            fid,
            status,
            *position,
            *length,
            *file_length,
            contents,
        ),
        FsCall::StoreAcl { fid, acl } => store_acl(volume, caller, fid, acl),
        FsCall::StoreStatus { fid, status } => store_status(volume, caller, fid, status),
        FsCall::RemoveFile { directory, name } => remove_file(volume, caller, directory, name),
        FsCall::CreateFile {
            directory,
            name,
            status,
        } => create_file(volume, caller, directory, name, status),
        FsCall::Rename {
            old_directory,
            old_name,
            new_directory,
            new_name,
        } => rename(
            volume,
            caller,
            old_directory,
            old_name,
            new_directory,
            new_name,
        ),
        FsCall::Symlink {
            directory,
            name,
            target,
            status,
        } => symlink(volume, caller, directory, name, target, status),
        FsCall::Link {
            directory,
            name,
            existing,
        } => link(volume, caller, directory, name, existing),
        FsCall::MakeDir {
            directory,
            name,
            status,
        } => make_dir(volume, caller, directory, name, status),
        FsCall::RemoveDir { directory, name } => remove_dir(volume, caller, directory, name),
        _ => unreachable!(),
    }
}

/// A plan within its limits.
fn within_limits(volume: &Volume, plan: Plan) -> Result<Plan, OpFault>
    requires apart { Distinct (edits_seen plan.edits) }
    requires few { length plan.edits ≤ 4 }
    ensures plan { Plans (by_tests (first_failing (limits volume.now.head.id (edits_seen plan.edits) (volume_of volume.now))) (changes (edits_seen plan.edits) plan.shown)) result }
    ensures few { length (volume_of volume.now).vnodes ≤ most_vnodes }
{
    check_limits(volume, plan.edits.as_slice())?;
    Ok(plan)
}

/// What the operation of a call is to do, within its limits.
pub fn plan_within(volume: &Volume, caller: &Caller, call: &FsCall) -> Result<Plan, OpFault>
    requires changing { is_changing call.now ≡ true }
    requires fits { FitsCall call.now }
    requires on { IsOn volume.now.head.id call.now }
    requires sound { IsSound (volume_of volume.now) }
    ensures plan { Plans (op volume.now.head.id (caller_seen caller.now) call.now (volume_of volume.now)) result }
    ensures few { IfOk result (λ p. length (volume_of volume.now).vnodes ≤ most_vnodes) }
{
    let plan = planned(volume, caller, call)?;
    within_limits(volume, plan)
}
