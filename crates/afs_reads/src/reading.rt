//! Reading calls: the tests in the order of refusals, then the reply.

ghost use Rattle.std.specs.Prelude.{◌≡◌, true, IfOk};
ghost use Rattle.afs_num.specs.declared.calls.FsCall.TheVariants as calls;
ghost use Rattle.spec_ideal.specs.AccessLists.{acl_text};
ghost use Rattle.spec_ideal.specs.Operations.{is_kind, op, the_user, IsOn};
ghost use Rattle.spec_ideal.specs.Volumes.{a_directory};
ghost use Rattle.afs_reads.specs.Replying.{caller_seen, is_reading, FitsCall, FitsReply, Replies};
ghost use Rattle.afs_volume.specs.Giving.{volume_of};
ghost use Rattle.afs_volume.specs.Seen.{seen, IsReadable};

use crate::bulk::bulk_status;
use crate::callers::Caller;
use crate::checks::{check, check_all};
use crate::faults::OpFault;
use crate::finding::found;
use crate::replies::{no_callback, status_with, sync};
use crate::rights::{may, rights_on};
use afs_num::calls::{FsCall, FsReply};
use afs_num::sequences::Octets;
use afs_num::types::Fid;
use afs_num::vnodes::Vnode;
use afs_volume::bodies::bytes_of;
use afs_volume::{Volume, is_directory};

/// The text of a directory's access list.
#[tactic(auto, unfolding(afs_volume::specs::Seen::seen), using(afs_volume::proofs::Texts::text_is_list))]
fn list_text(d: &Vnode) -> &Octets
    requires readable { IsReadable d.now }
    requires directory { is_kind (seen d.now).kind a_directory ≡ true }
    ensures seen { result.now ≡ acl_text (seen d.now).acl }
    ensures text { result.now ≡ d.now.acl }
{
    &d.acl
}

/// FetchData: a vnode's bytes and status.
fn fetch_data(
    volume: &Volume,
    caller: &Caller,
    fid: &Fid,
    position: i32,
    length: i32,
) -> Result<FsReply, OpFault>
    ensures replies { Replies (caller_seen caller.now) volume.now (op volume.now.head.id (caller_seen caller.now) (calls.FetchData fid.now position length) (volume_of volume.now)) result }
    ensures fits { IfOk result (λ r. FitsReply r) }
{
    let x = found(volume, fid)?;
    let right = if is_directory(x) { 8 } else { 1 };
    let rights = rights_on(volume, caller, x);
    let is_whole = position == 0 && length == 2_147_483_647;
    check_all(&[(rights.has(right), 13), (is_whole, 22)])?;
    let contents = bytes_of(x).copy(volume.alloc)?;
    Ok(FsReply::FetchData {
        contents,
        status: status_with(x, rights),
        callback: no_callback(),
        sync: sync(volume),
    })
}

/// FetchACL: a directory's access list and status.
fn fetch_acl(volume: &Volume, caller: &Caller, fid: &Fid) -> Result<FsReply, OpFault>
    ensures replies { Replies (caller_seen caller.now) volume.now (op volume.now.head.id (caller_seen caller.now) (calls.FetchAcl fid.now) (volume_of volume.now)) result }
    ensures fits { IfOk result (λ r. FitsReply r) }
{
    let d = found(volume, fid)?;
    let rights = rights_on(volume, caller, d);
    check_all(&[(is_directory(d), 20), (rights.has(8), 13)])?;
    let acl = list_text(d).copy(volume.alloc)?;
    Ok(FsReply::FetchAcl {
        acl,
        status: status_with(d, rights),
        sync: sync(volume),
    })
}

/// FetchStatus.
fn fetch_status(volume: &Volume, caller: &Caller, fid: &Fid) -> Result<FsReply, OpFault>
    ensures replies { Replies (caller_seen caller.now) volume.now (op volume.now.head.id (caller_seen caller.now) (calls.FetchStatus fid.now) (volume_of volume.now)) result }
    ensures fits { IfOk result (λ r. FitsReply r) }
{
    let x = found(volume, fid)?;
    let rights = rights_on(volume, caller, x);
    check(rights.has(8), 13)?;
    Ok(FsReply::FetchStatus {
        status: status_with(x, rights),
        callback: no_callback(),
        sync: sync(volume),
    })
}

/// GetVolumeStatus, which wants the right to look up at the root.
fn volume_status(volume: &Volume, caller: &Caller, id: u32) -> Result<FsReply, OpFault>
    ensures replies { Replies (caller_seen caller.now) volume.now (op volume.now.head.id (caller_seen caller.now) (calls.GetVolumeStatus id) (volume_of volume.now)) result }
    ensures fits { IfOk result (λ r. FitsReply r) }
{
    let may = match volume.get(1) {
        Some(root) => may(volume, caller, 8, root),
        None => false,
    };
    check(may, 13)?;
    Ok(FsReply::GetVolumeStatus {
        volume: volume.head.id,
        kind: volume.head.kind,
        quota: volume.head.quota,
        blocks_used: volume.blocks,
        name: volume.head.name.copy(volume.alloc)?,
    })
}

/// The reply to a reading call, 130 to 132, 149 or 155, all of whose fids are of this volume; or its refusal, by 102,
/// 20, 13 or 22. Promises to call back are left for the server to fill.
pub fn read(volume: &Volume, call: &FsCall, user: &[u8]) -> Result<FsReply, OpFault>
    requires reading { is_reading call.now ≡ true }
    requires on { IsOn volume.now.head.id call.now }
    ensures replies { Replies (the_user user.now) volume.now (op volume.now.head.id (the_user user.now) call.now (volume_of volume.now)) result }
    ensures fits { FitsCall call.now → IfOk result (λ r. FitsReply r) }
{
    let caller = Caller::User(user);
    match call {
        FsCall::FetchData {
            fid,
            position,
            length,
        } => fetch_data(volume, &caller, fid, *position, *length),
        FsCall::FetchAcl { fid } => fetch_acl(volume, &caller, fid),
        FsCall::FetchStatus { fid } => fetch_status(volume, &caller, fid),
        FsCall::GetVolumeStatus { volume: id } => volume_status(volume, &caller, *id),
        FsCall::BulkStatus { fids } => bulk_status(volume, &caller, fids.as_slice()),
        _ => unreachable!(),
    }
}
