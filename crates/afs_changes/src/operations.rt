//! Operations on one vnode: StoreData, StoreACL, StoreStatus.

ghost use Rattle.std.specs.Prelude.{◌≡◌, ◌≤◌, ◌∷◌, [], Some, not, length, nat_lt, IfOk, OnOk};
ghost use Rattle.afs_num.specs.declared.calls.FsCall.TheVariants as calls;
ghost use Rattle.spec_ideal.specs.Operations.{first_failing, has_right, is_kind, is_mask, is_read_write, is_whole_store, most_file_bytes, no_amend};
ghost use Rattle.spec_ideal.specs.VnodeImage.{most_acl};
ghost use Rattle.spec_ideal.specs.Volumes.{a_directory, amends};
ghost use Rattle.afs_changes.specs.Planning.{amend_seen, edits_seen, planned, Plans};
ghost use Rattle.afs_reads.specs.Replying.{caller_seen, Passes};
ghost use Rattle.afs_volume.specs.Giving.{volume_of};
ghost use Rattle.afs_volume.specs.Seen.{seen};

use crate::edits::{Amend, Edit, Edits, Plan};
use crate::finding::{is_file, is_writable};
use afs_num::calls::AfsStoreStatus;
use afs_num::sequences::Octets;
use afs_num::types::{Fid, Mem};
use afs_num::vnodes::Vnode;
use afs_reads::callers::Caller;
use afs_reads::checks::check_all;
use afs_reads::faults::OpFault;
use afs_reads::finding::found;
use afs_reads::rights::may;
use afs_volume::bodies::is_acl;
use afs_volume::{Volume, is_directory};
use std::alloc::Global;

/// The most bytes of a file.
pub const MOST_BYTES: usize = 65_536;

/// One edit, of a vnode that the call names.
fn plan_one(alloc: Global, number: u32, amend: Amend) -> Mem<Plan>
    ensures edits { IfOk result (λ p. edits_seen p.edits ≡ amends number (amend_seen amend) ∷ []) }
    ensures shown { IfOk result (λ p. p.shown ≡ number) }
{
    let mut edits = Edits::new(alloc);
    edits.push(Edit::Amends(number, amend))?;
    Ok(Plan {
        edits,
        shown: number,
    })
}

/// One edit, which gives a file other bytes and the words of a status.
fn plan_bytes(alloc: Global, number: u32, contents: &Octets, status: &AfsStoreStatus) -> Mem<Plan>
    requires { length contents.now ≤ most_file_bytes }
    ensures edits { IfOk result (λ p. edits_seen p.edits ≡ amends number (record no_amend { contents = Some contents.now; status = Some status.now }) ∷ []) }
    ensures shown { IfOk result (λ p. p.shown ≡ number) }
{
    let contents = contents.copy(alloc)?;
    let mut amend = Amend::nothing();
    amend.contents = Some(contents);
    amend.status = Some(*status);
    plan_one(alloc, number, amend)
}

/// The mask has no bit above 16.
pub fn is_mask(status: &AfsStoreStatus) -> bool
    ensures { result ≡ is_mask status.now }
{
    status.mask < 32
}

/// A file's bytes are stored whole.
fn is_whole_store(contents: &Octets, position: i32, stored: i32, file_length: i32) -> bool
    ensures { result ≡ is_whole_store contents.now position stored file_length }
{
    let length = contents.len() as i64;
    position == 0 && i64::from(stored) == length && i64::from(file_length) == length
}

/// A caller may store these bytes in a vnode: 21, 30, 13, 22 where something else is bad, 27 where there are too many.
fn may_store(
    volume: &Volume,
    caller: &Caller,
    x: &Vnode,
    is_good: bool,
    contents: &Octets,
) -> Result<(), OpFault>
    ensures answer { Passes (first_failing ((not (is_kind (seen x.now).kind a_directory), 21) ∷ is_read_write (volume_of volume.now) ∷ has_right (caller_seen caller.now) 2 (volume_of volume.now) (Some (seen x.now)) ∷ (is_good, 22) ∷ (not (nat_lt most_file_bytes (length contents.now)), 27) ∷ [])) result }
    ensures short { OnOk result (length contents.now ≤ most_file_bytes) }
{
    check_all(&[
        (!is_directory(x), 21),
        (is_writable(volume), 30),
        (may(volume, caller, 2, x), 13),
        (is_good, 22),
        (contents.len() <= MOST_BYTES, 27),
    ])
}

/// StoreData: a file's bytes, and the words of a status.
pub fn store_data(
    volume: &Volume,
    caller: &Caller,
    fid: &Fid,
    status: &AfsStoreStatus,
    position: i32,
    length: i32,
    file_length: i32,
    contents: &Octets,
) -> Result<Plan, OpFault>
    ensures { Plans (planned (caller_seen caller.now) (calls.StoreData fid.now status.now position length file_length contents.now) (volume_of volume.now)) result }
{
    let x = found(volume, fid)?;
    let is_whole = is_whole_store(contents, position, length, file_length);
    let is_good = is_file(x) && is_whole && is_mask(status);
    may_store(volume, caller, x, is_good, contents)?;
    Ok(plan_bytes(volume.alloc, fid.vnode, contents, status)?)
}

/// StoreACL: a directory's access list.
pub fn store_acl(volume: &Volume, caller: &Caller, fid: &Fid, acl: &Octets) -> Result<Plan, OpFault>
    requires { length acl.now ≤ most_acl }
    ensures { Plans (planned (caller_seen caller.now) (calls.StoreAcl fid.now acl.now) (volume_of volume.now)) result }
{
    let d = found(volume, fid)?;
    let is_list = is_acl(volume.alloc, acl.as_slice())?;
    check_all(&[
        (is_directory(d), 20),
        (is_writable(volume), 30),
        (may(volume, caller, 64, d), 13),
        (is_list, 22),
    ])?;
    let acl = acl.copy(volume.alloc)?;
    let mut amend = Amend::nothing();
    amend.acl = Some(acl);
    Ok(plan_one(volume.alloc, fid.vnode, amend)?)
}

/// StoreStatus: the words of a status, also where they are what was there.
pub fn store_status(
    volume: &Volume,
    caller: &Caller,
    fid: &Fid,
    status: &AfsStoreStatus,
) -> Result<Plan, OpFault>
    ensures { Plans (planned (caller_seen caller.now) (calls.StoreStatus fid.now status.now) (volume_of volume.now)) result }
{
    let x = found(volume, fid)?;
    check_all(&[
        (is_writable(volume), 30),
        (may(volume, caller, 2, x), 13),
        (is_mask(status), 22),
    ])?;
    let mut amend = Amend::nothing();
    amend.status = Some(*status);
    Ok(plan_one(volume.alloc, fid.vnode, amend)?)
}
