//! What is decided on a call by its volume, and by what is read of it.

ghost use Rattle.std.specs.Prelude.{◌≡◌, ◌∷◌, [], Bool, true, false, IfOk, Some, None};
ghost use Rattle.spec_ideal.specs.Operations.{the_user, volume_called};
ghost use Rattle.afs_changes.specs.Planning.{is_changing};
ghost use Rattle.afs_reads.specs.Replying.{is_reading};
ghost use Rattle.spec_rows.specs.ServerRow.{code_of_unreadable, is_client, serves};
ghost use Rattle.afs_decisions.specs.Deciding.{granted_data, granted_in, granted_status, is_on_volume, CanBeTold, ChangesAs, Decides, FitsDecided, ReadsAs, decided_in, IsDecisionIn, IsCallUnder};
ghost use Rattle.spec_rows.specs.States.{ServerState};

use crate::decided::Decided;
use afs_callees::few::Few;
use afs_callees::telling::Grant;
use afs_changes::apply_ready;
use afs_num::calls::{AfsFetchStatus, FsCall, FsReply};
use afs_num::sequences::Sequence;
use afs_num::types::{Fid, Head, Mem, Node};
use afs_reads::faults::OpFault;
use afs_reads::read;
use afs_volume::{ReadyChange, Volume};
use std::alloc::{AllocError, Global};

/// The calls that the server serves.
pub const CALLS: [u32; 17] = [
    130, 131, 132, 133, 134, 135, 136, 137, 138, 139, 140, 141, 142, 147, 149, 153, 155,
];

/// The call isn't served here.
pub const NOT_SERVED: i32 = -455;

/// The user or the fields can't be read.
const BAD_FIELDS: i32 = -453;

/// No such volume here.
pub const NO_VOLUME: i32 = 103;

pub fn is_client(node: &Node) -> bool
    ensures { result ≡ is_client node.now }
{
    match *node {
        Node::Client(_) => true,
        _ => false,
    }
}

/// Whether a call of this opcode is served.
fn serves(opcode: u32) -> bool
    ensures { result ≡ serves opcode }
{
    CALLS.iter().any(|served| opcode == *served)
}

/// The code for a call whose user or fields can't be read.
pub fn code_of_unreadable(opcode: u32) -> i32
    ensures { result ≡ code_of_unreadable opcode }
{
    if serves(opcode) {
        BAD_FIELDS
    } else {
        NOT_SERVED
    }
}

/// The volume of a call.
pub fn volume_called(call: &FsCall) -> Option<u32>
    ensures { result ≡ volume_called call.now }
{
    match call {
        FsCall::FetchData { fid, .. } => Some(fid.volume),
        FsCall::FetchAcl { fid } => Some(fid.volume),
        FsCall::FetchStatus { fid } => Some(fid.volume),
        FsCall::StoreData { fid, .. } => Some(fid.volume),
        FsCall::StoreAcl { fid, .. } => Some(fid.volume),
        FsCall::StoreStatus { fid, .. } => Some(fid.volume),
        FsCall::RemoveFile { directory, .. } => Some(directory.volume),
        FsCall::CreateFile { directory, .. } => Some(directory.volume),
        FsCall::Rename { old_directory, .. } => Some(old_directory.volume),
        FsCall::Symlink { directory, .. } => Some(directory.volume),
        FsCall::Link { directory, .. } => Some(directory.volume),
        FsCall::MakeDir { directory, .. } => Some(directory.volume),
        FsCall::RemoveDir { directory, .. } => Some(directory.volume),
        FsCall::GetVolumeStatus { volume } => Some(*volume),
        _ => None,
    }
}

/// Whether the call reads a volume.
fn is_reading(call: &FsCall) -> bool
    ensures { result ≡ is_reading call.now }
{
    match call {
        FsCall::FetchData { .. }
        | FsCall::FetchAcl { .. }
        | FsCall::FetchStatus { .. }
        | FsCall::GetVolumeStatus { .. }
        | FsCall::BulkStatus { .. } => true,
        _ => false,
    }
}

/// Whether the call is one that a volume serves.
pub fn is_on_volume(call: &FsCall) -> bool
    ensures { result ≡ is_on_volume call.now }
{
    match call {
        FsCall::GiveUpCallBacks { .. } | FsCall::GetTime | FsCall::BulkStatus { .. } => false,
        _ => true,
    }
}

/// A promise on this fid, of which this status is told.
fn grant(fid: Fid, status: &AfsFetchStatus) -> Few<Grant>
    ensures { result ≡ record { fid = fid; index = status.now.sync_counter } ∷ [] }
{
    Few::one(Grant {
        fid,
        index: status.sync_counter,
    })
}

/// The promise that a reply to FetchData of this fid grants.
fn granted_data(alloc: Global, fid: Fid, reply: &FsReply) -> Few<Grant>
    ensures { result ≡ granted_data fid reply.now }
{
    match reply {
        FsReply::FetchData { status, .. } => grant(fid, status),
        _ => Few::none(alloc),
    }
}

/// The promise that a reply to FetchStatus of this fid grants.
fn granted_status(alloc: Global, fid: Fid, reply: &FsReply) -> Few<Grant>
    ensures { result ≡ granted_status fid reply.now }
{
    match reply {
        FsReply::FetchStatus { status, .. } => grant(fid, status),
        _ => Few::none(alloc),
    }
}

/// The promises that this reply to the call grants.
fn granted(alloc: Global, call: &FsCall, reply: &FsReply) -> Few<Grant>
    ensures { result ≡ granted_in call.now reply.now }
{
    match call {
        FsCall::FetchData { fid, .. } => granted_data(alloc, *fid, reply),
        FsCall::FetchStatus { fid } => granted_status(alloc, *fid, reply),
        _ => Few::none(alloc),
    }
}

/// What is decided on a call for which this was read in a volume.
fn read_as(alloc: Global, call: &FsCall, read: Result<FsReply, OpFault>) -> Mem<Decided>
    ensures { IfOk result (λ d. ReadsAs call.now read d) }
{
    match read {
        Ok(reply) => {
            let grants = granted(alloc, call, &reply);
            Ok(Decided::Shows(reply, grants))
        }
        Err(OpFault::Code(code)) => Ok(Decided::Refuses(code.0)),
        Err(OpFault::OutOfMemory) => Err(AllocError),
    }
}

/// What is decided on a call whose change of the volume of this number is this.
fn change_as(id: u32, applied: Result<ReadyChange, OpFault>) -> Mem<Decided>
    ensures { IfOk result (λ d. ChangesAs id applied d) }
{
    match applied {
        Ok(change) => Ok(Decided::Changes(id, change)),
        Err(OpFault::Code(code)) => Ok(Decided::Refuses(code.0)),
        Err(OpFault::OutOfMemory) => Err(AllocError),
    }
}

pub fn copy_fids(alloc: Global, fids: &[Fid]) -> Mem<Sequence<Fid>>
    ensures { IfOk result (λ fs. fs ≡ fids.now) }
{
    let mut copy = Vec::new(alloc);
    copy.extend_from_slice(fids)?;
    Ok(Sequence::from_vec(copy))
}

/// What is decided on a call that reads this volume.
fn read_in(
    alloc: Global,
    head: &Head,
    volume: &Volume,
    user: &[u8],
    call: &FsCall,
    now: u32,
) -> Mem<Decided>
    requires reading { is_reading call.now ≡ true }
    requires on { volume_called call.now ≡ Some volume.now.head.id }
    requires call { IsCallUnder head.now call.now }
    ensures decides { IfOk result (λ d. (new : Bool) (s : ServerState) → Decides s now head.now (decided_in new s now head.now (the_user user.now) call.now volume.now) d) }
    ensures told { IfOk result (λ d. CanBeTold head.now.opcode d) }
    ensures fits { IfOk result FitsDecided }
{
    let _ = head.opcode;
    let _ = now;
    let read = read(volume, call, user);
    let decided = read_as(alloc, call, read)?;
    Ok(decided)
}

/// What is decided on a call that changes this volume.
fn change_in(head: &Head, volume: &Volume, user: &[u8], call: &FsCall, now: u32) -> Mem<Decided>
    requires changing { is_changing call.now ≡ true }
    requires on { volume_called call.now ≡ Some volume.now.head.id }
    requires call { IsCallUnder head.now call.now }
    ensures { IfOk result (IsDecisionIn now head.now (the_user user.now) call.now volume.now) }
{
    let _ = head.opcode;
    let applied = apply_ready(volume, call, user, now);
    let decided = change_as(volume.head().id, applied)?;
    Ok(decided)
}

/// What is decided on a call on this volume, which the store keeps.
pub fn in_found(
    alloc: Global,
    head: &Head,
    volume: &Volume,
    user: &[u8],
    call: &FsCall,
    now: u32,
) -> Mem<Decided>
    requires on { volume_called call.now ≡ Some volume.now.head.id }
    requires call { IsCallUnder head.now call.now }
    ensures { IfOk result (IsDecisionIn now head.now (the_user user.now) call.now volume.now) }
{
    if is_reading(call) {
        read_in(alloc, head, volume, user, call, now)
    } else {
        change_in(head, volume, user, call, now)
    }
}
