//! What a call asks of whom, and what the location database is asked.

ghost use Rattle.std.specs.Prelude.{◌≡◌, IfOk};
ghost use Rattle.spec_ideal.specs.Operations.{volume_called, volume_changed};
ghost use Rattle.spec_rows.specs.ClientRow.{question, volume_asked};

use crate::volumes::base_of;
use afs_num::calls::FsCall;
use afs_num::location_calls::LocCall;
use afs_num::sequences::Octets;
use afs_num::types::Mem;
use spec_history::acts::{Operand, Path};
use std::alloc::Global;

/// The volume that a call is on; it has none, where this is none.
fn volume_called(call: &FsCall) -> Option<u32>
    ensures { result ≡ volume_called call.now }
{
    match call {
        FsCall::FetchData { fid, .. }
        | FsCall::FetchAcl { fid }
        | FsCall::FetchStatus { fid }
        | FsCall::StoreData { fid, .. }
        | FsCall::StoreAcl { fid, .. }
        | FsCall::StoreStatus { fid, .. } => Some(fid.volume),
        FsCall::RemoveFile { directory, .. }
        | FsCall::CreateFile { directory, .. }
        | FsCall::Symlink { directory, .. }
        | FsCall::Link { directory, .. }
        | FsCall::MakeDir { directory, .. }
        | FsCall::RemoveDir { directory, .. } => Some(directory.volume),
        FsCall::Rename { old_directory, .. } => Some(old_directory.volume),
        FsCall::GetVolumeStatus { volume } => Some(*volume),
        _ => None,
    }
}

/// The volume that a call may change.
pub fn volume_changed(call: &FsCall) -> Option<u32>
    ensures { result ≡ volume_changed call.now }
{
    match call {
        FsCall::FetchData { .. }
        | FsCall::FetchAcl { .. }
        | FsCall::FetchStatus { .. }
        | FsCall::GetVolumeStatus { .. } => None,
        _ => volume_called(call),
    }
}

/// The volume whose server a call is for: that of its first fid.
pub fn volume_asked(call: &FsCall) -> u32
    ensures { result ≡ volume_asked call.now }
{
    if let FsCall::BulkStatus { fids } = call
        && let [first, ..] = fids.as_slice()
    {
        return first.volume;
    }
    volume_called(call).unwrap_or(0)
}

fn question_of_path(alloc: Global, path: &Path) -> Mem<LocCall>
    ensures { IfOk result (λ q. q ≡ question (Operand.Path path.now)) }
{
    let name = Octets::from_slice(alloc, base_of(path.volume.as_slice()))?;
    Ok(LocCall::GetEntryByName { name })
}

/// What the location database is asked for an operand's volume: its name, without the end of a copy, for a path, its number for a fid.
pub fn question(alloc: Global, operand: &Operand) -> Mem<LocCall>
    ensures { IfOk result (λ q. q ≡ question operand.now) }
{
    match operand {
        Operand::Path(path) => question_of_path(alloc, path),
        Operand::Fid(fid) => Ok(LocCall::GetEntryById { volume: fid.volume }),
    }
}
