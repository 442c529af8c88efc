//! The numbers of calls.

ghost use Rattle.std.specs.Prelude.{◌≡◌};
ghost use Rattle.spec_model.specs.CellRows.{call_number};
ghost use Rattle.spec_model.specs.FsRows.{call_number as file_number};
ghost use Rattle.spec_model.specs.LocRows.{loc_calls};
ghost use Rattle.spec_model.specs.VolRows.{vol_calls};

use afs_num::calls::FsCall;
use afs_num::location_calls::LocCall;
use afs_num::messages::Call;
use afs_num::volume_calls::VolCall;

/// The opcode of a call of file servers and clients (AFS-3 Programmer's Reference, File Server/Cache Manager Interface).
pub fn file_opcode(call: &FsCall) -> u32
    ensures { result ≡ file_number call.now }
{
    match call {
        FsCall::FetchData { .. } => 130,
        FsCall::FetchAcl { .. } => 131,
        FsCall::FetchStatus { .. } => 132,
        FsCall::StoreData { .. } => 133,
        FsCall::StoreAcl { .. } => 134,
        FsCall::StoreStatus { .. } => 135,
        FsCall::RemoveFile { .. } => 136,
        FsCall::CreateFile { .. } => 137,
        FsCall::Rename { .. } => 138,
        FsCall::Symlink { .. } => 139,
        FsCall::Link { .. } => 140,
        FsCall::MakeDir { .. } => 141,
        FsCall::RemoveDir { .. } => 142,
        FsCall::GiveUpCallBacks { .. } => 147,
        FsCall::GetVolumeStatus { .. } => 149,
        FsCall::GetTime => 153,
        FsCall::BulkStatus { .. } => 155,
        FsCall::CallBack { .. } => 204,
        FsCall::InitCallBackState => 205,
        FsCall::Probe => 206,
    }
}

/// The opcode of a call of volume servers (AFS-3 Programmer's Reference, Volume Server / Volume Location Server Interface).
fn volume_opcode(call: &VolCall) -> u32
    ensures { result ≡ (vol_calls.row call.now).opcode }
{
    match call {
        VolCall::CreateVolume { .. } => 100,
        VolCall::DeleteVolume { .. } => 101,
        VolCall::Restore { .. } => 102,
        VolCall::Forward { .. } => 103,
        VolCall::EndTrans { .. } => 104,
        VolCall::Clone { .. } => 105,
        VolCall::SetFlags { .. } => 106,
        VolCall::GetFlags { .. } => 107,
        VolCall::TransCreate { .. } => 108,
        VolCall::Dump { .. } => 109,
        VolCall::SetForwarding { .. } => 111,
        VolCall::GetStatus { .. } => 113,
        VolCall::ListVols { .. } => 116,
        VolCall::ReClone { .. } => 120,
    }
}

/// The opcode of a call of the location database (the same interface).
fn location_opcode(call: &LocCall) -> u32
    ensures { result ≡ (loc_calls.row call.now).opcode }
{
    match call {
        LocCall::CreateEntry { .. } => 501,
        LocCall::DeleteEntry { .. } => 502,
        LocCall::GetEntryById { .. } => 503,
        LocCall::GetEntryByName { .. } => 504,
        LocCall::GetNewVolumeId => 505,
        LocCall::ReplaceEntry { .. } => 506,
        LocCall::SetLock { .. } => 508,
        LocCall::ReleaseLock { .. } => 509,
        LocCall::ListEntry { .. } => 510,
    }
}

/// The opcode of a call.
pub fn opcode(call: &Call) -> u32
    ensures { result ≡ call_number call.now }
{
    match call {
        Call::File(call) => file_opcode(call),
        Call::Volume(call) => volume_opcode(call),
        Call::Location(call) => location_opcode(call),
    }
}
