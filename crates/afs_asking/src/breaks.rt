//! Which calls a break overtakes.

ghost use Rattle.std.specs.Prelude.{◌≡◌};
ghost use Rattle.std.specs.List.{list_any};
ghost use Rattle.spec_rows.specs.ClientRow.{is_among_fids, is_spoiled_by_all, names_call};

use afs_num::calls::FsCall;
use afs_num::types::Fid;

pub fn is_named(fid: &Fid, fids: &[Fid]) -> bool
    ensures { result ≡ is_among_fids fid.now fids.now }
{
    for named in fids {
        if *named == *fid {
            return true;
        }
    }
    false
}

fn is_one_named(asked: &[Fid], fids: &[Fid]) -> bool
    ensures { result ≡ list_any (λ f. is_among_fids f fids.now) asked.now }
{
    for fid in asked {
        if is_named(fid, fids) {
            return true;
        }
    }
    false
}

/// Whether a break on these fids overtakes the reply to this call: one of them is among its arguments.
pub fn names_call(fids: &[Fid], call: &FsCall) -> bool
    ensures { result ≡ names_call fids.now call.now }
{
    match call {
        FsCall::FetchData { fid, .. }
        | FsCall::FetchAcl { fid }
        | FsCall::FetchStatus { fid }
        | FsCall::StoreData { fid, .. }
        | FsCall::StoreAcl { fid, .. }
        | FsCall::StoreStatus { fid, .. } => is_named(fid, fids),
        FsCall::RemoveFile { directory, .. }
        | FsCall::CreateFile { directory, .. }
        | FsCall::Symlink { directory, .. }
        | FsCall::MakeDir { directory, .. }
        | FsCall::RemoveDir { directory, .. } => is_named(directory, fids),
        FsCall::Rename {
            old_directory,
            new_directory,
            ..
        } => is_named(old_directory, fids) || is_named(new_directory, fids),
        FsCall::Link {
            directory,
            existing,
            ..
        } => is_named(directory, fids) || is_named(existing, fids),
        FsCall::BulkStatus { fids: asked } => is_one_named(asked.as_slice(), fids),
        _ => false,
    }
}

/// Whether a break of all that its server promised overtakes the reply: what answers promises that are given back is never
/// spoiled.
pub fn is_spoiled_by_all(call: &FsCall) -> bool
    ensures { result ≡ is_spoiled_by_all call.now }
{
    !matches!(call, FsCall::GiveUpCallBacks { .. })
}
