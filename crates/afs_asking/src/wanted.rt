//! What an unanswered call asks for.

ghost use Rattle.std.specs.Prelude.{◌≡◌};
ghost use Rattle.std.specs.Option.{option_map};
ghost use Rattle.afs_asking.specs.Wanted.{body_wanted, bytes_stored, fields_stored, is_gift, rights_wanted, status_wanted, statuses_wanted};

use afs_num::calls::FsCall;
use afs_num::sequences::Octets;
use afs_num::types::Fid;

/// The fid whose body a call asks for.
pub fn body_wanted(call: &FsCall) -> Option<Fid>
    ensures { result ≡ body_wanted call.now }
{
    match call {
        FsCall::FetchData { fid, .. } => Some(*fid),
        _ => None,
    }
}

/// The fid whose status a call asks for.
pub fn status_wanted(call: &FsCall) -> Option<Fid>
    ensures { result ≡ status_wanted call.now }
{
    match call {
        FsCall::FetchStatus { fid } => Some(*fid),
        _ => None,
    }
}

/// The fids whose statuses a call asks for.
pub fn statuses_wanted(call: &FsCall) -> Option<&[Fid]>
    ensures { option_map (λ fs. fs.now) result ≡ statuses_wanted call.now }
{
    match call {
        FsCall::BulkStatus { fids } => Some(fids.as_slice()),
        _ => None,
    }
}

/// The fid whose rights a call asks for.
pub fn rights_wanted(call: &FsCall) -> Option<Fid>
    ensures { result ≡ rights_wanted call.now }
{
    match call {
        FsCall::FetchAcl { fid } => Some(*fid),
        _ => None,
    }
}

/// Whether a call gives promises back.
pub fn is_gift(call: &FsCall) -> bool
    ensures { result ≡ is_gift call.now }
{
    matches!(call, FsCall::GiveUpCallBacks { .. })
}

/// The bytes that a call stores, and of what.
pub fn bytes_stored(call: &FsCall) -> Option<(Fid, &Octets)>
    ensures { option_map (λ r. (r.0, r.1.now)) result ≡ bytes_stored call.now }
{
    match call {
        FsCall::StoreData { fid, contents, .. } => Some((*fid, contents)),
        _ => None,
    }
}

/// The fid whose status or rights a call stores.
pub fn fields_stored(call: &FsCall) -> Option<Fid>
    ensures { result ≡ fields_stored call.now }
{
    match call {
        FsCall::StoreAcl { fid, .. } => Some(*fid),
        FsCall::StoreStatus { fid, .. } => Some(*fid),
        _ => None,
    }
}
