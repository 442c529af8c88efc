//! What a reply of a site to a reading call offers.

ghost use Rattle.std.specs.Prelude.{◌≡◌, map};
ghost use Rattle.std.specs.List.{list_any};
ghost use Rattle.std.specs.Option.{option_map};
ghost use Rattle.spec_copyrows.specs.CopyRow.{expiry_in, is_over, offer_in};
ghost use Rattle.afs_sites.specs.Offers.{offered_at};

use afs_num::calls::{AfsCallBack, AfsVolSync, FsReply};

/// The release in a reply to a reading call, and whether a promise in it has ended by now.
#[derive(Clone, Copy, Debug)]
pub struct Offered {
    pub release: u32,
    pub is_over: bool,
}

fn is_over(callback: &AfsCallBack, now: u32) -> bool
    ensures { result ≡ is_over now callback.now.expiration_time }
{
    let stands = now < callback.expiration_time;
    !stands
}

fn is_any_over(callbacks: &[AfsCallBack], now: u32) -> bool
    ensures { result ≡ list_any (is_over now) (map expiry_in callbacks.now) }
{
    for callback in callbacks {
        if is_over(callback, now) {
            return true;
        }
    }
    false
}

/// What a reply offers, if it answers a reading call.
pub fn offer_in(reply: &FsReply, now: u32) -> Option<Offered>
    ensures { result ≡ option_map (offered_at now) (offer_in reply.now) }
{
    match reply {
        FsReply::FetchData { callback, sync, .. } | FsReply::FetchStatus { callback, sync, .. } => {
            Some(Offered {
                release: sync.release,
                is_over: is_over(callback, now),
            })
        }
        FsReply::BulkStatus {
            callbacks,
            sync,
            ..
        } => Some(Offered {
            release: sync.release,
            is_over: is_any_over(callbacks.as_slice(), now),
        }),
        FsReply::FetchAcl { sync, .. } => Some(Offered {
            release: sync.release,
            is_over: false,
        }),
        _ => None,
    }
}
