//! Several statuses in one reply.

ghost use Rattle.std.specs.Prelude.{◌≡◌, ◌≤◌, length, map, IfErr, IfOk, OnOk};
ghost use Rattle.afs_num.specs.declared.calls.FsCall.TheVariants as calls;
ghost use Rattle.afs_num.specs.declared.types.Fid.{Fid};
ghost use Rattle.spec_shape.specs.Rows.{no_callback};
ghost use Rattle.spec_ideal.specs.Operations.{op, reads, shows_statuses, shows_several};
ghost use Rattle.afs_reads.specs.Bulk.{found_of, refusal_at, status_seen, sync_beside, IsRefusal, IsShown};
ghost use Rattle.afs_reads.specs.Replying.{caller_seen, most_fids, refusal_of, FitsReply, Replies};
ghost use Rattle.afs_volume.specs.Giving.{volume_of};

use crate::callers::Caller;
use crate::checks::check;
use crate::faults::OpFault;
use crate::finding::found;
use crate::replies::{no_callback, no_sync, status_with, sync};
use crate::rights::rights_on;
use afs_num::calls::{AfsFetchStatus, AfsVolSync, CallBacks, FsReply, Statuses};
use afs_num::types::{Fid, Mem};
use afs_volume::Volume;
use std::alloc::Global;

/// As many empty promises as there are fids.
fn no_callbacks(alloc: Global, fids: &[Fid]) -> Mem<CallBacks>
    ensures { IfOk result (λ cs. cs ≡ map (λ (f : Fid). no_callback) fids.now) }
{
    let mut callbacks = CallBacks::new(alloc);
    for _fid in fids {
        callbacks.push(no_callback())?;
    }
    Ok(callbacks)
}

/// The status of one fid.
fn status_of(volume: &Volume, caller: &Caller, fid: &Fid) -> Result<AfsFetchStatus, OpFault>
    ensures shown { OnOk result (IsShown (caller_seen caller.now) (volume_of volume.now) fid.now) }
    ensures value { IfOk result (λ s. s ≡ status_seen (caller_seen caller.now) volume.now fid.now) }
    ensures refused { IfErr result (IsRefusal (refusal_at (caller_seen caller.now) (volume_of volume.now) fid.now)) }
{
    let x = found(volume, fid)?;
    let rights = rights_on(volume, caller, x);
    check(rights.has(8), 13)?;
    Ok(status_with(x, rights))
}

/// The statuses of the fids.
fn statuses(volume: &Volume, caller: &Caller, fids: &[Fid]) -> Result<Statuses, OpFault>
    ensures shown { OnOk result (shows_several (caller_seen caller.now) (volume_of volume.now) fids.now ≡ reads (shows_statuses (map (λ (f : Fid). found_of (volume_of volume.now) f) fids.now))) }
    ensures value { IfOk result (λ ss. ss ≡ map (λ (f : Fid). status_seen (caller_seen caller.now) volume.now f) fids.now) }
    ensures refused { IfErr result (IsRefusal (refusal_of (shows_several (caller_seen caller.now) (volume_of volume.now) fids.now))) }
{
    let mut told = Statuses::new(volume.alloc);
    for fid in fids {
        match status_of(volume, caller, fid) {
            Ok(status) => told.push(status)?,
            Err(fault) => return Err(fault),
        }
    }
    Ok(told)
}

/// The volume's words beside these statuses: none beside none.
fn sync_beside(volume: &Volume, fids: &[Fid]) -> AfsVolSync
    ensures { result ≡ sync_beside (volume_of volume.now) fids.now }
{
    if fids.is_empty() {
        no_sync()
    } else {
        sync(volume)
    }
}

/// BulkStatus: all statuses, or the refusal of the first fid that is refused.
pub fn bulk_status(volume: &Volume, caller: &Caller, fids: &[Fid]) -> Result<FsReply, OpFault>
    ensures replies { Replies (caller_seen caller.now) volume.now (op volume.now.head.id (caller_seen caller.now) (calls.BulkStatus fids.now) (volume_of volume.now)) result }
    ensures fits { length fids.now ≤ most_fids → IfOk result (λ r. FitsReply r) }
{
    let statuses = statuses(volume, caller, fids)?;
    Ok(FsReply::BulkStatus {
        statuses,
        callbacks: no_callbacks(volume.alloc, fids)?,
        sync: sync_beside(volume, fids),
    })
}
