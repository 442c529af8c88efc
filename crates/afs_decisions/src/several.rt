//! The statuses of several fids, each by the volume of its fid, and what is decided of them.

ghost use Rattle.std.specs.Prelude.{◌≡◌, ◌∷◌, ◌++◌, [], ℕ, Bool, IfOk, OnOk, Ok, Some, List};
ghost use Rattle.afs_num.specs.declared.calls.AfsCallBack.{AfsCallBack};
ghost use Rattle.spec_ideal.specs.Operations.{the_user};
ghost use Rattle.spec_shape.specs.Rows.{no_callback, no_sync};
ghost use Rattle.afs_shelves.specs.Shelving.{stored_as};
ghost use Rattle.spec_rows.specs.ServerRow.{sight_in};
ghost use Rattle.afs_decisions.specs.Several.{or_first, seen_in, sync_told, AreTold, IsStatusRead, Sees, ToldAs};

use crate::decided::Decided;
use afs_callees::few::Few;
use afs_callees::telling::Grant;
use afs_num::calls::{
    AfsCallBack, AfsFetchStatus, AfsVolSync, CallBacks, FsCall, FsReply, Statuses,
};
use afs_num::sequences::Sequence;
use afs_num::types::{Code, Fid, Mem};
use afs_reads::faults::OpFault;
use afs_reads::read;
use afs_volume::Volume;
use std::alloc::{AllocError, Global};

/// A fid's status, and its volume's release.
#[derive(Clone, Copy)]
pub struct Seen {
    pub status: AfsFetchStatus,
    pub sync: AfsVolSync,
}

/// The statuses that are told, a place for a promise beside each; the promises that are granted; and the release of the first
/// one's volume.
#[derive(Drop)]
pub struct Told {
    pub statuses: Statuses,
    pub callbacks: CallBacks,
    pub grants: Sequence<Grant>,
    pub sync: Option<AfsVolSync>,
}

/// A place for a promise.
fn no_callback() -> AfsCallBack
    ensures { result ≡ no_callback }
{
    AfsCallBack {
        version: 0,
        expiration_time: 0,
        kind: 0,
    }
}

/// No release.
fn no_sync() -> AfsVolSync
    ensures { result ≡ no_sync }
{
    AfsVolSync {
        release: 0,
        spare1: 0,
        spare2: 0,
        spare3: 0,
        spare4: 0,
        spare5: 0,
    }
}

impl Told {
    pub fn new(alloc: Global) -> Told
        ensures { (user : List ℕ) → AreTold (the_user user) [] result }
    {
        Told {
            statuses: Statuses::new(alloc),
            callbacks: CallBacks::new(alloc),
            grants: Sequence::new(alloc),
            sync: None,
        }
    }

    /// One more status is told.
    pub fn add(&mut self, fid: Fid, seen: &Seen) -> Mem<()>
        ensures statuses { OnOk result (self.new.statuses ≡ self.old.statuses ++ seen.now.status ∷ []) }
        ensures callbacks { OnOk result (self.new.callbacks ≡ self.old.callbacks ++ no_callback ∷ []) }
        ensures grants { OnOk result (self.new.grants ≡ self.old.grants ++ record { fid = fid; index = seen.now.status.sync_counter } ∷ []) }
        ensures sync { OnOk result (self.new.sync ≡ or_first seen.now.sync self.old.sync) }
    {
        self.statuses.push(seen.status)?;
        self.callbacks.push(no_callback())?;
        self.grants.push(Grant {
            fid,
            index: seen.status.sync_counter,
        })?;
        if self.sync.is_none() {
            self.sync = Some(seen.sync);
        }
        Ok(())
    }
}

/// The status that a volume answered to FetchStatus.
fn seen_in(read: Result<FsReply, OpFault>) -> Result<Seen, OpFault>
    requires { IsStatusRead read }
    ensures { result ≡ seen_in read }
{
    match read {
        Ok(FsReply::FetchStatus { status, sync, .. }) => Ok(Seen { status, sync }),
        Ok(_) => unreachable!(),
        Err(fault) => Err(fault),
    }
}

/// The status of a fid in this volume, which is its own.
pub fn see_in(volume: &Volume, user: &[u8], fid: &Fid) -> Result<Seen, OpFault>
    requires { volume.now.head.id ≡ fid.now.volume }
    ensures { (new : Bool) → Sees (the_user user.now) fid.now (sight_in (the_user user.now) fid.now (Some (stored_as new volume.now))) result }
{
    let read = read(volume, &FsCall::FetchStatus { fid: *fid }, user);
    seen_in(read)
}

/// The release that is told; none of no fids.
fn sync_told(sync: Option<AfsVolSync>) -> AfsVolSync
    ensures { result ≡ sync_told sync }
{
    match sync {
        Some(sync) => sync,
        None => no_sync(),
    }
}

/// What is decided on a call for several statuses of which this is told.
pub fn told_as(told: Result<Told, OpFault>) -> Mem<Decided>
    ensures { IfOk result (λ d. ToldAs told d) }
{
    match told {
        Ok(told) => {
            let reply = FsReply::BulkStatus {
                statuses: told.statuses,
                callbacks: told.callbacks,
                sync: sync_told(told.sync),
            };
            Ok(Decided::Shows(reply, Few::of(told.grants)))
        }
        Err(OpFault::Code(code)) => Ok(Decided::Refuses(code.0)),
        Err(OpFault::OutOfMemory) => Err(AllocError),
    }
}
