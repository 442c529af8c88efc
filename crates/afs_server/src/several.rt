//! The statuses of several fids, each by the volume of its fid.

ghost use Rattle.std.specs.Prelude.{◌≡◌, ◌≤◌, length, IfOk, Ok, Some};
ghost use Rattle.spec_ideal.specs.Operations.{the_user};
ghost use Rattle.spec_ideal.specs.Tables.{get};
ghost use Rattle.spec_rows.specs.ServerRow.{several};
ghost use Rattle.spec_volrows.specs.FileRow.{file_sight, file_sights};
ghost use Rattle.afs_decisions.specs.Deciding.{IsDecision};
ghost use Rattle.afs_server.specs.Handling.{holds_seen, server_seen};
ghost use Rattle.afs_decisions.specs.Several.{Sees, SeesAll, TellsNext};
ghost use Rattle.afs_sharing.specs.Lasting.{lasting_of};

use crate::closing::{closed_code, missing_code};
use crate::server::FileServer;
use afs_decisions::decided::Decided;
use afs_decisions::several::{Seen, Told, see_in, told_as};
use afs_disk::Disk;
use afs_num::types::{Code, Fid, Head, Mem};
use afs_reads::faults::OpFault;
use afs_volstore::VolStore;
use std::alloc::Global;

/// The status of a fid, by its volume.
fn see<D: Disk>(store: &VolStore<D>, user: &[u8], fid: &Fid) -> Result<Seen, OpFault>
    ensures { Sees (the_user user.now) fid.now (file_sight (holds_seen store.now) (lasting_of store.now.durable) (the_user user.now) fid.now (get fid.now.volume store.now.durable.volumes)) result }
{
    match store.volume(fid.volume) {
        None => Err(OpFault::Code(Code(missing_code(store, fid.volume)))),
        Some(volume) => match closed_code(store, volume) {
            Some(code) => Err(OpFault::Code(Code(code))),
            None => see_in(volume, user, fid),
        },
    }
}

/// The status of one more fid is told.
fn see_next<D: Disk>(
    store: &VolStore<D>,
    user: &[u8],
    fid: &Fid,
    told: &mut Told,
) -> Result<(), OpFault>
    ensures { TellsNext (the_user user.now) (file_sight (holds_seen store.now) (lasting_of store.now.durable) (the_user user.now) fid.now (get fid.now.volume store.now.durable.volumes)) told.old told.new result }
{
    let seen = see(store, user, fid)?;
    told.add(*fid, &seen)?;
    Ok(())
}

/// The statuses of these fids.
fn see_all<D: Disk>(
    alloc: Global,
    store: &VolStore<D>,
    user: &[u8],
    fids: &[Fid],
) -> Result<Told, OpFault>
    ensures { SeesAll (the_user user.now) (length fids.now) (file_sights (holds_seen store.now) (lasting_of store.now.durable) (the_user user.now) fids.now) result }
{
    let mut told = Told::new(alloc);
    for fid in fids {
        see_next(store, user, fid, &mut told)?;
    }
    Ok(told)
}

impl FileServer {
    /// What is decided on a call for several statuses.
    pub(crate) fn statuses<D: Disk>(
        &self,
        store: &VolStore<D>,
        head: &Head,
        user: &[u8],
        fids: &[Fid],
        now: u32,
    ) -> Mem<Decided>
        requires few { length fids.now ≤ 50 }
        requires opcode { head.now.opcode ≡ 155 }
        ensures { IfOk result (IsDecision (server_seen self.now store.now) now head.now (several head.now (the_user user.now) (file_sights (holds_seen store.now) (lasting_of store.now.durable) (the_user user.now) fids.now))) }
    {
        let _ = head.opcode;
        let _ = now;
        let told = see_all(self.alloc, store, user, fids);
        let decided = told_as(told)?;
        Ok(decided)
    }
}
