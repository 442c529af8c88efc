//! The location database as a node that is up, over the store of its disk.

ghost use Rattle.std.specs.Prelude.{◌≡◌, ◌≤◌, ◌<◌, ◌^◌, ◌↔◌, None, Some, false, IsSome};
ghost use Rattle.afs_disk.specs.Fuses.{armed, failing};
ghost use Rattle.spec_rows.specs.Hosts.{crashed, set_to_fail, set_to_stop};
ghost use Rattle.spec_rows.specs.LocSteps.{loc_kind, LocHost};
ghost use Rattle.afs_locdb.specs.Seen.{over, Serves};
ghost use Rattle.afs_host.specs.LocSeats.{loc_disk_of, IsLocDown, IsLocUp, LocCanRun};
ghost use Rattle.afs_host.specs.Views.{count_mark};

use crate::resting::Resting;
use crate::running::{DatabaseRunning, Running};
use crate::setting::UNARMED;
use afs_disk::{Disk, Fuse};
use afs_locdb::LocDb;

impl<D: Disk> Running<(), LocDb<Fuse<D>>> {
    /// The database over a disk that isn't set.
    pub fn over(store: LocDb<Fuse<D>>) -> DatabaseRunning<D>
        requires up { store.store.closed ≡ false }
        requires serves { Serves store }
        requires unset { (store.store.disk.stop ≡ None) × (store.store.disk.fail ≡ None) }
        ensures value { result ≡ record { memory = tt; store = store; armed = record { stop = None; fail = None } } }
        ensures can_run { LocCanRun result }
    {
        Running {
            memory: (),
            store,
            armed: UNARMED,
        }
    }

    /// The disk is to pass so many device calls more, and then to stop the database. It takes no memory.
    pub fn stop_after(&mut self, calls: u32, pick: u8)
        requires can_run { LocCanRun self.old }
        requires counted { self.old.store.store.disk.calls < 2 ^ 63 }
        ensures step { (h : LocHost) → IsLocUp self.old h → IsLocUp self.new (set_to_stop loc_kind h calls pick).host }
        ensures value { self.new ≡ record self.old { store = over (armed calls self.old.store.store.disk) self.old.store; armed = record self.old.armed { stop = Some (calls, pick) } } }
        ensures can_run { LocCanRun self.new }
    {
        self.set_stop(calls, pick);
    }

    /// The disk is to fail at this one of its next device calls. It takes no memory.
    pub fn fail_at(&mut self, call: u32)
        requires can_run { LocCanRun self.old }
        requires counted { self.old.store.store.disk.calls < 2 ^ 63 }
        requires due { 1 ≤ call }
        ensures step { (h : LocHost) → IsLocUp self.old h → IsLocUp self.new (set_to_fail loc_kind h call).host }
        ensures value { self.new ≡ record self.old { store = over (failing call self.old.store.store.disk) self.old.store; armed = record self.old.armed { fail = Some call } } }
        ensures can_run { LocCanRun self.new }
    {
        self.set_fail(call);
    }

    /// The database crashes, and its disk with this pick. It takes no memory.
    pub fn crash(self, pick: u8) -> Resting<D>
        requires up { self.store.store.closed ≡ false }
        ensures step { (h : LocHost) → IsLocUp self h → IsLocDown D.seen D.may_leave D.limit result (crashed loc_kind h).host }
        ensures mark { result.mark ≡ count_mark self.store.store.count }
        ensures picked { D.seen result.disk ≡ D.left_by (loc_disk_of self) pick }
        ensures told { IsSome (D.seen result.disk) ↔ IsSome (D.seen (loc_disk_of self)) }
        ensures faults { D.faults result.disk ≡ D.faults (loc_disk_of self) }
        ensures limit { D.limit result.disk ≡ D.limit (loc_disk_of self) }
    {
        self.left_by(pick)
    }
}
