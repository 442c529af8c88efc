//! A node that is up, over the store of its disk.

ghost use Rattle.std.specs.Prelude.{◌≡◌, ◌↔◌, Some, false, IfSome, IsSome};
ghost use Rattle.afs_disk.specs.Disk.{LeavesJust};
ghost use Rattle.afs_disk.specs.Fuses.{armed, failing};
ghost use Rattle.afs_volstore.specs.Stores.{IsCounted};
ghost use Rattle.afs_host.specs.Serving.{HasGoneDown};
ghost use Rattle.afs_host.specs.Views.{count_mark};

use crate::resting::{Resting, rest_of};
use crate::setting::{Armed, Stop};
use crate::stores::OnDisk;
use afs_disk::{Disk, Fuse};
use afs_locdb::LocDb;
use spec_history::lines::Line;
use std::marker::Model;

/// How many device calls a record takes.
pub const CALLS_OF_A_RECORD: u64 = 4;

/// A node that is up: what it has in memory, its store, and how its disk is set to stop it or to fail.
#[derive(Drop)]
pub struct Running<N, T: OnDisk> {
    pub memory: N,
    pub store: T,
    pub armed: Armed,
}

/// The location database that is up, over a disk behind a fuse: all that it has in memory is in its store.
pub type DatabaseRunning<D> = Running<(), LocDb<Fuse<D>>>;

impl<N, T: OnDisk> Model for Running<N, T> {
    ghost use Rattle.afs_host.specs.Setting.{armed_seen};
    ghost use Rattle.afs_host.specs.Seats.{Running};

    ghost Value = { Running N T };

    ghost view = { λ r. record { memory = r.memory; store = r.store; armed = armed_seen r.armed } };
}

impl<N: Drop, T: OnDisk> Running<N, T> {
    /// The disk is to pass so many device calls more, and then to stop the node. It takes no memory.
    pub fn set_stop(&mut self, calls: u32, pick: u8)
        ensures { self.new ≡ record self.old { store = T.with_fuse self.old.store (armed calls (T.shown self.old.store).fuse); armed = record self.old.armed { stop = Some (calls, pick) } } }
    {
        self.store.arm(calls as u64);
        self.armed.stop = Some(Stop {
            passes: calls as u64,
            pick,
        });
    }

    /// The disk is to fail at this one of its next device calls. It takes no memory.
    pub fn set_fail(&mut self, call: u32)
        ensures { self.new ≡ record self.old { store = T.with_fuse self.old.store (failing call (T.shown self.old.store).fuse); armed = record self.old.armed { fail = Some call } } }
    {
        self.store.fail_at(call as u64);
        self.armed.fail = Some(call as u64);
    }

    /// What a crash of its disk with this pick leaves of it. It takes no memory.
    pub fn left_by(self, pick: u8) -> Resting<T::D>
        ensures mark { result.mark ≡ count_mark (T.shown self.store).count }
        ensures picked { T.D.seen result.disk ≡ T.D.left_by (T.shown self.store).fuse.disk pick }
        ensures image { IfSome (T.D.seen result.disk) (λ bytes. T.D.may_leave (T.shown self.store).fuse.disk bytes × LeavesJust bytes (T.D.may_leave result.disk)) }
        ensures told { IsSome (T.D.seen result.disk) ↔ IsSome (T.D.seen (T.shown self.store).fuse.disk) }
        ensures faults { T.D.faults result.disk ≡ T.D.faults (T.shown self.store).fuse.disk }
        ensures limit { T.D.limit result.disk ≡ T.D.limit (T.shown self.store).fuse.disk }
        ensures kept { (T.shown self.store).closed ≡ false → T.kept self.store (T.D.seen (T.shown self.store).fuse.disk) (T.D.may_leave (T.shown self.store).fuse.disk) }
        ensures counted { (T.shown self.store).closed ≡ false → IsCounted (T.shown self.store).count (T.D.seen (T.shown self.store).fuse.disk) }
        ensures capacity { (T.shown self.store).capacity ≡ T.D.limit (T.shown self.store).fuse.disk }
    {
        let Resting { mut disk, mark } = self.rest();
        disk.crash(pick);
        Resting { disk, mark }
    }

    /// What is left of it. Nothing becomes of its disk.
    pub(crate) fn rest(self) -> Resting<T::D>
        ensures value { result ≡ record { disk = (T.shown self.store).fuse.disk; mark = count_mark (T.shown self.store).count } }
        ensures kept { (T.shown self.store).closed ≡ false → T.kept self.store (T.D.seen (T.shown self.store).fuse.disk) (T.D.may_leave (T.shown self.store).fuse.disk) }
        ensures counted { (T.shown self.store).closed ≡ false → IsCounted (T.shown self.store).count (T.D.seen (T.shown self.store).fuse.disk) }
        ensures capacity { (T.shown self.store).capacity ≡ T.D.limit (T.shown self.store).fuse.disk }
    {
        rest_of(self.into_store())
    }

    /// The disk ended a step of the node. A stop leaves of the disk what its pick says, a failure leaves it as it is.
    pub fn fall(self) -> (Resting<T::D>, Line)
        ensures { HasGoneDown T.D.seen T.D.left_by T.D.may_leave T.D.faults T.D.limit (T.shown self.store) self.armed result.0 result.1 }
    {
        let node = self.store.node();
        if self.armed.stops_now(self.store.stopped()) {
            let pick = self.armed.pick();
            (self.left_by(pick), Line::Crash { node })
        } else {
            (self.rest(), Line::Fault { node })
        }
    }

    /// The store.
    pub fn into_store(self) -> T
        ensures { result ≡ self.store }
    {
        let Running {
            memory: _,
            store,
            armed: _,
        } = self;
        store
    }

    /// The disk. While the node is up it stands for what the store keeps, and no crash leaves another.
    pub fn into_disk(self) -> T::D
        ensures value { result ≡ (T.shown self.store).fuse.disk }
        ensures kept { (T.shown self.store).closed ≡ false → T.kept self.store (T.D.seen result) (T.D.may_leave result) }
        ensures capacity { (T.shown self.store).capacity ≡ T.D.limit result }
    {
        self.rest().into_disk()
    }
}
