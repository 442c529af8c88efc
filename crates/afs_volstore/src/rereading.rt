//! The disk of a store that is there is taken up anew.

ghost use Rattle.std.specs.Prelude.{◌≡◌, ◌≤◌, [], false, IfOk, MatchResult, OnOk};
ghost use Rattle.afs_volstore.specs.Rereading.{disk_after, IsAttached, IsRefused};
ghost use Rattle.afs_volstore.specs.Stores.{IsKept};
ghost use Rattle.afs_store.specs.Words.{IsTakenUpBy};
ghost use Rattle.afs_disk.specs.Words.{SameFaults};

use crate::store::VolStore;
use afs_disk::{Disk, Fuse};
use afs_num::faults::StoreFault;
use afs_seats::Seats;

impl<D: Disk> VolStore<Fuse<D>> {
    /// The disk is taken out of its fuse, and a store is made of it as `attach` makes one, with the same device calls. Where the
    /// journal that is found there is as long as that of this store, its records aren't taken anew: the store has what they make.
    /// No volume is held.
    pub fn attach_again(self) -> Result<VolStore<D>, (StoreFault, D)>
        requires open { self.closed ≡ false }
        requires limit { D.limit self.disk.disk ≤ 268435456 }
        ensures was { IsKept self.durable (D.seen self.disk.disk) (D.may_leave self.disk.disk) × (self.durable.capacity ≡ D.limit self.disk.disk) }
        ensures disk { IsTakenUpBy D.Disk self.disk.disk (disk_after result) }
        ensures quiet { OnOk result (SameFaults D.Disk self.disk.disk (disk_after result)) }
        ensures free { IfOk result (λ s. s.holds.table ≡ []) }
        ensures attached { MatchResult result (IsAttached D.seen D.may_leave D.calls D.setting D.limit self.node self.disk.disk) (IsRefused D.seen D.faults D.own_faults D.calls D.setting D.limit self.disk.disk) }
    {
        let VolStore {
            alloc,
            store,
            holds: _,
        } = self;
        match store.attach_again() {
            Ok(store) => Ok(VolStore {
                alloc,
                store,
                holds: Seats::new(alloc),
            }),
            Err(refused) => Err(refused),
        }
    }
}
