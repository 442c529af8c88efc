//! The location database of a cell.

ghost use Rattle.std.specs.Prelude.{◌≡◌, false};
ghost use Rattle.law_legal.specs.Database.{AreKeyed};
ghost use Rattle.afs_locstore.specs.Kept.{AreOfNodes};
ghost use Rattle.afs_locstore.specs.LocFold.{loc_fold};
ghost use Rattle.afs_locstore.specs.States.{parts_of};
ghost use Rattle.afs_store.specs.Stores.{IsCounted, IsKept};

use afs_disk::Disk;
use afs_locstore::held::LocStore;
use afs_locstore::memory::State;
use afs_num::records::Mark;
use afs_num::types::Node;
use afs_server_parts::callers::Callers;
use std::alloc::Global;
use std::marker::Model;

/// What the location database keeps on its disk, and its callers in this boot, with its replies to them.
#[derive(Drop)]
pub struct LocDb<D: Disk> {
    pub(crate) alloc: Global,
    pub(crate) store: LocStore<D>,
    pub(crate) callers: Callers,
}

impl<D: Disk> Model for LocDb<D> {
    ghost use Rattle.afs_locdb.specs.Seen.{Database};

    ghost Value = { Database D };

    ghost view = { λ b. record { store = b.store; boot = b.callers.boot; seats = b.callers.seats } };
}

impl<D: Disk> LocDb<D> {
    /// What stands in memory of its disk. It takes no memory.
    pub(crate) fn held(&self) -> &State
        ensures { self.now.store.durable ≡ loc_fold.placed self.now.store.durable.journal (D.limit self.now.store.disk) (parts_of result.now) }
    {
        &self.store.state().state
    }

    /// The entries in memory stand under their numbers, and kept replies are to nodes of the cell.
    pub(crate) fn is_in_order(&self)
        ensures keyed { AreKeyed self.now.store.durable.entries }
        ensures nodes { AreOfNodes self.now.store.durable.kept }
    {
        let state = self.held();
        state.entries.are_keyed();
        state.kept.are_of_nodes();
    }

    /// How many records stand on the disk. It takes no memory.
    pub fn mark(&self) -> Mark
        ensures value { result ≡ record { generation = 0; records = self.now.store.count } }
        ensures kept { self.now.store.closed ≡ false → IsKept loc_fold self.now.store.durable (D.seen self.now.store.disk) (D.may_leave self.now.store.disk) }
        ensures counted { self.now.store.closed ≡ false → IsCounted self.now.store.count (D.seen self.now.store.disk) }
        ensures capacity { self.now.store.durable.capacity ≡ D.limit self.now.store.disk }
    {
        self.store.mark()
    }

    /// The node that it is. It takes no memory.
    pub fn node(&self) -> Node
        ensures { result ≡ self.now.store.node }
    {
        self.store.node()
    }

    /// The boot number. It takes no memory.
    pub fn boot_number(&self) -> u32
        ensures { result ≡ self.now.store.durable.boot }
    {
        self.held().boot
    }

    /// The disk.
    pub fn into_disk(self) -> D
        ensures { result ≡ self.store.disk }
    {
        let LocDb {
            alloc: _,
            store,
            callers: _,
        } = self;
        store.into_disk()
    }
}
