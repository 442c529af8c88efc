//! The store of a node, as its host sees it.

ghost use Rattle.std.specs.Prelude.{◌≡◌, ◌↔◌, ℕ, List, Option, false, IsTrue};
ghost use Rattle.afs_disk.specs.Disk.{IsBeyond};
ghost use Rattle.afs_disk.specs.Fuses.{armed, failing, Fused};
ghost use Rattle.afs_volstore.specs.Stores.{IsCounted, IsKept};
ghost use Rattle.afs_host.specs.Views.{count_mark, StoreView};

use afs_disk::{Disk, Fuse};
use afs_locdb::LocDb;
use afs_num::records::Mark;
use afs_num::types::Node;
use afs_volstore::VolStore;

/// A node's store over a disk behind a fuse. Every kind of node has its own; of each a host needs just this.
pub trait OnDisk {
    /// The disk behind the fuse.
    type D: Disk;

    /// What a host sees of the store.
    ghost shown: { Self → StoreView Self.D };

    /// The store with this fuse in the place of its own.
    ghost with_fuse: { Self → Fused Self.D → Self };

    /// Whether a disk stands for what the store keeps: by the bytes that a read gives, and those that a crash may leave.
    ghost kept: { Self → Option (List ℕ) → (List ℕ → Type 0) → Type 0 };

    /// The node that it is of.
    fn node(&self) -> Node
        ensures { result ≡ (shown self.now).node };

    /// How many records stand on the disk. While no device call has failed, the disk stands for what the store keeps.
    fn mark(&self) -> Mark
        ensures value { result ≡ count_mark (shown self.now).count }
        ensures kept { (shown self.now).closed ≡ false → kept self.now (Self.D.seen (shown self.now).fuse.disk) (Self.D.may_leave (shown self.now).fuse.disk) }
        ensures counted { (shown self.now).closed ≡ false → IsCounted (shown self.now).count (Self.D.seen (shown self.now).fuse.disk) }
        ensures capacity { (shown self.now).capacity ≡ Self.D.limit (shown self.now).fuse.disk };

    /// The fuse is to pass so many device calls more, and then to stop.
    fn arm(&mut self, passes: u64)
        ensures { self.new ≡ with_fuse self.old (armed passes (shown self.old).fuse) };

    /// The fuse is to fail at this one of the next device calls.
    fn fail_at(&mut self, call: u64)
        ensures { self.new ≡ with_fuse self.old (failing call (shown self.old).fuse) };

    /// Whether a device call came after the fuse was to stop.
    fn stopped(&self) -> bool
        ensures { IsTrue result ↔ IsBeyond (shown self.now).fuse.stop (shown self.now).fuse.calls };

    /// The disk.
    fn release(self) -> Self::D
        ensures { result ≡ (shown self).fuse.disk };

    /// Of a store with another fuse a host sees that fuse, and nothing else is another.
    ghost sound: { (s : Self) (f : Fused Self.D) → shown (with_fuse s f) ≡ record (shown s) { fuse = f } };
}

impl<E: Disk> OnDisk for VolStore<Fuse<E>> {
    ghost use Rattle.std.proofs.Common.{refl};
    ghost use Rattle.afs_host.specs.Views.{shown_store};

    type D = E;

    ghost shown = { λ s. shown_store s };

    ghost with_fuse = { λ s f. record s { disk = f } };

    ghost kept = { λ s seen may_leave. IsKept s.durable seen may_leave };

    ghost sound = { λ s f. refl };

    fn node(&self) -> Node {
        self.node()
    }

    fn mark(&self) -> Mark {
        self.mark()
    }

    fn arm(&mut self, passes: u64) {
        self.arm(passes);
    }

    fn fail_at(&mut self, call: u64) {
        self.fail_at(call);
    }

    fn stopped(&self) -> bool {
        self.stopped()
    }

    fn release(self) -> E {
        self.into_disk().into_inner()
    }
}

impl<E: Disk> OnDisk for LocDb<Fuse<E>> {
    ghost use Rattle.std.proofs.Common.{refl};
    ghost use Rattle.afs_store.specs.Stores as folded;
    ghost use Rattle.afs_locstore.specs.LocFold.{loc_fold};
    ghost use Rattle.afs_locdb.specs.Seen.{over};
    ghost use Rattle.afs_host.specs.Views.{shown_database};

    type D = E;

    ghost shown = { λ b. shown_database b };

    ghost with_fuse = { λ b f. over f b };

    ghost kept = { λ b seen may_leave. folded.IsKept loc_fold b.store.durable seen may_leave };

    ghost sound = { λ b f. refl };

    fn node(&self) -> Node {
        self.node()
    }

    fn mark(&self) -> Mark {
        self.mark()
    }

    fn arm(&mut self, passes: u64) {
        self.arm(passes);
    }

    fn fail_at(&mut self, call: u64) {
        self.fail_at(call);
    }

    fn stopped(&self) -> bool {
        self.stopped()
    }

    fn release(self) -> E {
        self.into_disk().into_inner()
    }
}
