// A database over a fuse: what is set passes to the fuse.
ghost use Rattle.std.specs.Prelude.{◌≡◌, ◌↔◌, IsTrue};
ghost use Rattle.afs_disk.specs.Disk.{IsBeyond};
ghost use Rattle.afs_disk.specs.Fuses.{armed, failing};
ghost use Rattle.afs_locdb.specs.Seen.{over};

use crate::database::LocDb;
use afs_disk::{Disk, Fuse};

impl<D: Disk> LocDb<Fuse<D>> {
    /// Arms the fuse: so many device calls pass from now on, and each that follows is stopped.
    pub fn arm(&mut self, passes: u64)
        ensures { self.new ≡ over (armed passes self.old.store.disk) self.old }
    {
        self.store.arm(passes);
    }

    /// Sets the fuse to fail at the device call of this number from now on: 1 is the next.
    pub fn fail_at(&mut self, call: u64)
        ensures { self.new ≡ over (failing call self.old.store.disk) self.old }
    {
        self.store.fail_at(call);
    }

    /// Whether a device call came after the passes were spent.
    pub fn stopped(&self) -> bool
        ensures { IsTrue result ↔ IsBeyond self.now.store.disk.stop self.now.store.disk.calls }
    {
        self.store.stopped()
    }
}
