// A store over a fuse: what is set passes to the fuse.
ghost use Rattle.std.specs.Prelude.{◌≡◌, ◌↔◌, IsTrue};
ghost use Rattle.afs_disk.specs.Fuses.{armed, failing};
ghost use Rattle.afs_disk.specs.Disk.{IsBeyond};

use crate::fold::Fold;
use crate::store::Store;
use afs_disk::{Disk, Fuse};

impl<D: Disk, R: Drop, T: Drop, S: Fold<R, T>> Store<Fuse<D>, R, T, S> {
    /// Arms the fuse: so many device calls pass from now on, and each that follows is stopped.
    pub fn arm(&mut self, passes: u64)
        ensures { self.new ≡ record self.old { disk = armed passes self.old.disk } }
    {
        self.journal.arm(passes);
    }

    /// Sets the fuse to fail at the device call of this number from now on: 1 is the next.
    pub fn fail_at(&mut self, call: u64)
        ensures { self.new ≡ record self.old { disk = failing call self.old.disk } }
    {
        self.journal.fail_at(call);
    }

    /// Whether a device call came after the passes were spent.
    pub fn stopped(&self) -> bool
        ensures { IsTrue result ↔ IsBeyond self.now.disk.stop self.now.disk.calls }
    {
        self.journal.stopped()
    }
}
