//! What is left of a node that is down.

ghost use Rattle.std.specs.Prelude.{◌≡◌, false};
ghost use Rattle.afs_volstore.specs.Stores.{IsCounted};
ghost use Rattle.afs_host.specs.Views.{count_mark};

use crate::stores::OnDisk;
use afs_disk::Disk;
use afs_num::records::Mark;
use std::marker::Model;

/// The disk of a node that is down, and the mark of its store after the last step whose lines were told.
#[derive(Drop)]
pub struct Resting<D: Disk> {
    pub disk: D,
    pub mark: Mark,
}

impl<D: Disk> Model for Resting<D> {
    ghost use Rattle.afs_host.specs.Seats.{Resting};

    ghost Value = { Resting D };

    ghost view = { λ r. record { disk = r.disk; mark = r.mark } };
}

/// What is left of a node with this store.
pub fn rest_of<T: OnDisk>(store: T) -> Resting<T::D>
    ensures value { result ≡ record { disk = (T.shown store).fuse.disk; mark = count_mark (T.shown store).count } }
    ensures kept { (T.shown store).closed ≡ false → T.kept store (T.D.seen (T.shown store).fuse.disk) (T.D.may_leave (T.shown store).fuse.disk) }
    ensures counted { (T.shown store).closed ≡ false → IsCounted (T.shown store).count (T.D.seen (T.shown store).fuse.disk) }
    ensures capacity { (T.shown store).capacity ≡ T.D.limit (T.shown store).fuse.disk }
{
    let mark = store.mark();
    Resting {
        disk: store.release(),
        mark,
    }
}

impl<D: Disk> Resting<D> {
    /// The disk.
    pub fn into_disk(self) -> D
        ensures { result ≡ self.disk }
    {
        let Resting { disk, mark: _ } = self;
        disk
    }
}
