// What bytes in memory held before.
ghost use Rattle.std.specs.Prelude.{◌≡◌, ◌++◌, ◌∷◌, []};
ghost use Rattle.afs_disk.specs.Moments.{moments};

use crate::medium::Medium;
use std::snapshot::Snapshot;

// All that was held before, for proofs alone: it takes no memory.
#[derive(Drop)]
pub(crate) enum Past {
    Nothing,
    After(Snapshot<Past>, Snapshot<Medium>),
}

impl Past {
    /// Nothing was held before.
    pub(crate) fn new() -> Past
        ensures { moments result ≡ [] }
    {
        Past::Nothing
    }

    /// What is held joins the past.
    pub(crate) fn remember(&mut self, medium: &Medium)
        ensures { moments self.new ≡ moments self.old ++ medium.now ∷ [] }
    {
        *self = Past::After(Snapshot::of(self), Snapshot::of(medium));
    }
}
