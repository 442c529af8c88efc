//! Why a cell isn't set up, and why it makes no step.

ghost use Rattle.std.specs.Prelude.{◌≡◌};
ghost use Rattle.afs_cell.specs.declared.faults.SetupFault.TheVariants as setup;
ghost use Rattle.afs_cell.specs.declared.faults.WorldFault.TheVariants as world;

use afs_num::types::Node;
use std::alloc::{AllocError, AllocFailed};

/// Why a cell wasn't set up: a disk failed, or has no room for the first record; or memory was wanting.
#[derive(Clone, Copy, Debug, PartialEq, Eq)]
pub enum SetupFault {
    Disk(Node),
    OutOfMemory,
}

impl From<AllocError> for SetupFault {
    ghost from_gives = { λ _ e. e ≡ setup.OutOfMemory };

    fn from(_: AllocError) -> SetupFault {
        SetupFault::OutOfMemory
    }
}

impl<T: Drop> From<AllocFailed<T>> for SetupFault {
    ghost from_gives = { λ _ e. e ≡ setup.OutOfMemory };

    fn from(_: AllocFailed<T>) -> SetupFault {
        SetupFault::OutOfMemory
    }
}

/// Why an event was not played: the history is as long as one may be; or memory was wanting, and the cell is as it was,
/// or can't go on.
#[derive(Clone, Copy, Debug, PartialEq, Eq)]
pub enum WorldFault {
    Limit,
    OutOfMemory,
}

impl From<AllocError> for WorldFault {
    ghost from_gives = { λ _ e. e ≡ world.OutOfMemory };

    fn from(_: AllocError) -> WorldFault {
        WorldFault::OutOfMemory
    }
}

impl<T: Drop> From<AllocFailed<T>> for WorldFault {
    ghost from_gives = { λ _ e. e ≡ world.OutOfMemory };

    fn from(_: AllocFailed<T>) -> WorldFault {
        WorldFault::OutOfMemory
    }
}
