ghost use Rattle.std.specs.Prelude.{◌≡◌};
ghost use Rattle.afs_restore.specs.declared.stops.Stop.TheVariants.{OutOfMemory};

use std::alloc::{AllocError, AllocFailed};

/// Why no more fields are read: the bytes end within a field, a field is no good, or memory ran out.
#[derive(Clone, Copy, Debug, PartialEq, Eq)]
pub enum Stop {
    Cut,
    Bad,
    OutOfMemory,
}

impl From<AllocError> for Stop {
    ghost from_gives = { λ _ e. e ≡ OutOfMemory };

    fn from(_fault: AllocError) -> Stop {
        Stop::OutOfMemory
    }
}

impl<T: Drop> From<AllocFailed<T>> for Stop {
    ghost from_gives = { λ _ e. e ≡ OutOfMemory };

    fn from(_fault: AllocFailed<T>) -> Stop {
        Stop::OutOfMemory
    }
}
