ghost use Rattle.std.specs.Prelude.{◌≡◌};

use std::alloc::{AllocError, AllocFailed};

/// Why parts make no volume: they aren't sound, or can't be read; or memory was wanting.
#[derive(Clone, Copy, Debug, PartialEq, Eq)]
pub enum AssembleFault {
    NotSound,
    OutOfMemory,
}

impl From<AllocError> for AssembleFault {
    ghost use Rattle.afs_volume.specs.declared.faults.AssembleFault.TheVariants as assembling;

    ghost from_gives = { λ _ e. e ≡ assembling.OutOfMemory };

    fn from(_fault: AllocError) -> AssembleFault {
        AssembleFault::OutOfMemory
    }
}

impl<T: Drop> From<AllocFailed<T>> for AssembleFault {
    ghost use Rattle.afs_volume.specs.declared.faults.AssembleFault.TheVariants as assembling;

    ghost from_gives = { λ _ e. e ≡ assembling.OutOfMemory };

    fn from(_fault: AllocFailed<T>) -> AssembleFault {
        AssembleFault::OutOfMemory
    }
}
