//! Why a dump makes no volume.

ghost use Rattle.std.specs.Prelude.{◌≡◌};
ghost use Rattle.afs_restore.specs.declared.faults.DumpFault.TheVariants.{OutOfMemory};

use std::alloc::AllocError;

/// Why a stream makes no volume: `Bad` has the offset of the first field that is no good, or memory ran out.
#[derive(Clone, Copy, Debug, PartialEq, Eq)]
pub enum DumpFault {
    Bad(u64),
    OutOfMemory,
}

impl From<AllocError> for DumpFault {
    ghost from_gives = { λ _ e. e ≡ OutOfMemory };

    fn from(_fault: AllocError) -> DumpFault {
        DumpFault::OutOfMemory
    }
}
