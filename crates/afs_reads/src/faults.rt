ghost use Rattle.std.specs.Prelude.{◌≡◌};
ghost use Rattle.afs_reads.specs.declared.faults.OpFault.TheVariants.{OutOfMemory};

use afs_num::types::Code;
use std::alloc::{AllocError, AllocFailed};

/// Why an operation is refused: its code, or memory was wanting.
#[derive(Clone, Copy, Debug, PartialEq, Eq)]
pub enum OpFault {
    Code(Code),
    OutOfMemory,
}

impl From<AllocError> for OpFault {
    ghost from_gives = { λ _ e. e ≡ OutOfMemory };

    fn from(_fault: AllocError) -> OpFault {
        OpFault::OutOfMemory
    }
}

impl<T: Drop> From<AllocFailed<T>> for OpFault {
    ghost from_gives = { λ _ e. e ≡ OutOfMemory };

    fn from(_fault: AllocFailed<T>) -> OpFault {
        OpFault::OutOfMemory
    }
}
