ghost use Rattle.std.specs.Prelude.{◌≡◌};
ghost use Rattle.afs_dir.specs.declared.faults.DirFault.TheVariants.{OutOfMemory};

use afs_num::types::Code;
use std::alloc::{AllocError, AllocFailed};

/// Why a call on a directory is refused.
#[derive(Clone, Copy, Debug, PartialEq, Eq)]
pub enum DirFault {
    /// 2: there is no such name; 17: the name is there; 22: no directory may have this name; 27: 1,024 names are there.
    Code(Code),
    /// The bytes spell no directory; the offset, in bytes, of the first field that can't be read, or that no directory
    /// has there.
    BadDir(u32),
    OutOfMemory,
}

impl From<AllocError> for DirFault {
    ghost from_gives = { λ f e. e ≡ OutOfMemory };

    fn from(_: AllocError) -> Self {
        DirFault::OutOfMemory
    }
}

impl<T: Drop> From<AllocFailed<T>> for DirFault {
    ghost from_gives = { λ f e. e ≡ OutOfMemory };

    fn from(_: AllocFailed<T>) -> Self {
        DirFault::OutOfMemory
    }
}
