//! Why bytes are no script.

use afs_num::scripts::Reason;
use std::alloc::AllocError;
use thiserror::Error;

/// Why nothing was read: the first bad line, counted from 1, and its reason; or want of memory.
#[derive(Clone, Copy, Debug, Error)]
pub enum ScriptFault {
    #[error("line {0}: {1:?}")]
    Line(u32, Reason),
    #[error("out of memory")]
    OutOfMemory,
}

/// Why a line was not read.
#[derive(Clone, Copy)]
pub enum LineFault {
    Bad(Reason),
    OutOfMemory,
}

impl From<Reason> for LineFault {
    ghost use Rattle.std.specs.Prelude.{◌≡◌};
    ghost use Rattle.afs_words.specs.declared.faults.LineFault.TheVariants.{Bad};

    ghost from_gives = { λ reason fault. fault ≡ Bad reason };

    fn from(reason: Reason) -> Self {
        LineFault::Bad(reason)
    }
}

impl From<AllocError> for LineFault {
    ghost use Rattle.std.specs.Prelude.{◌≡◌};
    ghost use Rattle.afs_words.specs.declared.faults.LineFault.TheVariants.{OutOfMemory};

    ghost from_gives = { λ error fault. fault ≡ OutOfMemory };

    fn from(_error: AllocError) -> Self {
        LineFault::OutOfMemory
    }
}
