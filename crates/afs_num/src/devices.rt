ghost use Rattle.std.specs.Prelude.{◌≡◌};
ghost use Rattle.afs_num.specs.declared.faults.JournalFault.TheVariants.{Failed as JournalFailed, OutOfMemory};

use crate::faults::JournalFault;
use std::alloc::AllocError;

/// A device, a stream or a bank failed in this call.
#[derive(Clone, Copy, Debug, PartialEq, Eq)]
pub struct Failed;

impl From<Failed> for JournalFault {
    ghost from_gives = { λ _ fault. fault ≡ JournalFailed };

    fn from(_: Failed) -> Self {
        JournalFault::Failed
    }
}

impl From<AllocError> for JournalFault {
    ghost from_gives = { λ _ fault. fault ≡ OutOfMemory };

    fn from(_: AllocError) -> Self {
        JournalFault::OutOfMemory
    }
}
