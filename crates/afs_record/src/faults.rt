ghost use Rattle.std.specs.Prelude.{◌≡◌};
ghost use Rattle.afs_record.specs.declared.faults.RecordFault.TheVariants.{NoForm, OutOfMemory};
ghost use Rattle.afs_xdr.specs.declared.faults.XdrFault.{XdrFault};

use afs_xdr::faults::XdrFault;
use std::alloc::AllocError;

/// Why bytes were not read: they are no record, or memory was wanting.
#[derive(Clone, Copy, Debug, PartialEq, Eq)]
pub enum RecordFault {
    NoForm,
    OutOfMemory,
}

/// Why a record isn't taken: the fold can't take it, or memory ran out.
#[derive(Clone, Copy, Debug, PartialEq, Eq)]
pub enum Unfit {
    Bad,
    OutOfMemory,
}

impl From<AllocError> for Unfit {
    ghost use Rattle.afs_record.specs.declared.faults.Unfit.TheVariants as unfit;

    ghost from_gives = { λ _ e. e ≡ unfit.OutOfMemory };

    fn from(_fault: AllocError) -> Unfit {
        Unfit::OutOfMemory
    }
}

impl From<AllocError> for RecordFault {
    ghost from_gives = { λ _ e. e ≡ OutOfMemory };

    fn from(_fault: AllocError) -> RecordFault {
        RecordFault::OutOfMemory
    }
}

impl From<XdrFault> for RecordFault {
    ghost from_gives = { λ _ e. e ≡ NoForm };

    fn from(_fault: XdrFault) -> RecordFault {
        RecordFault::NoForm
    }
}
