ghost use Rattle.std.specs.Prelude.{◌≡◌};
ghost use Rattle.spec_shape.specs.declared.faults.FieldFault.TheVariants.{Xdr, OutOfMemory};

use afs_xdr::faults::XdrFault;
use std::alloc::{AllocError, AllocFailed};

/// Why bytes are no message: the header can't be read, no row has the opcode, a field is bad (which one, and why; of
/// several the first), or memory was wanting.
#[derive(Clone, Copy, Debug, PartialEq, Eq)]
pub enum ShapeFault {
    Head(XdrFault),
    NoRow(u32),
    Field(u32, XdrFault),
    OutOfMemory,
}

/// Why a field could not be read.
#[derive(Clone, Copy, Debug, PartialEq, Eq)]
pub enum FieldFault {
    Xdr(XdrFault),
    OutOfMemory,
}

impl FieldFault {
    ghost use Rattle.spec_shape.specs.Reading.{fault_of_field};

    /// The same of the field of this place in its message.
    pub fn at(self, place: u32) -> ShapeFault
        ensures { result ≡ fault_of_field place self }
    {
        match self {
            FieldFault::Xdr(fault) => ShapeFault::Field(place, fault),
            FieldFault::OutOfMemory => ShapeFault::OutOfMemory,
        }
    }
}

impl From<XdrFault> for FieldFault {
    ghost from_gives = { λ f e. e ≡ Xdr f };

    fn from(fault: XdrFault) -> FieldFault {
        FieldFault::Xdr(fault)
    }
}

impl From<AllocError> for FieldFault {
    ghost from_gives = { λ _ e. e ≡ OutOfMemory };

    fn from(_fault: AllocError) -> FieldFault {
        FieldFault::OutOfMemory
    }
}

impl<T: Drop> From<AllocFailed<T>> for FieldFault {
    ghost from_gives = { λ _ e. e ≡ OutOfMemory };

    fn from(_fault: AllocFailed<T>) -> FieldFault {
        FieldFault::OutOfMemory
    }
}
