ghost use Rattle.std.specs.Prelude.{◌≡◌};
ghost use Rattle.afs_vnode.specs.declared.faults.ImageFault.TheVariants.{OutOfMemory};

use afs_xdr::faults::XdrFault;
use std::alloc::AllocError;

/// Why bytes are no image of a vnode: the place of the first bad field, from 1, and its cause; or memory was wanting.
#[derive(Clone, Copy, Debug, PartialEq, Eq)]
pub enum ImageFault {
    Field(u32, XdrFault),
    OutOfMemory,
}

impl From<AllocError> for ImageFault {
    ghost from_gives = { λ _ e. e ≡ OutOfMemory };

    fn from(_fault: AllocError) -> ImageFault {
        ImageFault::OutOfMemory
    }
}

/// Why a vnode was not put: it would be one more than 4,096, or memory was wanting.
#[derive(Clone, Copy, Debug, PartialEq, Eq)]
pub enum VnodeFault {
    TooMany,
    OutOfMemory,
}
