ghost use Rattle.std.specs.Prelude.{◌≡◌};
ghost use Rattle.afs_acl.specs.declared.stops.Stop.TheVariants.{OutOfMemory};

use std::alloc::AllocError;

/// Why a text is no access list, while it is read: the bytes from the first that can't stand there, or the sum of its
/// counts; or memory was wanting.
#[derive(Clone, Copy)]
pub enum Stop<'a> {
    BadFrom(&'a [u8]),
    TooMany(u64),
    OutOfMemory,
}

impl<'a> From<AllocError> for Stop<'a> {
    ghost from_gives = { λ _ e. e ≡ OutOfMemory };

    fn from(_fault: AllocError) -> Stop<'a> {
        Stop::OutOfMemory
    }
}
