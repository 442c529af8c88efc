ghost use Rattle.std.specs.Prelude.{◌≡◌};
ghost use Rattle.afs_server_parts.specs.declared.faults.NodeFault.TheVariants.{OutOfMemory};

use std::alloc::{AllocError, AllocFailed};

/// Why a node made no step: memory was wanting, and the node is as it was; or its disk failed or stopped, and the node is
/// down.
#[derive(Clone, Copy, Debug, PartialEq, Eq)]
pub enum NodeFault {
    OutOfMemory,
    Down,
}

impl From<AllocError> for NodeFault {
    ghost from_gives = { λ _ e. e ≡ OutOfMemory };

    fn from(_fault: AllocError) -> NodeFault {
        NodeFault::OutOfMemory
    }
}

impl<T: Drop> From<AllocFailed<T>> for NodeFault {
    ghost from_gives = { λ _ e. e ≡ OutOfMemory };

    fn from(_fault: AllocFailed<T>) -> NodeFault {
        NodeFault::OutOfMemory
    }
}
