//! Headers: eight words before each message.

ghost use Rattle.afs_xdr.specs.Reading.{Gives};
ghost use Rattle.spec_model.specs.Heads.{head_at};
ghost use Rattle.spec_model.specs.Rpc.{first_of};

use afs_num::types::Head;
use afs_xdr::faults::XdrFault;

/// The header of a message. It takes no memory.
pub fn read_head(bytes: &[u8]) -> Result<Head, XdrFault>
    ensures { Gives (λ h. h) (first_of (head_at bytes.now)) result }
{
    afs_rpc::heads::read_head(bytes)
}
