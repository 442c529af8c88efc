//! Copies of what a record says of a change.

ghost use Rattle.std.specs.Prelude.{◌≡◌, IfOk};

use afs_num::records::RecordHead;
use afs_num::types::Mem;
use afs_num::vnodes::VnodeNumbers;
use std::alloc::Global;

/// A copy of the numbers of vnodes.
pub(crate) fn copy_numbers(alloc: Global, numbers: &[u32]) -> Mem<VnodeNumbers>
    ensures { IfOk result (λ ns. ns ≡ numbers.now) }
{
    Ok(VnodeNumbers::from_vec(Vec::from_slice(alloc, numbers)?))
}

/// A copy of what stands before the fields of a record.
pub(crate) fn copy_head(alloc: Global, head: &RecordHead) -> Mem<RecordHead>
    ensures { IfOk result (λ h. h ≡ head.now) }
{
    Ok(RecordHead {
        family: head.family,
        stamp: head.stamp,
        caller: head.caller,
        epoch: head.epoch,
        number: head.number,
        reply: head.reply.copy(alloc)?,
    })
}
