//! Calls: a header, the user in place 0, the call's fields from place 1 on.

ghost use Rattle.std.specs.Prelude.{◌≡◌, ◌≤◌, length, List, ℕ, IfOk};
ghost use Rattle.afs_num.specs.declared.types.Half.TheVariants as halves;
ghost use Rattle.afs_num.specs.declared.types.Head.{Head};
ghost use Rattle.afs_num.specs.declared.calls.FsCall.{FsCall};
ghost use Rattle.spec_model.specs.Heads.{user_limit};
ghost use Rattle.spec_model.specs.Rpc.{spelled_call, SpellsCall, ReadsCall, IsValueOrNoMemory, IsHeadFor};
ghost use Rattle.spec_model.specs.FsRows.{fs_calls, call_number};
ghost use Rattle.spec_shape.specs.Rows.{IsWithin};

use crate::tables::FsCalls;
use afs_num::calls::FsCall;
use afs_num::sequences::Octets;
use afs_num::types::{Head, Mem};
use spec_shape::faults::ShapeFault;
use std::alloc::Global;

/// The call of these bytes: its header, its user and its fields. `Head` where the header can't be read or is that of
/// no call, then `NoRow`, then `Field` with the first bad one.
pub fn decode_call(alloc: Global, bytes: &[u8]) -> Result<(Head, Octets, FsCall), ShapeFault>
    // What is decoded is spelled so.
    ensures spelled { IfOk result (λ m. SpellsCall fs_calls m.0 m.1 m.2 bytes.now) }
    // What is spelled so is decoded, unless memory runs out.
    ensures only { (head : Head) (user : List ℕ) (call : FsCall) → SpellsCall fs_calls head user call bytes.now →
        IsValueOrNoMemory (head, user, call) result }
    // Which fault it is.
    ensures exact { ReadsCall fs_calls bytes.now result }
{
    afs_rpc::calls::decode_call::<FsCalls>(alloc, bytes)
}

/// The one spelling of a call.
pub fn encode_call(alloc: Global, head: &Head, user: &[u8], call: &FsCall) -> Mem<Octets>
    requires user { length user.now ≤ user_limit }
    requires row { IsWithin fs_calls call.now }
    ensures spelled { IfOk result (λ bytes. bytes ≡ spelled_call fs_calls head.now user.now call.now) }
    // Under a header of its own it is the call, and `decode_call` gives it back.
    ensures spells { IsHeadFor halves.Call (call_number call.now) head.now → IfOk result (SpellsCall fs_calls head.now user.now call.now) }
{
    afs_rpc::calls::encode_call::<FsCalls>(alloc, head, user, call)
}
