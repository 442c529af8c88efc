//! Calls: a header, the user in place 0, the call's fields from place 1 on.

ghost use Rattle.std.specs.Prelude.{◌≡◌, ◌≤◌, length, List, ℕ, IfOk};
ghost use Rattle.afs_num.specs.declared.types.Half.TheVariants as halves;
ghost use Rattle.afs_num.specs.declared.types.Head.{Head};
ghost use Rattle.afs_num.specs.declared.volume_calls.VolCall.{VolCall};
ghost use Rattle.spec_model.specs.Heads.{user_limit};
ghost use Rattle.spec_model.specs.Rpc.{spelled_call, SpellsCall, ReadsCall, IsValueOrNoMemory, IsHeadFor};
ghost use Rattle.spec_model.specs.VolRows.{vol_calls};
ghost use Rattle.spec_shape.specs.Rows.{IsWithin};

use crate::tables::VolCalls;
use afs_num::sequences::Octets;
use afs_num::types::{Head, Mem};
use afs_num::volume_calls::VolCall;
use spec_shape::faults::ShapeFault;
use std::alloc::Global;

/// The call of these bytes: its header, its user and its fields. `Head` where the header can't be read or is that of
/// no call, then `NoRow`, then `Field` with the first bad one.
pub fn decode_call(alloc: Global, bytes: &[u8]) -> Result<(Head, Octets, VolCall), ShapeFault>
    // What is decoded is spelled so.
    ensures spelled { IfOk result (λ m. SpellsCall vol_calls m.0 m.1 m.2 bytes.now) }
    // What is spelled so is decoded, unless memory runs out.
    ensures only { (head : Head) (user : List ℕ) (call : VolCall) → SpellsCall vol_calls head user call bytes.now →
        IsValueOrNoMemory (head, user, call) result }
    // Which fault it is.
    ensures exact { ReadsCall vol_calls bytes.now result }
{
    afs_rpc::calls::decode_call::<VolCalls>(alloc, bytes)
}

/// The one spelling of a call.
pub fn encode_call(alloc: Global, head: &Head, user: &[u8], call: &VolCall) -> Mem<Octets>
    requires user { length user.now ≤ user_limit }
    requires row { IsWithin vol_calls call.now }
    ensures spelled { IfOk result (λ bytes. bytes ≡ spelled_call vol_calls head.now user.now call.now) }
    // Under a header of its own it is the call, and `decode_call` gives it back.
    ensures spells { IsHeadFor halves.Call (vol_calls.row call.now).opcode head.now → IfOk result (SpellsCall vol_calls head.now user.now call.now) }
{
    afs_rpc::calls::encode_call::<VolCalls>(alloc, head, user, call)
}
