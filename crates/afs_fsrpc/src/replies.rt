//! Replies: a header, the code in place 0 and, exactly where that is 0, the reply's fields from place 1 on.

ghost use Rattle.std.specs.Prelude.{◌≡◌, ℤ, Option, IfOk};
ghost use Rattle.std.specs.Option.{option_copied};
ghost use Rattle.afs_num.specs.declared.types.Half.TheVariants as halves;
ghost use Rattle.afs_num.specs.declared.types.Head.{Head};
ghost use Rattle.afs_num.specs.declared.calls.FsReply.{FsReply};
ghost use Rattle.spec_model.specs.Rpc.{spelled_reply, SpellsReply, ReadsReply, IsValueOrNoMemory, CanAnswer, IsHeadFor, IsOpcodeOf};
ghost use Rattle.spec_model.specs.FsRows.{fs_replies};

use crate::tables::FsReplies;
use afs_num::calls::FsReply;
use afs_num::sequences::Octets;
use afs_num::types::{Code, Head, Mem};
use spec_shape::faults::ShapeFault;
use std::alloc::Global;

/// The reply of these bytes: its header, its code and, exactly where that is 0, its fields. `Head` where the header
/// can't be read or is that of no reply, then `NoRow`, then `Field` with the first bad one.
pub fn decode_reply(
    alloc: Global,
    bytes: &[u8],
) -> Result<(Head, Code, Option<FsReply>), ShapeFault>
    // What is decoded is spelled so.
    ensures spelled { IfOk result (λ m. SpellsReply fs_replies m.0 m.1.0 m.2 bytes.now) }
    // What is spelled so is decoded, unless memory runs out.
    ensures only { (head : Head) (code : ℤ) (reply : Option FsReply) → SpellsReply fs_replies head code reply bytes.now →
        IsValueOrNoMemory (head, record { 0 = code }, reply) result }
    // Which fault it is.
    ensures exact { ReadsReply fs_replies bytes.now result }
{
    afs_rpc::replies::decode_reply::<FsReplies>(alloc, bytes)
}

/// The one spelling of a reply. A refusal may answer a call whose opcode has no row; it is then spelled, and
/// `decode_reply` answers `NoRow`.
pub fn encode_reply(alloc: Global, head: &Head, code: Code, reply: Option<&FsReply>) -> Mem<Octets>
    requires { CanAnswer fs_replies code.0 (option_copied reply) }
    ensures spelled { IfOk result (λ bytes. bytes ≡ spelled_reply fs_replies head.now code.0 (option_copied reply.entry)) }
    // Under a header of its own it is the reply, and `decode_reply` gives it back.
    ensures spells { IsHeadFor halves.Reply head.now.opcode head.now → IsOpcodeOf fs_replies head.now.opcode (option_copied reply.entry) → IfOk result (SpellsReply fs_replies head.now code.0 (option_copied reply.entry)) }
{
    afs_rpc::replies::encode_reply::<FsReplies>(alloc, head, code, reply)
}
