//! Replies: a header, the code in place 0 and, exactly where that is 0, the reply's fields from place 1 on.

ghost use Rattle.std.specs.Prelude.{◌≡◌, ◌++◌, List, [], ℤ, Option, IfOk, OnOk, FitsSigned};
ghost use Rattle.std.specs.Int.{w32};
ghost use Rattle.std.specs.List.{AllByRecursion};
ghost use Rattle.std.specs.Option.{option_copied};
ghost use Rattle.afs_num.specs.declared.types.Half.TheVariants as halves;
ghost use Rattle.afs_num.specs.declared.types.Head.{Head};
ghost use Rattle.afs_xdr.specs.Words.{AreWords};
ghost use Rattle.spec_shape.specs.Spelling.{fields_spelled, IsSpellable};
ghost use Rattle.spec_shape.specs.Reading.{in_place, signed_at, fields_to_end_at, ReadsShape, GivesShape};
ghost use Rattle.spec_shape.specs.Tables.{AreInRange};
ghost use Rattle.spec_model.specs.Heads.{is_zero, head_words};
ghost use Rattle.spec_model.specs.Rpc.{answer_at, replied_at, reply_at, answer_fields, spelled_reply, SpellsReply, ReadsReply, IsValueOrNoMemory, CanAnswer, IsHeadFor, IsOpcodeOf};

use crate::heads::{head_of_half, write_head};
use afs_fields::messages::Messages;
use afs_num::sequences::Octets;
use afs_num::types::{Code, Half, Head, Mem};
use afs_xdr::reading::Reader;
use afs_xdr::writing::Writer;
use spec_shape::faults::ShapeFault;
use spec_shape::kinds::Fields;
use std::alloc::Global;

fn is_done(code: Code) -> bool
    ensures { result ≡ is_zero code.0 }
{
    code.0 == 0
}

/// Reads the code of a reply, which stands in place 0.
#[tactic(auto, unfolding(spec_shape::specs::Reading::signed_at))]
fn read_code(r: &mut Reader) -> Result<Code, ShapeFault>
    ensures { ReadsShape (λ bytes. in_place 0 (signed_at bytes)) (λ z. z.0) r.old r.new result }
{
    match r.word() {
        Ok(n) => Ok(Code(n.cast_signed())),
        Err(fault) => Err(ShapeFault::Field(0, fault)),
    }
}

/// No fields, up to the last byte.
#[tactic(auto, unfolding(spec_shape::specs::Reading::fields_to_end_at, spec_shape::specs::Reading::fields_at))]
pub fn no_fields(alloc: Global, r: &Reader) -> Result<Fields, ShapeFault>
    ensures { GivesShape (λ fs. fs) (fields_to_end_at [] r.now.left) result }
{
    match r.end() {
        Ok(()) => Ok(Fields::new(alloc)),
        Err(fault) => Err(ShapeFault::Field(1, fault)),
    }
}

/// What stands behind a code: the reply to a call of this opcode, or nothing.
#[tactic(auto, unfolding(spec_model::specs::Rpc::answer_at))]
fn read_answer<M: Messages>(
    alloc: Global,
    opcode: u32,
    done: bool,
    r: &mut Reader,
) -> Result<Option<M::Message>, ShapeFault>
    ensures { GivesShape (λ x. x) (answer_at M.table opcode done r.old.left) result }
{
    if done {
        let _shape = M::shape(opcode)?;
        let reply = M::read(alloc, opcode, r)?;
        Ok(Some(reply))
    } else {
        let _nothing = no_fields(alloc, r)?;
        Ok(None)
    }
}

/// Reads the reply to a call of this opcode behind its header: its code and, where that is 0, its fields.
#[tactic(auto, unfolding(spec_model::specs::Rpc::replied_at))]
pub fn read_replied<M: Messages>(
    alloc: Global,
    opcode: u32,
    r: &mut Reader,
) -> Result<(Code, Option<M::Message>), ShapeFault>
    ensures { GivesShape (λ x. (x.0.0, x.1)) (replied_at M.table opcode r.old.left) result }
{
    let code = read_code(r)?;
    let reply = read_answer::<M>(alloc, opcode, is_done(code), r)?;
    Ok((code, reply))
}

/// The reply of these bytes, as it is read.
#[tactic(auto, unfolding(spec_model::specs::Rpc::reply_at))]
fn read_reply<M: Messages>(
    alloc: Global,
    bytes: &[u8],
) -> Result<(Head, Code, Option<M::Message>), ShapeFault>
    ensures { ReadsReply M.table bytes.now result }
{
    let mut r = Reader::new(bytes);
    let head = head_of_half(&mut r, Half::Reply)?;
    let _shape = M::shape(head.opcode)?;
    let (code, reply) = read_replied::<M>(alloc, head.opcode, &mut r)?;
    Ok((head, code, reply))
}

/// The reply of these bytes: its header, its code and, exactly where that is 0, its fields. `Head` where the header
/// can't be read or is that of no reply, then `NoRow`, then `Field` with the first bad one.
pub fn decode_reply<M: Messages>(
    alloc: Global,
    bytes: &[u8],
) -> Result<(Head, Code, Option<M::Message>), ShapeFault>
    // What is decoded is spelled so.
    ensures spelled { IfOk result (λ m. SpellsReply M.table m.0 m.1.0 m.2 bytes.now) }
    // What is spelled so is decoded, unless memory runs out.
    ensures only { (head : Head) (code : ℤ) (reply : Option M.Message) → SpellsReply M.table head code reply bytes.now →
        IsValueOrNoMemory (head, record { 0 = code }, reply) result }
    // Which fault it is.
    ensures exact { ReadsReply M.table bytes.now result }
{
    read_reply::<M>(alloc, bytes)
}

/// How many bytes the fields of an answer take, or more.
fn answer_room<M: Messages>(reply: Option<&M::Message>) -> usize {
    match reply {
        Some(reply) => M::room(reply),
        None => 0,
    }
}

/// Appends the fields of an answer. After want of memory bytes of them may stand behind those from before.
fn write_answer<M: Messages>(reply: Option<&M::Message>, w: &mut Writer) -> Mem<()>
    requires { AllByRecursion IsSpellable (answer_fields M.table (option_copied reply)) }
    ensures ok { OnOk result (w.new ≡ w.old ++ fields_spelled (answer_fields M.table (option_copied reply.entry))) }
    ensures fits { OnOk result (AreInRange (answer_fields M.table (option_copied reply.entry))) }
{
    match reply {
        Some(reply) => M::write(reply, w),
        None => Ok(()),
    }
}

/// The bytes of a reply. The room for the whole message is taken once.
pub fn spell_reply<M: Messages>(
    alloc: Global,
    head: &Head,
    code: Code,
    reply: Option<&M::Message>,
) -> Mem<Octets>
    requires { CanAnswer M.table code.0 (option_copied reply) }
    ensures spelled { IfOk result (λ bytes. bytes ≡ spelled_reply M.table head.now code.0 (option_copied reply.entry)) }
    // What the types of its numbers keep, for who says that it is read again.
    ensures fits { OnOk result (AreWords (head_words head.now) × FitsSigned w32 code.0 × AreInRange (answer_fields M.table (option_copied reply.entry))) }
{
    let room = answer_room::<M>(reply).saturating_add(36);
    let mut w = Writer::with_capacity(alloc, room)?;
    write_head(head, &mut w)?;
    w.word(code.0.cast_unsigned())?;
    write_answer::<M>(reply, &mut w)?;
    let bytes = Octets::from_vec(w.into_vec()?)?;
    Ok(bytes)
}

/// The one spelling of a reply. A refusal may answer a call whose opcode has no row; it is then spelled, and
/// `decode_reply` answers `NoRow`.
pub fn encode_reply<M: Messages>(
    alloc: Global,
    head: &Head,
    code: Code,
    reply: Option<&M::Message>,
) -> Mem<Octets>
    requires { CanAnswer M.table code.0 (option_copied reply) }
    ensures spelled { IfOk result (λ bytes. bytes ≡ spelled_reply M.table head.now code.0 (option_copied reply.entry)) }
    // Under a header of its own it is the reply, and `decode_reply` gives it back.
    ensures spells { IsHeadFor halves.Reply head.now.opcode head.now → IsOpcodeOf M.table head.now.opcode (option_copied reply.entry) → IfOk result (SpellsReply M.table head.now code.0 (option_copied reply.entry)) }
{
    let bytes = spell_reply::<M>(alloc, head, code, reply)?;
    Ok(bytes)
}
