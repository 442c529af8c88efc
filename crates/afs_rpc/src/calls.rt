//! Calls: a header, the user in place 0, the call's fields from place 1 on.

ghost use Rattle.std.specs.Prelude.{◌≡◌, ◌≤◌, length, List, ℕ, IfOk, OnOk};
ghost use Rattle.afs_num.specs.declared.types.Half.TheVariants as halves;
ghost use Rattle.afs_num.specs.declared.types.Head.{Head};
ghost use Rattle.afs_xdr.specs.Words.{opaque_at, AreWords};
ghost use Rattle.spec_shape.specs.Reading.{in_place, ReadsShape, GivesShape};
ghost use Rattle.spec_shape.specs.Tables.{AreInRange};
ghost use Rattle.spec_shape.specs.Rows.{IsWithin};
ghost use Rattle.spec_model.specs.Heads.{user_limit, head_words};
ghost use Rattle.spec_model.specs.Rpc.{asked_at, call_at, spelled_call, SpellsCall, ReadsCall, IsValueOrNoMemory, IsHeadFor};

use crate::heads::{head_of_half, write_head};
use afs_fields::messages::Messages;
use afs_num::sequences::Octets;
use afs_num::types::{Half, Head, Mem};
use afs_xdr::reading::Reader;
use afs_xdr::writing::Writer;
use spec_shape::faults::ShapeFault;
use std::alloc::Global;

/// A user's name, in bytes.
const USER_LIMIT: u32 = 64;

/// Reads the user of a call, which stands in place 0.
fn read_user(alloc: Global, r: &mut Reader) -> Result<Octets, ShapeFault>
    ensures { ReadsShape (λ bytes. in_place 0 (opaque_at user_limit bytes)) (λ s. s) r.old r.new result }
{
    match r.opaque(USER_LIMIT) {
        Ok(bytes) => match Octets::from_slice(alloc, bytes) {
            Ok(user) => Ok(user),
            Err(_) => Err(ShapeFault::OutOfMemory),
        },
        Err(fault) => Err(ShapeFault::Field(0, fault)),
    }
}

/// Reads a call of this opcode behind its header: its user and its fields. `NoRow` where the opcode has none, then
/// `Field` with the first bad one.
#[tactic(auto, unfolding(spec_model::specs::Rpc::asked_at))]
pub fn read_asked<M: Messages>(
    alloc: Global,
    opcode: u32,
    r: &mut Reader,
) -> Result<(Octets, M::Message), ShapeFault>
    ensures { GivesShape (λ c. c) (asked_at M.table opcode r.old.left) result }
{
    let _shape = M::shape(opcode)?;
    let user = read_user(alloc, r)?;
    let call = M::read(alloc, opcode, r)?;
    Ok((user, call))
}

/// The call of these bytes, as it is read.
#[tactic(auto, unfolding(spec_model::specs::Rpc::call_at))]
fn read_call<M: Messages>(
    alloc: Global,
    bytes: &[u8],
) -> Result<(Head, Octets, M::Message), ShapeFault>
    ensures { ReadsCall M.table bytes.now result }
{
    let mut r = Reader::new(bytes);
    let head = head_of_half(&mut r, Half::Call)?;
    let (user, call) = read_asked::<M>(alloc, head.opcode, &mut r)?;
    Ok((head, user, call))
}

/// The call of these bytes: its header, its user and its fields. `Head` where the header can't be read or is that of
/// no call, then `NoRow`, then `Field` with the first bad one.
pub fn decode_call<M: Messages>(
    alloc: Global,
    bytes: &[u8],
) -> Result<(Head, Octets, M::Message), ShapeFault>
    // What is decoded is spelled so.
    ensures spelled { IfOk result (λ m. SpellsCall M.table m.0 m.1 m.2 bytes.now) }
    // What is spelled so is decoded, unless memory runs out.
    ensures only { (head : Head) (user : List ℕ) (call : M.Message) → SpellsCall M.table head user call bytes.now →
        IsValueOrNoMemory (head, user, call) result }
    // Which fault it is.
    ensures exact { ReadsCall M.table bytes.now result }
{
    read_call::<M>(alloc, bytes)
}

/// The bytes of a call. The room for the whole message is taken once.
pub fn spell_call<M: Messages>(
    alloc: Global,
    head: &Head,
    user: &[u8],
    call: &M::Message,
) -> Mem<Octets>
    requires user { length user.now ≤ user_limit }
    requires row { IsWithin M.table call.now }
    ensures spelled { IfOk result (λ bytes. bytes ≡ spelled_call M.table head.now user.now call.now) }
    // What the types of its numbers keep, for who says that it is read again.
    ensures fits { OnOk result (AreWords (head_words head.now) × AreInRange (M.table.row call.now).fields) }
{
    let room = M::room(call).saturating_add(user.len()).saturating_add(40);
    let mut w = Writer::with_capacity(alloc, room)?;
    write_head(head, &mut w)?;
    w.opaque(user)?;
    M::write(call, &mut w)?;
    Octets::from_vec(w.into_vec()?)
}

/// The one spelling of a call.
pub fn encode_call<M: Messages>(
    alloc: Global,
    head: &Head,
    user: &[u8],
    call: &M::Message,
) -> Mem<Octets>
    requires user { length user.now ≤ user_limit }
    requires row { IsWithin M.table call.now }
    ensures spelled { IfOk result (λ bytes. bytes ≡ spelled_call M.table head.now user.now call.now) }
    // Under a header of its own it is the call, and `decode_call` gives it back.
    ensures spells { IsHeadFor halves.Call (M.table.row call.now).opcode head.now → IfOk result (SpellsCall M.table head.now user.now call.now) }
{
    let bytes = spell_call::<M>(alloc, head, user, call)?;
    Ok(bytes)
}
