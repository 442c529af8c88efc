//! Whole messages.

ghost use Rattle.std.specs.Prelude.{◌≡◌, [], IfOk, OnOk};
ghost use Rattle.afs_num.specs.declared.messages.Received.TheVariants.{Whole};
ghost use Rattle.afs_xdr.specs.Words.{AreWords};
ghost use Rattle.spec_shape.specs.Reading.{fields_to_end_at};
ghost use Rattle.spec_model.specs.Heads.{head_words};
ghost use Rattle.spec_model.specs.Rpc.{replied_at};
ghost use Rattle.spec_model.specs.CellRows.{cell_calls, cell_replies};
ghost use Rattle.spec_model.specs.Messages.{called_at, received_reply, received_notice, read_body, received_by, received, spelled, IsSoundReceived, HasSpelling, FitsMessage};

use crate::cell::{CellCalls, CellReplies};
use afs_num::messages::{Carried, Message, Received};
use afs_num::sequences::Octets;
use afs_num::types::{Code, Half, Head, Mem};
use afs_rpc::calls::{read_asked, spell_call};
use afs_rpc::heads::{head_of, write_head};
use afs_rpc::replies::{no_fields, read_replied, spell_reply};
use afs_xdr::reading::Reader;
use afs_xdr::writing::Writer;
use spec_shape::faults::ShapeFault;
use std::alloc::{AllocError, Global};

fn whole(head: Head, carried: Carried) -> Received
    ensures { result ≡ Whole (record { head = head; carried = carried }) }
{
    Received::Whole {
        message: Message { head, carried },
    }
}

/// A call of these, or why there is none. What isn't among them is told by its header, and no more of it is read.
fn receive_call(alloc: Global, served: &[u32], r: &mut Reader, head: Head) -> Mem<Received>
    ensures { IfOk result (λ x. x ≡ called_at served.now head r.old.left) }
{
    if !served.contains(&head.opcode) {
        return Ok(Received::Unserved { head });
    }
    match read_asked::<CellCalls>(alloc, head.opcode, r) {
        Ok((user, call)) => Ok(whole(head, Carried::Call { user, call })),
        Err(ShapeFault::OutOfMemory) => Err(AllocError),
        Err(_) => Ok(Received::Unreadable { head }),
    }
}

/// A reply, where there is one.
fn receive_reply(alloc: Global, r: &mut Reader, head: Head) -> Mem<Received>
    ensures { IfOk result (λ x. x ≡ received_reply head (replied_at cell_replies head.opcode r.old.left)) }
{
    match read_replied::<CellReplies>(alloc, head.opcode, r) {
        Ok((_, Some(reply))) => Ok(whole(head, Carried::Reply { reply })),
        Ok((code, None)) => Ok(whole(head, Carried::Refusal { code })),
        Err(ShapeFault::OutOfMemory) => Err(AllocError),
        Err(_) => Ok(Received::Nothing),
    }
}

/// A boot notice, where there is one.
fn receive_notice(alloc: Global, r: &Reader, head: Head) -> Mem<Received>
    ensures { IfOk result (λ x. x ≡ received_notice head (fields_to_end_at [] r.now.left)) }
{
    match no_fields(alloc, r) {
        Ok(_) => Ok(whole(head, Carried::Notice)),
        Err(ShapeFault::OutOfMemory) => Err(AllocError),
        Err(_) => Ok(Received::Nothing),
    }
}

fn receive_body(alloc: Global, served: &[u32], r: &mut Reader, head: Head) -> Mem<Received>
    ensures { IfOk result (λ x. x ≡ read_body served.now head head.half r.old.left) }
{
    match head.half {
        Half::Call => receive_call(alloc, served, r, head),
        Half::Reply => receive_reply(alloc, r, head),
        Half::Boot => receive_notice(alloc, r, head),
    }
}

/// What is read in these bytes.
#[tactic(auto, unfolding(spec_model::specs::Messages::received_by))]
fn receive(alloc: Global, served: &[u32], bytes: &[u8]) -> Mem<Received>
    ensures { IfOk result (λ x. x ≡ received_by served.now bytes.now) }
{
    let mut r = Reader::new(bytes);
    match head_of(&mut r) {
        Ok(head) => receive_body(alloc, served, &mut r, head),
        Err(_) => Ok(Received::Nothing),
    }
}

/// What a node finds in these bytes that serves calls of these opcodes: a message, a call that it doesn't serve, one
/// whose user or fields can't be read, or nothing.
pub fn read_message(alloc: Global, served: &[u32], bytes: &[u8]) -> Mem<Received>
    ensures value { IfOk result (λ x. x ≡ received_by served.now bytes.now) }
    ensures sound { IfOk result IsSoundReceived }
{
    receive(alloc, served, bytes)
}

/// A boot notice: its header alone.
#[tactic(auto, unfolding(spec_model::specs::Messages::spelled))]
fn encode_notice(alloc: Global, head: &Head) -> Mem<Octets>
    ensures spelled { IfOk result (λ bytes. bytes ≡ spelled (record { head = head.now; carried = Carried.Notice })) }
    ensures fits { AreWords (head_words head.now) }
{
    let mut w = Writer::new(alloc);
    write_head(head, &mut w)?;
    let bytes = w.into_vec()?;
    Octets::from_vec(bytes)
}

#[tactic(auto, unfolding(spec_model::specs::Messages::spelled))]
fn encode(alloc: Global, message: &Message) -> Mem<Octets>
    requires { HasSpelling message.now }
    ensures spelled { IfOk result (λ bytes. bytes ≡ spelled message.now) }
    ensures fits { OnOk result (FitsMessage message.now) }
{
    match &message.carried {
        Carried::Call { user, call } => {
            spell_call::<CellCalls>(alloc, &message.head, user.as_slice(), call)
        },
        Carried::Refusal { code } => spell_reply::<CellReplies>(alloc, &message.head, *code, None),
        Carried::Reply { reply } => spell_reply::<CellReplies>(
            alloc,
            &message.head,
            Code(0),
            Some(reply),
        ),
        Carried::Notice => encode_notice(alloc, &message.head),
    }
}

/// The one spelling of a message, which is read as that message.
pub fn encode_message(alloc: Global, message: &Message) -> Mem<Octets>
    requires { HasSpelling message.now }
    ensures spelled { IfOk result (λ bytes. bytes ≡ spelled message.now) }
    ensures read { IfOk result (λ bytes. received bytes ≡ Whole message.now) }
{
    let bytes = encode(alloc, message)?;
    Ok(bytes)
}
