//! What stands before the fields of each record.

ghost use Rattle.std.specs.Prelude.{◌≡◌, ◌++◌, OnOk};
ghost use Rattle.spec_records.specs.Records.{caller_form, caller_number, head_form, may_call, tells_call};
ghost use Rattle.afs_record.specs.Reading.{ReadsForm};

use crate::faults::RecordFault;
use crate::forms::read_text;
use afs_num::records::RecordHead;
use afs_num::types::{Mem, Node};
use afs_xdr::reading::Reader;
use afs_xdr::writing::Writer;
use std::alloc::Global;

/// Any word counts the bytes of a kept reply.
const MOST_REPLY: u32 = 4_294_967_295;

/// The kind of a start's record.
const START: u32 = 3;

/// The number of a caller whose reply is kept, or 0.
fn caller_number(caller: Option<Node>) -> u32
    requires { caller_form.Fits caller }
    ensures { result ≡ caller_number caller }
{
    match caller {
        Some(node) => node.number(),
        None => 0,
    }
}

/// Reads the caller whose reply is kept.
fn read_caller(r: &mut Reader) -> Result<Option<Node>, RecordFault>
    ensures { ReadsForm caller_form.at (λ c. c) r.old r.new result }
{
    match r.word()? {
        0 => Ok(None),
        number => match Node::from_number(number) {
            Some(node) => Ok(Some(node)),
            None => Err(RecordFault::NoForm),
        },
    }
}

/// Tells whether these are of a call whose reply is kept, or all 0 and empty where none is.
fn tells_call(caller: Option<Node>, epoch: u32, number: u32, reply: &[u8]) -> bool
    ensures { result ≡ tells_call caller epoch number reply.now }
{
    caller.is_some() || epoch == 0 && number == 0 && reply.is_empty()
}

/// Reads a head.
#[tactic(auto, unfolding(spec_records::specs::Records::head_form))]
pub fn read_head(alloc: Global, r: &mut Reader) -> Result<RecordHead, RecordFault>
    ensures { ReadsForm head_form.at (λ h. h) r.old r.new result }
{
    let family = r.word()?;
    let stamp = r.word()?;
    let caller = read_caller(r)?;
    let epoch = r.word()?;
    let number = r.word()?;
    let reply = read_text(alloc, r, MOST_REPLY)?;
    if !tells_call(caller, epoch, number, reply.as_slice()) {
        return Err(RecordFault::NoForm);
    }
    Ok(RecordHead {
        family,
        stamp,
        caller,
        epoch,
        number,
        reply,
    })
}

/// Tells whether a record of this kind may have this caller: nobody calls for a start.
pub fn may_call(number: u32, caller: Option<Node>) -> bool
    ensures { result ≡ may_call number caller }
{
    number != START || caller.is_none()
}

/// Appends a head.
#[tactic(auto, unfolding(spec_records::specs::Records::head_form))]
pub fn write_head(head: &RecordHead, w: &mut Writer) -> Mem<()>
    requires { head_form.Fits head.now }
    ensures { OnOk result (w.new ≡ w.old ++ head_form.spelled head.now) }
{
    w.words(&[
        head.family,
        head.stamp,
        caller_number(head.caller),
        head.epoch,
        head.number,
    ])?;
    w.opaque(head.reply.as_slice())
}
