//! A server's own calls: they bring breaks to the nodes that hold promises.

ghost use Rattle.std.specs.Prelude.{◌≡◌, ◌≤◌, ◌++◌, ◌∷◌, [], filter, length, map, IfOk, OnOk};
ghost use Rattle.afs_num.specs.Nodes.{IsNode};
ghost use Rattle.spec_rows.specs.Callbacks.{break_message, breaks_call, breaks_opcode, broken_until, break_call, carries_for, fids_of, first_breaks, is_break_for, most_breaks, opcode_for};

use crate::turns::Stand;
use afs_callees::callees::{BackCall, Callee};
use afs_callees::few::Few;
use afs_message::spelled::{Sent, SpelledMessage};
use afs_num::calls::{AfsCallBack, CallBacks, Fids, FsCall};
use afs_num::messages::{Call, Carried, Message};
use afs_num::sequences::{Octets, Sequence};
use afs_num::types::{Fid, Half, Head, Mem, Node};
use spec_breaks::types::OwedBreak;
use std::alloc::Global;

/// A call that brings breaks.
pub type BreakCall = BackCall<Few<OwedBreak>>;

/// A node to which such calls go.
pub type BreakCallee = Callee<Few<OwedBreak>>;

/// Whether it is a break on a fid for this node.
fn is_for(owed: &OwedBreak, node: Node) -> bool
    ensures { result ≡ is_break_for node owed.now }
{
    owed.client.is(&node) && owed.what.is_some()
}

/// The breaks on fids for this node.
fn all_for(alloc: Global, node: Node, owed: &[OwedBreak]) -> Mem<Vec<OwedBreak>>
    ensures { IfOk result (λ os. os.items ≡ filter (is_break_for node) owed.now) }
{
    let mut breaks = Vec::new(alloc);
    for one in owed {
        if is_for(one, node) {
            breaks.push(*one)?;
        }
    }
    Ok(breaks)
}

/// The first breaks on fids for this node: so many as one call may carry.
#[tactic(auto, using(crate::proofs::First::first_taken))]
fn first_for(alloc: Global, node: Node, owed: &[OwedBreak]) -> Mem<Sequence<OwedBreak>>
    ensures few { IfOk result (λ os. length os ≤ 50) }
    ensures value { IfOk result (λ os. os ≡ first_breaks most_breaks (filter (is_break_for node) owed.now)) }
{
    let mut breaks = all_for(alloc, node, owed)?;
    breaks.truncate(50);
    Ok(Sequence::from_vec(breaks))
}

/// What a call carries whose oldest break is this.
pub fn carried(alloc: Global, oldest: &OwedBreak, owed: &[OwedBreak]) -> Mem<Few<OwedBreak>>
    ensures few { IfOk result (λ os. length os ≤ 50) }
    ensures value { IfOk result (λ os. os ≡ carries_for oldest.now.what oldest.now owed.now) }
{
    match oldest.what {
        None => Ok(Few::one(*oldest)),
        Some(_) => {
            let breaks = first_for(alloc, oldest.client, owed)?;
            Ok(Few::of(breaks))
        }
    }
}

/// A break of a promise that would have lasted until this time.
fn broken(owed: &OwedBreak) -> AfsCallBack
    ensures { result ≡ broken_until owed.now }
{
    AfsCallBack {
        version: 1,
        expiration_time: owed.expiry,
        kind: 3,
    }
}

/// The fids of breaks.
fn fids(alloc: Global, breaks: &[OwedBreak]) -> Mem<Fids>
    ensures { IfOk result (λ fs. fs ≡ fids_of breaks.now) }
{
    let mut fids = Fids::new(alloc);
    for owed in breaks {
        if let Some(fid) = owed.what {
            fids.push(fid)?;
        }
    }
    Ok(fids)
}

fn callbacks(alloc: Global, breaks: &[OwedBreak]) -> Mem<CallBacks>
    ensures { IfOk result (λ cs. cs ≡ map broken_until breaks.now) }
{
    let mut callbacks = CallBacks::new(alloc);
    for owed in breaks {
        callbacks.push(broken(owed))?;
    }
    Ok(callbacks)
}

/// The call that carries these breaks, of which the first is on this fid, or on all.
fn call_for(alloc: Global, what: Option<Fid>, breaks: &[OwedBreak]) -> Mem<FsCall>
    ensures { IfOk result (λ c. c ≡ break_call what breaks.now) }
{
    match what {
        None => Ok(FsCall::InitCallBackState),
        Some(_) => Ok(FsCall::CallBack {
            fids: fids(alloc, breaks)?,
            callbacks: callbacks(alloc, breaks)?,
        }),
    }
}

fn breaks_call(alloc: Global, breaks: &[OwedBreak]) -> Mem<FsCall>
    ensures { IfOk result (λ c. c ≡ breaks_call breaks.now) }
{
    match breaks {
        [] => Ok(FsCall::CallBack {
            fids: Fids::new(alloc),
            callbacks: CallBacks::new(alloc),
        }),
        [owed, ..] => call_for(alloc, owed.what, breaks),
    }
}

fn opcode_for(what: Option<Fid>) -> u32
    ensures { result ≡ opcode_for what }
{
    match what {
        None => 205,
        Some(_) => 204,
    }
}

/// The opcode of the call that carries these breaks.
pub fn breaks_opcode(breaks: &[OwedBreak]) -> u32
    ensures { result ≡ breaks_opcode breaks.now }
{
    match breaks {
        [] => 204,
        [owed, ..] => opcode_for(owed.what),
    }
}

/// The message of a call to a node of which this boot number is known.
fn call_message(
    alloc: Global,
    stand: Stand,
    callee: Node,
    known: u32,
    call: &BreakCall,
) -> Mem<Message>
    ensures { IfOk result (λ m. m ≡ break_message stand.node stand.boot callee known call.now) }
{
    let breaks = call.content.as_slice();
    Ok(Message {
        head: Head {
            half: Half::Call,
            from: stand.node,
            to: callee,
            epoch: stand.boot,
            number: call.number,
            boot: known,
            stamp: 0,
            opcode: breaks_opcode(breaks),
        },
        carried: Carried::Call {
            user: Octets::new(alloc),
            call: Call::File(breaks_call(alloc, breaks)?),
        },
    })
}

/// The message of a call, in its spelling.
fn spell_call(
    alloc: Global,
    stand: Stand,
    callee: Node,
    known: u32,
    call: &BreakCall,
) -> Mem<SpelledMessage>
    requires stands { IsNode stand.node }
    requires callee { IsNode callee }
    requires few { length call.now.content ≤ 50 }
    ensures { IfOk result (λ m. m ≡ break_message stand.node stand.boot callee known call.now) }
{
    let message = call_message(alloc, stand, callee, known, call)?;
    SpelledMessage::from_message(alloc, message)
}

/// A call goes out to a node of which this boot number is known.
pub(crate) fn send_call(
    alloc: Global,
    stand: Stand,
    callee: Node,
    known: u32,
    call: &BreakCall,
    sent: &mut Sent,
) -> Mem<()>
    requires stands { IsNode stand.node }
    requires callee { IsNode callee }
    requires few { length call.now.content ≤ 50 }
    ensures { OnOk result (sent.new ≡ sent.old ++ break_message stand.node stand.boot callee known call.now ∷ []) }
{
    let message = spell_call(alloc, stand, callee, known, call)?;
    sent.push(message)?;
    Ok(())
}
