//! What a step gives out.

ghost use Rattle.std.specs.Prelude.{◌≡◌, [], ◌∷◌, IfOk, OnOk};
ghost use Rattle.spec_model.specs.Messages.{FitsMessage, HasSpelling, messages_spelled, parcels_read, received, spelled};
ghost use Rattle.afs_num.specs.declared.messages.Received.TheVariants.{Whole};
ghost use Rattle.spec_rows.specs.ServerRow.{boot_told, replied};
ghost use Rattle.afs_calling.specs.Calls.{calling};

use afs_message::cell::CellCalls;
use afs_message::spelled::SpelledMessage;
use afs_num::messages::{Call, Carried, Message};
use afs_num::sequences::{Octets, Sequence};
use afs_num::types::{Half, Head, Mem, Parcel};
use afs_rpc::calls::spell_call;
use spec_history::lines::{Lines, Outs};
use std::alloc::Global;

fn outs_of(alloc: Global, lines: Lines, head: Head, bytes: Octets) -> Mem<Outs>
    ensures lines { IfOk result (λ o. o.lines ≡ lines) }
    ensures sent { IfOk result (λ o. o.parcels ≡ record { head = head; bytes = bytes } ∷ []) }
{
    let mut parcels = Sequence::new(alloc);
    parcels.push(Parcel { head, bytes })?;
    Ok(Outs { parcels, lines })
}

/// What a step gives out that sends this one message.
pub fn outs_with(alloc: Global, lines: Lines, message: SpelledMessage) -> Mem<Outs>
    ensures lines { IfOk result (λ o. o.lines ≡ lines) }
    ensures sent { IfOk result (λ o. parcels_read o.parcels ≡ messages_spelled (message ∷ [])) }
{
    let mut parcels = Sequence::new(alloc);
    parcels.push(message.into_parcel())?;
    Ok(Outs { parcels, lines })
}

#[tactic(auto, unfolding(spec_model::specs::Messages::spelled))]
fn spell(alloc: Global, head: &Head, user: &[u8], call: &Call) -> Mem<Octets>
    requires { HasSpelling (calling head.now user.now call.now) }
    ensures spelled { IfOk result (λ bytes. bytes ≡ spelled (calling head.now user.now call.now)) }
    ensures fits { OnOk result (FitsMessage (calling head.now user.now call.now)) }
{
    spell_call::<CellCalls>(alloc, head, user, call)
}

/// The one spelling of a call, which is read as that call.
fn encode_call(alloc: Global, head: &Head, user: &[u8], call: &Call) -> Mem<Octets>
    requires { HasSpelling (calling head.now user.now call.now) }
    ensures spelled { IfOk result (λ bytes. bytes ≡ spelled (calling head.now user.now call.now)) }
    ensures read { IfOk result (λ bytes. received bytes ≡ Whole (calling head.now user.now call.now)) }
{
    let bytes = spell(alloc, head, user, call)?;
    Ok(bytes)
}

/// What a step gives out that sends this call.
pub fn outs_calling(alloc: Global, lines: Lines, head: &Head, user: &[u8], call: &Call) -> Mem<Outs>
    requires { HasSpelling (calling head.now user.now call.now) }
    ensures lines { IfOk result (λ o. o.lines ≡ lines) }
    ensures sent { IfOk result (λ o. parcels_read o.parcels ≡ messages_spelled (calling head.now user.now call.now ∷ [])) }
{
    let bytes = encode_call(alloc, head, user, call)?;
    outs_of(alloc, lines, *head, bytes)
}

/// What a step gives out that sends nothing.
pub fn quiet(alloc: Global, lines: Lines) -> Outs
    ensures lines { result.lines ≡ lines }
    ensures sent { result.parcels ≡ [] }
{
    Outs {
        parcels: Sequence::new(alloc),
        lines,
    }
}

/// The reply to a call.
pub fn replied(boot: u32, head: &Head, carried: Carried) -> Message
    ensures { result ≡ replied boot head.now carried }
{
    Message {
        head: Head {
            half: Half::Reply,
            from: head.to,
            to: head.from,
            epoch: head.epoch,
            number: head.number,
            boot,
            stamp: 0,
            opcode: head.opcode,
        },
        carried,
    }
}

/// The notice of a node's boot number to its caller.
pub fn boot_told(boot: u32, head: &Head) -> Message
    ensures { result ≡ boot_told boot head.now }
{
    let mut notice = replied(boot, head, Carried::Notice);
    notice.head.half = Half::Boot;
    notice
}
