//! What a volume server's replies say.

ghost use Rattle.std.specs.Prelude.{◌≡◌, ℕ, IfOk};
ghost use Rattle.afs_num.specs.declared.types.Head as heads;
ghost use Rattle.spec_model.specs.Heads.{IsSoundHead};
ghost use Rattle.spec_volrows.specs.VolSteps.{forward_reply, vol_reply};
ghost use Rattle.spec_rows.specs.ServerRow.{refusal};
ghost use Rattle.afs_voldecisions.specs.Replies.{answer_message, CanAnswer};

use afs_callees::replies::refusal;
use afs_message::spelled::SpelledMessage;
use afs_num::messages::{Carried, Message, Reply};
use afs_num::types::{Head, Mem};
use afs_num::volume_calls::VolReply;
use std::alloc::Global;

/// What a call is answered: it is refused with this code, or told this.
#[derive(Drop)]
pub enum Answer {
    Refused(i32),
    Told(VolReply),
}

/// A reply of the volume server's interface.
fn reply(boot: u32, head: &Head, told: VolReply) -> Message
    ensures { result ≡ vol_reply boot head.now told }
{
    Message {
        head: refusal(boot, head, 0).head,
        carried: Carried::Reply {
            reply: Reply::Volume(told),
        },
    }
}

/// The message of an answer.
fn message(boot: u32, head: &Head, answer: Answer) -> Message
    ensures { result ≡ answer_message boot head.now answer }
{
    match answer {
        Answer::Refused(code) => refusal(boot, head, code),
        Answer::Told(told) => reply(boot, head, told),
    }
}

/// The answer to the call of this header, in its spelling.
pub fn answered(alloc: Global, boot: u32, head: &Head, answer: Answer) -> Mem<SpelledMessage>
    requires head { IsSoundHead head.now }
    requires can { CanAnswer head.now.opcode answer }
    ensures { IfOk result (λ m. m ≡ answer_message boot head.now answer) }
{
    let message = message(boot, head, answer);
    SpelledMessage::from_message(alloc, message)
}

/// The answer to a Forward that has ended with this code.
pub fn forwarded(code: i32) -> Answer
    ensures message { (boot : ℕ) (head : heads.Head) → answer_message boot head result ≡ forward_reply boot head code }
    ensures can { CanAnswer 103 result }
{
    if code == 0 {
        Answer::Told(VolReply::Forward)
    } else {
        Answer::Refused(code)
    }
}
