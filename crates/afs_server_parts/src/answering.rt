//! What a step answers to the message that it was given.

ghost use Rattle.std.specs.Prelude.{◌≡◌, IfNone, IfOk};
ghost use Rattle.std.specs.List.{All};
ghost use Rattle.std.specs.Option.{option_copied};
ghost use Rattle.afs_num.specs.declared.types.Node.{Node};
ghost use Rattle.spec_breaks.specs.Promises.{Lists};
ghost use Rattle.spec_rows.specs.Callbacks.{alls, held_under, is_reply_to, key_answered, repeats_by};
ghost use Rattle.afs_server_parts.specs.Turning.{waits_again, backs_with, IsFresh, IsReady, IsTurn, Goes, answer_turn, sent_turn, sent_turns};

use crate::held::{HeldReply, copy_numbers};
use crate::owed::alls;
use crate::turns::Turn;
use afs_message::spelled::{Sent, SpelledMessage};
use afs_num::sequences::Sequence;
use afs_num::types::{Head, Key, Mem};
use std::alloc::Global;

/// The call that a reply of this header answers.
pub fn key_answered(head: &Head) -> Key
    ensures { result ≡ record { node = head.now.to; epoch = head.now.epoch; number = head.now.number } }
{
    Key {
        node: head.to,
        epoch: head.epoch,
        number: head.number,
    }
}

/// Whether the reply answers this call.
fn is_reply_to(key: &Key, reply: &SpelledMessage) -> bool
    ensures { result ≡ is_reply_to key.now reply.now }
{
    let head = reply.head();
    head.to.is(&key.node) && (head.epoch == key.epoch && head.number == key.number)
}

/// The first of the replies that answers this call.
pub fn held_under<'a>(key: &Key, replies: &'a [HeldReply]) -> Option<&'a HeldReply>
    ensures { option_copied result ≡ held_under key.now replies.entry.now }
{
    for one in replies {
        if is_reply_to(key, &one.reply) {
            return Some(one);
        }
    }
    None
}

impl Turn {
    /// A message goes out.
    pub fn send(&mut self, message: SpelledMessage) -> Mem<()>
        requires fresh { IsFresh self.old }
        ensures { Goes (λ s. sent_turn message) self.old self.new result }
    {
        self.calls.sent.push(message)?;
        Ok(())
    }

    /// These messages go out. It takes no memory.
    pub fn send_all(&mut self, messages: Sent)
        requires fresh { IsFresh self.old }
        ensures turn { (l : Lists) → l.owed ≡ self.old.owed.items → IsTurn (sent_turns messages (backs_with l self.old.held self.old.calls)) self.new }
        ensures stand { self.new.stand ≡ self.old.stand }
        ensures ready { IsReady self.old → IsReady self.new }
    {
        self.calls.sent = messages;
    }

    /// A reply goes out, now or once the breaks of these numbers have ended.
    pub fn answer(&mut self, reply: SpelledMessage, waits: Sequence<u32>, again: bool) -> Mem<()>
        requires fresh { IsFresh self.old }
        ensures { Goes (λ s. answer_turn reply waits again) self.old self.new result }
    {
        self.outs.push(HeldReply {
            reply,
            waits,
            again,
        })?;
        Ok(())
    }

    /// For which breaks a kept reply waits that is asked again, if it is given at all: `good` where its call changed
    /// something.
    fn waits_again(
        &self,
        alloc: Global,
        reply: &SpelledMessage,
        good: bool,
    ) -> Mem<Option<Sequence<u32>>>
        ensures { IfOk result (λ w. w ≡ waits_again self.now.owed.items (held_under (key_answered reply.now) self.now.held) good) }
    {
        match held_under(&key_answered(reply.head()), self.held.as_slice()) {
            Some(held) => {
                if held.again && held.is_ready(&self.owed) {
                    Ok(Some(copy_numbers(alloc, held.waits.as_slice())?))
                } else {
                    Ok(None)
                }
            }
            None => {
                if good {
                    Ok(Some(alls(alloc, &self.owed)?))
                } else {
                    Ok(Some(Sequence::new(alloc)))
                }
            }
        }
    }

    /// A kept reply is asked again; `good` where its call changed something.
    pub fn repeat(&mut self, alloc: Global, reply: SpelledMessage, good: bool) -> Mem<()>
        requires fresh { IsFresh self.old }
        ensures { Goes (λ s b. repeats_by b reply (held_under (key_answered reply) b.held) good) self.old self.new result }
    {
        match self.waits_again(alloc, &reply, good)? {
            Some(waits) => self.answer(reply, waits, true)?,
            None => {}
        }
        Ok(())
    }
}
