//! Replies that wait until breaks have ended.

ghost use Rattle.std.specs.Prelude.{◌≡◌, ◌++◌, [], ◌∷◌, filter, not, IfOk, OnOk};
ghost use Rattle.std.specs.List.{list_any};
ghost use Rattle.spec_rows.specs.Callbacks.{is_ready, replies_of, waits_none};
ghost use Rattle.spec_rows.specs.States.{Held};

use crate::owed::has_break;
use afs_message::spelled::{Sent, SpelledMessage};
use afs_num::sequences::Sequence;
use afs_num::types::Mem;
use spec_breaks::types::OwedBreak;
use std::alloc::Global;
use std::marker::Model;

/// A reply, the numbers of the breaks for which it waits, and whether it is a kept reply that was asked again.
#[derive(Drop)]
pub struct HeldReply {
    pub reply: SpelledMessage,
    pub waits: Sequence<u32>,
    pub again: bool,
}

impl Model for HeldReply {
    ghost use Rattle.spec_rows.specs.States.{Held};

    ghost Value = { Held };

    ghost view = { λ h. record { reply = h.reply; waits = h.waits; again = h.again } };
}

pub fn copy_numbers(alloc: Global, numbers: &[u32]) -> Mem<Sequence<u32>>
    ensures { IfOk result (λ ns. ns ≡ numbers.now) }
{
    Ok(Sequence::from_vec(Vec::from_slice(alloc, numbers)?))
}

/// No break of these numbers is owed.
fn waits_none(numbers: &[u32], owed: &[OwedBreak]) -> bool
    ensures { result ≡ waits_none numbers.now owed.now }
{
    for number in numbers {
        if has_break(*number, owed) {
            return false;
        }
    }
    true
}

impl HeldReply {
    fn copy(&self, alloc: Global) -> Mem<HeldReply>
        ensures { IfOk result (λ h. h ≡ self.now) }
    {
        Ok(HeldReply {
            reply: self.reply.copy(alloc)?,
            waits: copy_numbers(alloc, self.waits.as_slice())?,
            again: self.again,
        })
    }

    fn into_reply(self) -> SpelledMessage
        ensures { result ≡ self.reply }
    {
        let HeldReply { reply, .. } = self;
        reply
    }

    /// Whether it waits no more where these breaks are owed.
    pub fn is_ready(&self, owed: &[OwedBreak]) -> bool
        ensures { result ≡ is_ready owed.now self.now }
    {
        waits_none(self.waits.as_slice(), owed)
    }
}

/// Copies of replies.
pub fn copy_replies(alloc: Global, replies: &[HeldReply]) -> Mem<Sequence<HeldReply>>
    ensures { IfOk result (λ hs. hs ≡ replies.now) }
{
    let mut copies = Sequence::new(alloc);
    for one in replies {
        copies.push(one.copy(alloc)?)?;
    }
    Ok(copies)
}

/// Sends a reply, where it waits no more; else it is held.
fn send_or_hold(
    sent: &mut Sent,
    held: &mut Sequence<HeldReply>,
    one: HeldReply,
    owed: &[OwedBreak],
) -> Mem<()>
    ensures sent { OnOk result (sent.new ≡ sent.old ++ replies_of (filter (is_ready owed.now) (one ∷ []))) }
    ensures held { OnOk result (held.new ≡ held.old ++ filter (λ (h : Held). not (is_ready owed.now h)) (one ∷ [])) }
{
    if one.is_ready(owed) {
        sent.push(one.into_reply())?;
    } else {
        held.push(one)?;
    }
    Ok(())
}

/// Sends those of the replies that wait no more; the others are held.
#[tactic(auto, using(crate::proofs::Parted::sent_next, crate::proofs::Parted::held_next))]
pub(crate) fn part_ready(
    sent: &mut Sent,
    held: &mut Sequence<HeldReply>,
    replies: Sequence<HeldReply>,
    owed: &[OwedBreak],
) -> Mem<()>
    ensures sent { OnOk result (sent.new ≡ sent.old ++ replies_of (filter (is_ready owed.now) replies)) }
    ensures held { OnOk result (held.new ≡ held.old ++ filter (λ (h : Held). not (is_ready owed.now h)) replies) }
{
    for one in replies.into_vec() {
        send_or_hold(sent, held, one, owed)?;
    }
    Ok(())
}

/// Whether one of the replies waits no more.
pub(crate) fn any_ready(replies: &[HeldReply], owed: &[OwedBreak]) -> bool
    ensures { result ≡ list_any (is_ready owed.now) replies.now }
{
    replies.iter().any(|one| one.is_ready(owed))
}

/// Holds these replies besides.
pub(crate) fn hold_all(held: &mut Sequence<HeldReply>, replies: Sequence<HeldReply>) -> Mem<()>
    ensures { OnOk result (held.new ≡ held.old ++ replies) }
{
    for one in replies.into_vec() {
        held.push(one)?;
    }
    Ok(())
}
