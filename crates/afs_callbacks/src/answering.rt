//! What comes of answers to calls that change nothing on the disk.

ghost use Rattle.std.specs.Prelude.{◌≡◌, [], false, IfOk, OnOk};
ghost use Rattle.spec_model.specs.Heads.{is_zero, IsSoundHead};
ghost use Rattle.spec_breaks.specs.Promises.{expired, lasting_breaks, Lists};
ghost use Rattle.spec_rows.specs.Callbacks.{gives_up_all, held_under, key_answered, repeats_by};
ghost use Rattle.spec_rows.specs.ServerRow.{boot_told, given_up_read, read_reply_to, refusal};
ghost use Rattle.afs_server_parts.specs.Ending.{IsPlanOf};
ghost use Rattle.afs_server_parts.specs.Turning.{IsFresh, IsReady, answer_turn, sent_turn, Goes};
ghost use Rattle.afs_callbacks.specs.Answering.{reply_told, IsAnswer, IsRepliedNow, CanTell};
ghost use Rattle.afs_callbacks.specs.States.{backs_by, IsToNodes};

use crate::callbacks::Callbacks;
use afs_callees::replies::{notice, promised, refusal, reply};
use afs_message::spelled::SpelledMessage;
use afs_num::calls::FsReply;
use afs_num::sequences::{Octets, Sequence};
use afs_num::types::{Fid, Head, Mem, Node};
use afs_promise::Promises;
use afs_server_parts::ending::Ended;
use afs_server_parts::turns::{Stand, Turn};
use std::alloc::Global;

/// What comes of a reply to a call that ran: what the step gives out and leaves in memory, and the reply's bytes.
#[derive(Drop)]
pub struct Replied {
    pub ended: Ended,
    pub kept: Octets,
}

/// The node gives up its promises on these fids.
fn give_up_all(promises: &mut Promises, node: Node, fids: &[Fid])
    ensures { promises.new ≡ gives_up_all node fids.now promises.old }
{
    for fid in fids {
        promises.give_up(node, *fid);
    }
}

/// The reply to the call of this header, which is told this, with a promise where it has a place for one.
pub(crate) fn reply_told(
    alloc: Global,
    boot: u32,
    head: &Head,
    told: FsReply,
    expiry: u32,
) -> Mem<SpelledMessage>
    requires { CanTell head.now told }
    ensures { IfOk result (λ m. m ≡ reply_told boot head.now expiry told) }
{
    let told = promised(alloc, told, expiry)?;
    let message = reply(boot, head, told);
    let spelled = SpelledMessage::from_message(alloc, message)?;
    Ok(spelled)
}

/// A reply goes out at once.
fn answer_now(alloc: Global, turn: &mut Turn, reply: SpelledMessage) -> Mem<()>
    requires fresh { IsFresh turn.old }
    ensures { Goes (λ s. answer_turn reply [] false) turn.old turn.new result }
{
    turn.answer(reply, Sequence::new(alloc), false)?;
    Ok(())
}

impl Callbacks {
    /// What comes of it that a caller is told this server's boot number.
    pub fn plan_boot_told(&self, stand: Stand, head: &Head, now: u32) -> Mem<Ended>
        requires nodes { IsToNodes stand.node self.now }
        requires head { IsSoundHead head.now }
        ensures { IfOk result (IsPlanOf stand (sent_turn (boot_told stand.boot head.now) (backs_by self.now stand now))) }
    {
        let message = notice(stand.boot, head);
        let told = SpelledMessage::from_message(self.alloc, message)?;
        let mut turn = self.turn(stand, now)?;
        turn.send(told)?;
        let ended = turn.end(self.alloc)?;
        Ok(ended)
    }

    /// What comes of it that a kept reply is asked again.
    pub fn plan_repeated(
        &self,
        stand: Stand,
        reply: SpelledMessage,
        good: bool,
        now: u32,
    ) -> Mem<Ended>
        requires { IsToNodes stand.node self.now }
        ensures { IfOk result (IsPlanOf stand (repeats_by (backs_by self.now stand now) reply (held_under (key_answered reply) self.now.held) good)) }
    {
        let mut turn = self.turn(stand, now)?;
        turn.repeat(self.alloc, reply, good)?;
        let ended = turn.end(self.alloc)?;
        Ok(ended)
    }

    /// What comes of it that a reply goes out at once.
    fn plan_answer(&self, stand: Stand, reply: SpelledMessage, now: u32) -> Mem<Ended>
        requires { IsToNodes stand.node self.now }
        ensures { IfOk result (IsAnswer stand self.now reply (lasting_breaks now self.now.lists.owed) [] []) }
    {
        let mut turn = self.turn(stand, now)?;
        answer_now(self.alloc, &mut turn, reply)?;
        let ended = turn.end(self.alloc)?;
        Ok(ended)
    }

    /// What comes of a reply to a call that ran, in its spelling. It goes out at once, and its bytes are to be kept.
    pub(crate) fn plan_spelled(&self, stand: Stand, reply: SpelledMessage, now: u32) -> Mem<Replied>
        requires { IsToNodes stand.node self.now }
        ensures { IfOk result (λ r. IsRepliedNow stand self.now now reply [] r.ended r.kept) }
    {
        let kept = reply.bytes().copy(self.alloc)?;
        let ended = self.plan_answer(stand, reply, now)?;
        Ok(Replied { ended, kept })
    }

    /// What comes of it that a call that runs is refused with this code.
    pub fn plan_refused(&self, stand: Stand, head: &Head, code: i32, now: u32) -> Mem<Replied>
        requires nodes { IsToNodes stand.node self.now }
        requires head { IsSoundHead head.now }
        requires code { is_zero code ≡ false }
        ensures { IfOk result (λ r. IsRepliedNow stand self.now now (refusal stand.boot head.now code) [] r.ended r.kept) }
    {
        let message = refusal(stand.boot, head, code);
        let reply = SpelledMessage::from_message(self.alloc, message)?;
        let replied = self.plan_spelled(stand, reply, now)?;
        Ok(replied)
    }

    /// What comes of it that a caller gives up promises.
    pub fn plan_given_up(&self, stand: Stand, head: &Head, now: u32) -> Mem<Replied>
        requires nodes { IsToNodes stand.node self.now }
        requires head { IsSoundHead head.now }
        requires opcode { head.now.opcode ≡ 147 }
        ensures { IfOk result (λ r. IsRepliedNow stand self.now now (read_reply_to stand.boot head.now 0 (given_up_read [])) [] r.ended r.kept) }
    {
        let message = reply(stand.boot, head, FsReply::GiveUpCallBacks);
        let told = SpelledMessage::from_message(self.alloc, message)?;
        let replied = self.plan_spelled(stand, told, now)?;
        Ok(replied)
    }

    /// The node gives up its promises on these fids, once promises and breaks have ended whose time has come. It takes no memory.
    pub fn give_up(&mut self, node: Node, fids: &[Fid], now: u32)
        ensures { self.new ≡ record self.old { lists = gives_up_all node fids.now (expired now self.old.lists) } }
    {
        self.promises.expire(now);
        give_up_all(&mut self.promises, node, fids);
    }
}
