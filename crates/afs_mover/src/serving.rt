//! The calls that an administrator gets. It serves none: the pair rules say whether the call gets an answer, and that is always the same.

ghost use Rattle.std.specs.Prelude.{◌≡◌, ◌∷◌, [], IfOk, OnErr, OnOk};
ghost use Rattle.afs_call.specs.Admitting.{means};
ghost use Rattle.spec_model.specs.Calls.{admitted, call_seated, runs};
ghost use Rattle.spec_model.specs.Heads.{IsSoundHead};
ghost use Rattle.spec_rows.specs.ServerRow.{boot_told, not_served, refusal, seat_for};
ghost use Rattle.spec_adminrows.specs.AdminRow.{admits, serves_not, told};
ghost use Rattle.afs_calling.specs.Stepping.{Takes};

use crate::node::Mover;
use afs_call::Admit;
use afs_calling::messages::{boot_told, outs_with, quiet, replied};
use afs_message::spelled::SpelledMessage;
use afs_num::messages::Carried;
use afs_num::types::{Code, Head, Mem};
use spec_history::lines::{Lines, Outs};

/// No such call is served here (RXGEN_OPCODE of the Rx protocol).
const NOT_SERVED: Code = Code(-455);

impl Mover {
    /// Nothing is told, and nothing is sent.
    pub(crate) fn ignore(&self) -> Mem<Outs>
        ensures { Takes (λ place. told self.now.state place []) self.now self.now result }
    {
        Ok(quiet(self.alloc, Lines::new(self.alloc)))
    }

    /// A message is sent, and nothing else is done.
    fn tell(&self, message: SpelledMessage) -> Mem<Outs>
        ensures { Takes (λ place. told self.now.state place (message ∷ [])) self.now self.now result }
    {
        outs_with(self.alloc, Lines::new(self.alloc), message)
    }

    /// A kept reply is sent again.
    fn tell_again(&self, reply: &SpelledMessage) -> Mem<Outs>
        ensures { Takes (λ place. told self.now.state place (reply.now ∷ [])) self.now self.now result }
    {
        let reply = reply.copy(self.alloc)?;
        self.tell(reply)
    }

    /// The caller is told this administrator's boot number, which is its epoch.
    fn tell_boot(&self, head: &Head) -> Mem<Outs>
        requires { IsSoundHead head.now }
        ensures { Takes (λ place. told self.now.state place (boot_told self.now.state.epoch head.now ∷ [])) self.now self.now result }
    {
        let notice = boot_told(self.callers.boot(), head);
        let notice = SpelledMessage::from_message(self.alloc, notice)?;
        self.tell(notice)
    }

    /// The refusal of a call.
    fn refusal(&self, head: &Head) -> Mem<SpelledMessage>
        requires { IsSoundHead head.now }
        ensures { IfOk result (λ m. m ≡ refusal self.now.state.epoch head.now not_served) }
    {
        let refusal = Carried::Refusal { code: NOT_SERVED };
        let reply = replied(self.callers.boot(), head, refusal);
        SpelledMessage::from_message(self.alloc, reply)
    }

    /// A reply is kept for its caller.
    fn keep_reply(&mut self, head: &Head, reply: SpelledMessage) -> Mem<()>
        requires runs { admitted self.old.state.epoch self.old.state.seats head.now ≡ runs }
        ensures ok { OnOk result (self.new ≡ record self.old { state = record self.old.state { seats = call_seated (seat_for head.now reply) self.old.state.seats } }) }
        ensures err { OnErr result (self.new ≡ self.old) }
    {
        self.callers.keep(head, reply)?;
        Ok(())
    }

    /// A call is refused, and the refusal is kept for its caller.
    fn refuse_call(&mut self, head: &Head) -> Mem<Outs>
        requires runs { admitted self.old.state.epoch self.old.state.seats head.now ≡ runs }
        requires head { IsSoundHead head.now }
        ensures { Takes (λ place. serves_not self.old.state place head.now (refusal self.old.state.epoch head.now not_served)) self.old self.new result }
    {
        let reply = self.refusal(head)?;
        let outs = self.tell_again(&reply)?;
        self.keep_reply(head, reply)?;
        Ok(outs)
    }

    /// What becomes of a call with this header.
    fn admit(&self, head: &Head) -> Admit<'_, SpelledMessage>
        ensures { means result ≡ admitted self.now.state.epoch self.now.state.seats head.now }
    {
        self.callers.admit(head)
    }

    /// A call. One in progress, or older than its caller's last one, gets no answer.
    pub(crate) fn called(&mut self, head: &Head) -> Mem<Outs>
        requires { IsSoundHead head.now }
        ensures { Takes (λ place. admits self.old.state place head.now (admitted self.old.state.epoch self.old.state.seats head.now)) self.old self.new result }
    {
        match self.admit(head) {
            Admit::Run => self.refuse_call(head),
            Admit::Kept(reply) => self.tell_again(reply),
            Admit::InProgress => self.ignore(),
            Admit::Old => self.ignore(),
            Admit::WrongBoot(_) => self.tell_boot(head),
        }
    }
}
