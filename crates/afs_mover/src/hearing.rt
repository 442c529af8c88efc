//! What answers the unanswered call.

ghost use Rattle.std.specs.Prelude.{◌≡◌, ◌<◌, IfOk, OnErr, OnOk};
ghost use Rattle.std.specs.Option.{option_copied};
ghost use Rattle.afs_num.specs.Nodes.{same_node};
ghost use Rattle.spec_model.specs.CellRows.{cell_replies};
ghost use Rattle.spec_model.specs.Heads.{IsSoundHead};
ghost use Rattle.spec_model.specs.Messages.{HasSpelling, IsSoundReceived};
ghost use Rattle.spec_shape.specs.Rows.{IsWithin};
ghost use Rattle.afs_adminparts.specs.Fitting.{FitsTurn};
ghost use Rattle.spec_adminrows.specs.Acts.{answered, refused};
ghost use Rattle.spec_adminrows.specs.AdminRow.{awaits, errand_of, gets, knows_boot, takes_in};
ghost use Rattle.afs_calling.specs.Calls.{number_limit};
ghost use Rattle.afs_calling.specs.Stepping.{Takes};
ghost use Rattle.afs_mover.specs.Steps.{asks_in, awaited_by, Behind, by_act, heard_by, IsWithinCarried, rests, turns_answered, turns_refused};

use crate::asking::Asking;
use crate::node::Mover;
use afs_adminacts::acts::{answered, refused};
use afs_calling::boots::note_boot;
use afs_calling::messages::quiet;
use afs_calling::opcodes::opcode;
use afs_num::messages::{Carried, Message, Received, Reply};
use afs_num::types::{Code, Head, Mem, Node};
use spec_adminrows::turns::Turn;
use spec_history::lines::{Lines, Outs};

impl Mover {
    /// The act that runs, with its call.
    pub(crate) fn running(&self) -> Option<&Asking>
        ensures { option_copied result ≡ self.now.state.running }
    {
        self.running.as_ref()
    }

    /// Nothing is done behind these lines.
    fn stay(&self, lines: Lines) -> Mem<Outs>
        ensures { Behind (rests self.now.state) lines self.now self.now result }
    {
        Ok(quiet(self.alloc, lines))
    }

    /// Where this reply leads the act.
    fn answered(&self, asking: &Asking, reply: &Reply) -> Mem<Turn>
        requires within { IsWithin cell_replies reply.now }
        ensures value { IfOk result (λ t. t ≡ answered (errand_of self.now.state asking.now.act) asking.now.place reply.now) }
        ensures fits { IfOk result (λ t. FitsTurn asking.now.act t) }
    {
        let servers = u32::from(self.servers);
        answered(
            self.alloc,
            asking.act().get(),
            servers,
            asking.place(),
            reply,
        )
    }

    /// Where this refusal leads it.
    fn refused(&self, asking: &Asking, code: Code) -> Mem<Turn>
        ensures value { IfOk result (λ t. t ≡ refused asking.now.place code) }
        ensures fits { IfOk result (λ t. FitsTurn asking.now.act t) }
    {
        refused(self.alloc, asking.act().get(), asking.place(), code)
    }

    /// What a reply does with the act that runs, behind these lines.
    fn take_reply(&mut self, reply: &Reply, lines: Lines) -> Mem<Outs>
        requires within { IsWithin cell_replies reply.now }
        requires last { self.old.state.last < number_limit }
        ensures { Behind (by_act self.old.state (turns_answered self.old.node self.old.state reply.now) self.old.state.running) lines self.old self.new result }
    {
        let Some(asking) = self.running() else {
            return self.stay(lines);
        };
        let act = asking.act().copy()?;
        let turn = self.answered(asking, reply)?;
        self.turn(&act, lines, turn)
    }

    /// What a refusal does with the act that runs, or that its call is given up.
    pub(crate) fn take_refusal(&mut self, code: Code, lines: Lines) -> Mem<Outs>
        requires last { self.old.state.last < number_limit }
        ensures { Behind (by_act self.old.state (turns_refused self.old.node self.old.state code) self.old.state.running) lines self.old self.new result }
    {
        let Some(asking) = self.running() else {
            return self.stay(lines);
        };
        let act = asking.act().copy()?;
        let turn = self.refused(asking, code)?;
        self.turn(&act, lines, turn)
    }

    /// The boot number that a node told is kept.
    fn note(&mut self, node: Node, boot: u32) -> Mem<()>
        ensures ok { OnOk result (self.new ≡ record self.old { state = knows_boot self.old.state node boot }) }
        ensures err { OnErr result (self.new ≡ self.old) }
    {
        note_boot(&mut self.boots, node, boot)
    }

    /// The callee has told its boot number: the call is sent again under that.
    fn ask_again(&mut self, boot: u32, lines: Lines) -> Mem<Outs>
        ensures { Behind (by_act self.old.state (asks_in self.old.node self.old.state boot) self.old.state.running) lines self.old self.new result }
    {
        let Some(asking) = self.running() else {
            return self.stay(lines);
        };
        let ask = asking.ask();
        let callee = ask.callee;
        let number = self.number();
        let outs = self.outs(ask, number, boot, lines)?;
        self.note(callee, boot)?;
        Ok(outs)
    }

    /// What a message for the unanswered call carries.
    fn take(&mut self, boot: u32, carried: &Carried, lines: Lines) -> Mem<Outs>
        requires sound { IsWithinCarried carried.now }
        requires last { self.old.state.last < number_limit }
        ensures { Behind (by_act self.old.state (heard_by self.old.node self.old.state boot carried.now) self.old.state.running) lines self.old self.new result }
    {
        match carried {
            Carried::Call { .. } => self.stay(lines),
            Carried::Refusal { code } => self.take_refusal(*code, lines),
            Carried::Reply { reply } => self.take_reply(reply, lines),
            Carried::Notice => self.ask_again(boot, lines),
        }
    }

    /// Whether a message with this header is for the unanswered call: it comes from its callee, and has its key and its opcode.
    fn is_awaited(&self, head: &Head) -> bool
        ensures { result ≡ awaited_by self.now.state head.now self.now.state.running }
    {
        match self.running() {
            Some(asking) => {
                let ask = asking.ask();
                head.from.is(&ask.callee)
                    && (head.epoch == self.callers.boot()
                        && (head.number == self.last && head.opcode == opcode(&ask.call)))
            }
            None => false,
        }
    }

    /// What comes to this administrator and isn't a call.
    fn hear(&mut self, head: &Head, carried: &Carried) -> Mem<Outs>
        requires sound { IsWithinCarried carried.now }
        requires last { self.old.state.last < number_limit }
        ensures { Takes (λ place. awaits self.old.node self.old.state place head.now carried.now self.old.state.running) self.old self.new result }
    {
        let awaited = self.is_awaited(head);
        if awaited {
            let lines = Lines::new(self.alloc);
            self.take(head.boot, carried, lines)
        } else {
            self.ignore()
        }
    }

    /// Whether it is for this administrator.
    fn is_mine(&self, head: &Head) -> bool
        ensures { result ≡ same_node head.now.to self.now.node }
    {
        head.to.is(&self.node)
    }

    /// What comes to this administrator.
    fn get(&mut self, head: &Head, carried: &Carried) -> Mem<Outs>
        requires sound { HasSpelling (record { head = head.now; carried = carried.now }) }
        requires last { self.old.state.last < number_limit }
        ensures { Takes (λ place. gets self.old.node self.old.state place head.now carried.now) self.old self.new result }
    {
        match carried {
            Carried::Call { .. } => self.called(head),
            _ => self.hear(head, carried),
        }
    }

    /// A message. One to another node does nothing.
    fn take_message(&mut self, message: &Message) -> Mem<Outs>
        requires sound { HasSpelling message.now }
        requires last { self.old.state.last < number_limit }
        ensures { Takes (λ place. takes_in self.old.node self.old.state place (Received.Whole message.now)) self.old self.new result }
    {
        let mine = self.is_mine(&message.head);
        if mine {
            self.get(&message.head, &message.carried)
        } else {
            self.ignore()
        }
    }

    /// A call of which the header alone is known.
    fn take_call(&mut self, head: &Head) -> Mem<Outs>
        requires { IsSoundHead head.now }
        ensures { Takes (λ place. takes_in self.old.node self.old.state place (Received.Unserved head.now)) self.old self.new result }
    {
        let mine = self.is_mine(head);
        if mine {
            self.called(head)
        } else {
            self.ignore()
        }
    }

    /// What was received.
    pub(crate) fn take_in(&mut self, received: &Received) -> Mem<Outs>
        requires sound { IsSoundReceived received.now }
        requires last { self.old.state.last < number_limit }
        ensures { Takes (λ place. takes_in self.old.node self.old.state place received.now) self.old self.new result }
    {
        match received {
            Received::Nothing => self.ignore(),
            Received::Unserved { head } => self.take_call(head),
            Received::Unreadable { head } => self.take_call(head),
            Received::Whole { message } => self.take_message(message),
        }
    }
}
