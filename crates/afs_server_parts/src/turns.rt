//! What a step of a node plans with its calls, before anything is changed.

ghost use Rattle.std.specs.Prelude.{◌≡◌, ◌+◌, Some, IfOk};
ghost use Rattle.afs_num.specs.Nodes.{IsNode};
ghost use Rattle.afs_num.specs.declared.types.Node.{Node};
ghost use Rattle.spec_rows.specs.Callbacks.{quits, renews, retries, settles, call_timed_out};
ghost use Rattle.afs_callees.specs.Called.{IsGoodCall};
ghost use Rattle.afs_server_parts.specs.Turning.{IsFresh, Goes};

use crate::calling::{BreakCall, BreakCallee, send_call};
use crate::held::{HeldReply, copy_replies};
use crate::owed::{end_breaks, still_owed};
use afs_call::{LAST_TIMEOUT, Timeout, timed_out};
use afs_callees::callees::{copy_callees, end_call, known, set_call, set_known};
use afs_callees::telling::{tell_quit, tell_settled, tell_timeout};
use afs_message::spelled::Sent;
use afs_num::sequences::Sequence;
use afs_num::types::{Mem, Node};
use spec_breaks::types::OwedBreak;
use spec_history::lines::Lines;
use std::alloc::Global;

/// Who makes a step: the node, its boot number, and the number of its last call.
#[derive(Clone, Copy)]
pub struct Stand {
    pub node: Node,
    pub boot: u32,
    pub last: u32,
}

/// The number of the node's last call, its callees, and the messages that the step sends.
#[derive(Drop)]
pub struct Calls {
    pub last: u32,
    pub callees: Vec<BreakCallee>,
    pub sent: Sent,
}

/// What a step does: who makes it, the breaks that are then owed, its calls, the replies that wait, its lines, and replies that
/// are to be sent now or to wait. A plan for which memory ran out is to be thrown away.
#[derive(Drop)]
pub struct Turn {
    pub stand: Stand,
    pub owed: Vec<OwedBreak>,
    pub calls: Calls,
    pub held: Sequence<HeldReply>,
    pub lines: Lines,
    pub outs: Sequence<HeldReply>,
}

impl Turn {
    /// Nothing happens.
    pub fn new(
        alloc: Global,
        stand: Stand,
        owed: Vec<OwedBreak>,
        callees: &[BreakCallee],
        held: &[HeldReply],
    ) -> Mem<Turn>
        ensures fresh { IfOk result (λ t. IsFresh t) }
        ensures stand { IfOk result (λ t. t.stand ≡ stand) }
        ensures owed { IfOk result (λ t. t.owed.items ≡ owed.items) }
        ensures last { IfOk result (λ t. t.calls.last ≡ stand.last) }
        ensures callees { IfOk result (λ t. t.calls.callees.items ≡ callees.now) }
        ensures held { IfOk result (λ t. t.held ≡ held.now) }
    {
        Ok(Turn {
            stand,
            owed,
            calls: Calls {
                last: stand.last,
                callees: copy_callees(alloc, callees)?,
                sent: Sent::new(alloc),
            },
            held: copy_replies(alloc, held)?,
            lines: Lines::new(alloc),
            outs: Sequence::new(alloc),
        })
    }

    /// The node has answered its call.
    pub fn settle(&mut self, alloc: Global, node: Node, call: &BreakCall) -> Mem<()>
        requires { IsFresh self.old }
        ensures { Goes (λ s. settles s.node node call.now) self.old self.new result }
    {
        let ended = still_owed(alloc, call.content.as_slice(), &self.owed)?;
        tell_settled(&mut self.lines, self.stand.node, node, ended.as_slice())?;
        end_breaks(&mut self.owed, call.content.as_slice());
        end_call(&mut self.calls.callees, node)?;
        Ok(())
    }

    /// The node told its boot number: its call is sent again.
    pub fn renew(&mut self, alloc: Global, node: Node, known: u32, call: &BreakCall) -> Mem<()>
        requires fresh { IsFresh self.old }
        requires stands { IsNode self.old.stand.node }
        requires good { IsGoodCall node call.now }
        ensures { Goes (λ s. renews s.node s.boot node known call.now) self.old self.new result }
    {
        set_known(alloc, &mut self.calls.callees, node, known)?;
        send_call(alloc, self.stand, node, known, call, &mut self.calls.sent)?;
        Ok(())
    }

    /// The call has waited too long: it is sent again, and has had so many timeouts by now.
    fn retry(&mut self, alloc: Global, node: Node, call: &BreakCall, tries: u32) -> Mem<()>
        requires fresh { IsFresh self.old }
        requires stands { IsNode self.old.stand.node }
        requires good { IsGoodCall node call.now }
        requires tries { tries ≡ call.now.tries + 1 }
        ensures { Goes (λ s. retries s.node s.boot node call.now) self.old self.new result }
    {
        let stand = self.stand;
        let known = known(&self.calls.callees, node);
        send_call(alloc, stand, node, known, call, &mut self.calls.sent)?;
        tell_timeout(
            &mut self.lines,
            stand.node,
            stand.boot,
            node,
            call.number,
            tries,
        )?;
        let waited = call.waited(alloc, tries)?;
        set_call(&mut self.calls.callees, node, Some(waited))?;
        Ok(())
    }

    /// The call has waited too long for the last time: its breaks are given up.
    fn quit(&mut self, alloc: Global, node: Node, call: &BreakCall) -> Mem<()>
        requires { IsFresh self.old }
        ensures { Goes (λ s. quits s.node s.boot node call.now) self.old self.new result }
    {
        let stand = self.stand;
        tell_timeout(
            &mut self.lines,
            stand.node,
            stand.boot,
            node,
            call.number,
            LAST_TIMEOUT,
        )?;
        let ended = still_owed(alloc, call.content.as_slice(), &self.owed)?;
        tell_quit(&mut self.lines, stand.node, node, ended.as_slice())?;
        end_breaks(&mut self.owed, call.content.as_slice());
        end_call(&mut self.calls.callees, node)?;
        Ok(())
    }

    /// The call has waited too long.
    pub fn time_out(&mut self, alloc: Global, node: Node, call: &BreakCall) -> Mem<()>
        requires fresh { IsFresh self.old }
        requires stands { IsNode self.old.stand.node }
        requires good { IsGoodCall node call.now }
        ensures { Goes (λ s. call_timed_out s.node s.boot node call.now) self.old self.new result }
    {
        match timed_out(call.tries) {
            Timeout::Again(tries) => self.retry(alloc, node, call, tries)?,
            Timeout::Dead => self.quit(alloc, node, call)?,
        }
        Ok(())
    }
}
