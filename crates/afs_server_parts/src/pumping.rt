//! The end of each step: replies whose breaks have ended go out, and then calls for what is owed.

ghost use Rattle.std.specs.Prelude.{◌≡◌, ◌≤◌, ◌+◌, ◌++◌, List, [], None, filter, not, IfOk, OnOk};
ghost use Rattle.std.specs.List.{All};
ghost use Rattle.afs_num.specs.Nodes.{IsNode};
ghost use Rattle.afs_num.specs.declared.types.Node.{Node};
ghost use Rattle.spec_breaks.specs.Promises.{Lists};
ghost use Rattle.spec_rows.specs.Callbacks.{given_out, held_after, is_ready, pumped, replies_of, starts, starts_by};
ghost use Rattle.spec_rows.specs.States.{Held};
ghost use Rattle.afs_callees.specs.Called.{call_to, AreGoodCalls};
ghost use Rattle.afs_server_parts.specs.Turning.{started_with, turn_with, IsBreakToNode, IsReady};

use crate::calling::{carried, send_call};
use crate::held::{any_ready, hold_all, part_ready};
use crate::turns::{Calls, Stand, Turn};
use afs_callees::callees::{BackCall, is_waiting, known, set_call};
use afs_num::sequences::Sequence;
use afs_num::types::Mem;
use spec_breaks::types::OwedBreak;
use std::alloc::{AllocError, Global};
use std::mem::replace;

/// The number of the next call. What is left of numbers is never used up: a boot of the server is shorter.
pub fn next_number(last: u32) -> Mem<u32>
    ensures { IfOk result (λ n. n ≡ last + 1) }
{
    last.checked_add(1).ok_or(AllocError)
}

/// Calls the node to which this break is owed, which has no unanswered call.
fn start(
    alloc: Global,
    stand: Stand,
    owed: &[OwedBreak],
    oldest: &OwedBreak,
    calls: &mut Calls,
) -> Mem<()>
    requires stands { IsNode stand.node }
    requires client { IsNode oldest.now.client }
    ensures started { OnOk result ((l : Lists) (hs : List Held) → l.owed ≡ owed.now → started_with l hs calls.new ≡ starts_by stand.node stand.boot (started_with l hs calls.old) oldest.now None) }
    ensures good { OnOk result (AreGoodCalls calls.old.callees.items → AreGoodCalls calls.new.callees.items) }
    ensures drawn { OnOk result (calls.old.last ≤ calls.new.last) }
{
    let node = oldest.client;
    let number = next_number(calls.last)?;
    let call = BackCall {
        number,
        tries: 0,
        content: carried(alloc, oldest, owed)?,
    };
    let known = known(&calls.callees, node);
    send_call(alloc, stand, node, known, &call, &mut calls.sent)?;
    calls.last = number;
    set_call(&mut calls.callees, node, Some(call))?;
    Ok(())
}

/// Calls the node to which this break is owed, unless it has an unanswered call.
fn start_by(
    alloc: Global,
    stand: Stand,
    owed: &[OwedBreak],
    oldest: &OwedBreak,
    calls: &mut Calls,
) -> Mem<()>
    requires stands { IsNode stand.node }
    requires client { IsNode oldest.now.client }
    ensures started { OnOk result ((l : Lists) (hs : List Held) → l.owed ≡ owed.now → started_with l hs calls.new ≡ starts_by stand.node stand.boot (started_with l hs calls.old) oldest.now (call_to calls.old.callees.items oldest.now.client)) }
    ensures good { OnOk result (AreGoodCalls calls.old.callees.items → AreGoodCalls calls.new.callees.items) }
    ensures drawn { OnOk result (calls.old.last ≤ calls.new.last) }
{
    if is_waiting(&calls.callees, oldest.client) {
        return Ok(());
    }
    start(alloc, stand, owed, oldest, calls)?;
    Ok(())
}

/// Calls each node to which breaks are owed and which has no unanswered call, the oldest break first.
fn start_all(alloc: Global, stand: Stand, owed: &[OwedBreak], calls: &mut Calls) -> Mem<()>
    requires stands { IsNode stand.node }
    requires clients { All IsBreakToNode owed.now }
    ensures started { OnOk result ((l : Lists) (hs : List Held) → l.owed ≡ owed.now → started_with l hs calls.new ≡ starts stand.node stand.boot owed.now (started_with l hs calls.old)) }
    ensures good { OnOk result (AreGoodCalls calls.old.callees.items → AreGoodCalls calls.new.callees.items) }
    ensures drawn { OnOk result (calls.old.last ≤ calls.new.last) }
{
    for oldest in owed {
        start_by(alloc, stand, owed, oldest, calls)?;
    }
    Ok(())
}

impl Turn {
    /// Sends those of the replies that were held before which wait no more. Most often there is none, and they stay where they are.
    fn release_held(&mut self, alloc: Global) -> Mem<()>
        ensures sent { OnOk result (self.new.calls.sent ≡ self.old.calls.sent ++ replies_of (filter (is_ready self.old.owed.items) self.old.held)) }
        ensures held { OnOk result (self.new.held ≡ filter (λ (h : Held). not (is_ready self.old.owed.items h)) self.old.held) }
        ensures owed { self.new.owed ≡ self.old.owed }
        ensures stand { self.new.stand ≡ self.old.stand }
        ensures callees { self.new.calls.callees ≡ self.old.calls.callees }
        ensures lines { self.new.lines ≡ self.old.lines }
        ensures last { self.new.calls.last ≡ self.old.calls.last }
        ensures outs { self.new.outs ≡ self.old.outs }
    {
        if any_ready(self.held.as_slice(), &self.owed) {
            let held = replace(&mut self.held, Sequence::new(alloc));
            part_ready(&mut self.calls.sent, &mut self.held, held, &self.owed)?;
        }
        Ok(())
    }

    /// Sends the replies that wait no more.
    fn release(&mut self, alloc: Global) -> Mem<()>
        ensures backs { OnOk result ((l : Lists) → l.owed ≡ self.old.owed.items → started_with l self.new.held self.new.calls ≡ record { backs = held_after (turn_with l self.old); sent = given_out (turn_with l self.old) }) }
        ensures owed { self.new.owed ≡ self.old.owed }
        ensures stand { self.new.stand ≡ self.old.stand }
        ensures callees { self.new.calls.callees ≡ self.old.calls.callees }
        ensures lines { self.new.lines ≡ self.old.lines }
        ensures last { self.new.calls.last ≡ self.old.calls.last }
        ensures outs { OnOk result (self.new.outs ≡ []) }
    {
        let outs = replace(&mut self.outs, Sequence::new(alloc));
        let mut later = Sequence::new(alloc);
        part_ready(&mut self.calls.sent, &mut later, outs, &self.owed)?;
        self.release_held(alloc)?;
        hold_all(&mut self.held, later)?;
        Ok(())
    }

    /// What comes last in each step.
    pub(crate) fn pump(&mut self, alloc: Global) -> Mem<()>
        requires { IsReady self.old }
        ensures pumped { OnOk result ((l : Lists) → l.owed ≡ self.old.owed.items → started_with l self.new.held self.new.calls ≡ pumped self.old.stand.node self.old.stand.boot (turn_with l self.old)) }
        ensures good { OnOk result (AreGoodCalls self.new.calls.callees.items) }
        ensures drawn { OnOk result (self.old.calls.last ≤ self.new.calls.last) }
        ensures lines { self.new.lines ≡ self.old.lines }
    {
        self.release(alloc)?;
        start_all(alloc, self.stand, &self.owed, &mut self.calls)?;
        Ok(())
    }
}
