//! What comes of it that a server's own call waits too long, and that time passes.

ghost use Rattle.std.specs.Prelude.{◌≡◌, IfOk};
ghost use Rattle.spec_breaks.specs.Promises.{expired};
ghost use Rattle.spec_rows.specs.Callbacks.{ends_all, no_turn, call_timed_out};
ghost use Rattle.afs_callees.specs.Called.{IsGoodCall};
ghost use Rattle.afs_server_parts.specs.Ending.{IsPlanOf};
ghost use Rattle.afs_callbacks.specs.States.{backs_by, IsToNodes};
ghost use Rattle.afs_callbacks.specs.Waiting.{lists_timed};

use crate::callbacks::Callbacks;
use afs_call::{Timeout, timed_out};
use afs_num::types::{Mem, Node};
use afs_promise::Promises;
use afs_server_parts::calling::BreakCall;
use afs_server_parts::ending::Ended;
use afs_server_parts::turns::Stand;
use spec_breaks::types::OwedBreak;

/// These breaks are given up.
fn quit_all(promises: &mut Promises, breaks: &[OwedBreak])
    ensures { promises.new ≡ ends_all breaks.now promises.old }
{
    for owed in breaks {
        promises.quit(owed.number);
    }
}

/// What a timeout of this call leaves of the promises. It takes no memory.
fn time_out(promises: &mut Promises, call: &BreakCall, now: u32)
    ensures { promises.new ≡ lists_timed call.now (expired now promises.old) }
{
    promises.expire(now);
    match timed_out(call.tries) {
        Timeout::Again(_) => {}
        Timeout::Dead => quit_all(promises, call.content.as_slice()),
    }
}

impl Callbacks {
    /// What comes of it that time has passed.
    pub fn plan_wake(&self, stand: Stand, now: u32) -> Mem<Ended>
        requires { IsToNodes stand.node self.now }
        ensures { IfOk result (IsPlanOf stand (no_turn (backs_by self.now stand now))) }
    {
        let turn = self.turn(stand, now)?;
        let ended = turn.end(self.alloc)?;
        Ok(ended)
    }

    /// What comes of a timeout of this call.
    pub fn plan_timeout(&self, stand: Stand, callee: Node, call: &BreakCall, now: u32) -> Mem<Ended>
        requires nodes { IsToNodes stand.node self.now }
        requires good { IsGoodCall callee call.now }
        ensures { IfOk result (IsPlanOf stand (call_timed_out stand.node stand.boot callee call.now (backs_by self.now stand now))) }
    {
        let mut turn = self.turn(stand, now)?;
        turn.time_out(self.alloc, callee, call)?;
        let ended = turn.end(self.alloc)?;
        Ok(ended)
    }

    /// This call has waited too long: its breaks end with the last time. It takes no memory.
    pub fn time_out(&mut self, call: &BreakCall, now: u32)
        ensures { self.new ≡ record self.old { lists = lists_timed call.now (expired now self.old.lists) } }
    {
        time_out(&mut self.promises, call, now);
    }
}
