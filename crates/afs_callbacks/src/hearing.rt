//! What comes of replies and notices to a server's own calls.

ghost use Rattle.std.specs.Prelude.{◌≡◌, IfOk};
ghost use Rattle.spec_breaks.specs.Promises.{expired};
ghost use Rattle.spec_rows.specs.Callbacks.{ends_all, is_back_awaited, renews, settles};
ghost use Rattle.afs_callees.specs.Called.{call_to, IsGoodCall};
ghost use Rattle.afs_server_parts.specs.Ending.{IsPlanOf};
ghost use Rattle.afs_callbacks.specs.Hearing.{heard_by, is_heard};
ghost use Rattle.afs_callbacks.specs.States.{backs_by, IsToNodes};

use crate::callbacks::Callbacks;
use afs_callees::callees::find_call;
use afs_num::types::{Head, Mem, Node};
use afs_promise::Promises;
use afs_server_parts::calling::{BreakCall, breaks_opcode};
use afs_server_parts::ending::Ended;
use afs_server_parts::turns::Stand;
use spec_breaks::types::OwedBreak;

/// Whether a reply or a notice of this header is to this call of a server in this boot.
fn is_awaited(boot: u32, call: &BreakCall, head: &Head) -> bool
    ensures { result ≡ is_back_awaited boot call.now head.now }
{
    head.epoch == boot
        && (head.number == call.number && head.opcode == breaks_opcode(call.content.as_slice()))
}

/// Whether a reply or a notice of this header is for this server, and to this call.
fn is_heard(server: Node, boot: u32, head: &Head, call: &BreakCall) -> bool
    ensures { result ≡ is_heard server boot head.now call.now }
{
    head.to.is(&server) && is_awaited(boot, call, head)
}

/// The breaks that a node has handled end.
fn settle_all(promises: &mut Promises, breaks: &[OwedBreak])
    ensures { promises.new ≡ ends_all breaks.now promises.old }
{
    for owed in breaks {
        promises.settled(owed.number);
    }
}

impl Callbacks {
    /// The unanswered call to which a reply or a notice of this header is.
    pub fn heard(&self, server: Node, boot: u32, head: &Head) -> Mem<Option<BreakCall>>
        ensures call { IfOk result (λ c. c ≡ heard_by server boot head.now (call_to self.now.callees head.now.from)) }
    {
        match find_call(&self.callees, head.from) {
            Some(call) => {
                if is_heard(server, boot, head, call) {
                    Ok(Some(call.copy(self.alloc)?))
                } else {
                    Ok(None)
                }
            }
            None => Ok(None),
        }
    }

    /// What comes of it that a node has answered this call.
    pub fn plan_settled(&self, stand: Stand, node: Node, call: &BreakCall, now: u32) -> Mem<Ended>
        requires { IsToNodes stand.node self.now }
        ensures { IfOk result (IsPlanOf stand (settles stand.node node call.now (backs_by self.now stand now))) }
    {
        let mut turn = self.turn(stand, now)?;
        turn.settle(self.alloc, node, call)?;
        let ended = turn.end(self.alloc)?;
        Ok(ended)
    }

    /// What comes of it that a node has told its boot number, which makes this call go out again.
    pub fn plan_renewed(
        &self,
        stand: Stand,
        node: Node,
        known: u32,
        call: &BreakCall,
        now: u32,
    ) -> Mem<Ended>
        requires nodes { IsToNodes stand.node self.now }
        requires good { IsGoodCall node call.now }
        ensures { IfOk result (IsPlanOf stand (renews stand.node stand.boot node known call.now (backs_by self.now stand now))) }
    {
        let mut turn = self.turn(stand, now)?;
        turn.renew(self.alloc, node, known, call)?;
        let ended = turn.end(self.alloc)?;
        Ok(ended)
    }

    /// These breaks end, once promises and breaks have ended whose time has come. It takes no memory.
    pub fn settle(&mut self, breaks: &[OwedBreak], now: u32)
        ensures { self.new ≡ record self.old { lists = ends_all breaks.now (expired now self.old.lists) } }
    {
        self.promises.expire(now);
        settle_all(&mut self.promises, breaks);
    }
}
