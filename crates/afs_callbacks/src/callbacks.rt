//! A file server's callbacks: what it promised, owes, calls and holds back.

ghost use Rattle.std.specs.Prelude.{◌≡◌, ◌≤◌, IfOk, []};
ghost use Rattle.spec_breaks.specs.Promises.{lasting_breaks, expired};
ghost use Rattle.spec_rows.specs.Callbacks.{no_turn};
ghost use Rattle.afs_server_parts.specs.Turning.{IsFresh, IsReady, IsTurn};
ghost use Rattle.afs_callbacks.specs.States.{backs_by, no_callbacks, IsToNodes};
ghost use Rattle.std.specs.Option.{option_copied};
ghost use Rattle.afs_callees.specs.Called.{call_to};

use afs_callees::callees::find_call;
use afs_num::sequences::Sequence;
use afs_num::types::{Mem, Node};
use afs_promise::Promises;
use afs_server_parts::calling::{BreakCall, BreakCallee};
use afs_server_parts::held::HeldReply;
use afs_server_parts::turns::{Stand, Turn};
use spec_breaks::types::OwedBreak;
use std::alloc::Global;
use std::marker::Model;

/// What a file server promised, and the breaks that it owes; the nodes that it calls, with the calls that they haven't answered;
/// and replies that wait for breaks.
pub struct Callbacks {
    pub(crate) alloc: Global,
    pub(crate) promises: Promises,
    pub(crate) callees: Vec<BreakCallee>,
    pub(crate) held: Sequence<HeldReply>,
}

/// They end by a drop of their own: what holds them has one drop to prove where it ends.
impl Drop for Callbacks {
    fn drop(self) {
        let Callbacks {
            alloc: _,
            promises,
            callees: _,
            held: _,
        } = self;
        drop(promises);
    }
}

impl Model for Callbacks {
    ghost use Rattle.afs_callbacks.specs.States.{CallbackState};

    ghost Value = { CallbackState };

    ghost view = { λ s. record { lists = s.promises; callees = s.callees.items; held = s.held } };
}

/// The breaks that are owed once those have ended whose time has come.
pub(crate) fn lasting_breaks(alloc: Global, promises: &Promises, now: u32) -> Mem<Vec<OwedBreak>>
    ensures { IfOk result (λ os. os.items ≡ lasting_breaks now promises.now.owed) }
{
    let mut lasting = Vec::new(alloc);
    for owed in promises.owed().iter() {
        if owed.expiry > now {
            lasting.push(owed)?;
        }
    }
    Ok(lasting)
}

impl Callbacks {
    /// Those of a server at set-up, in a cell of so many clients: it promised nothing and owes nothing.
    pub fn new(alloc: Global, clients: u8) -> Mem<Callbacks>
        requires { clients ≤ 16 }
        ensures { IfOk result (λ k. k ≡ no_callbacks) }
    {
        let callees = Vec::with_capacity(alloc, clients as usize)?;
        Ok(Callbacks {
            alloc,
            promises: Promises::new(alloc),
            callees,
            held: Sequence::new(alloc),
        })
    }

    /// Those of a server that begins again: it has these promises and owes these breaks, and has called nobody yet.
    pub fn owing(alloc: Global, promises: Promises) -> Callbacks
        ensures { result ≡ record { lists = promises; callees = []; held = [] } }
    {
        Callbacks {
            alloc,
            promises,
            callees: Vec::new(alloc),
            held: Sequence::new(alloc),
        }
    }

    /// The server's unanswered call to this node. It takes no memory.
    pub fn call_to(&self, node: Node) -> Option<&BreakCall>
        ensures { option_copied result ≡ call_to self.now.callees node }
    {
        find_call(&self.callees, node)
    }

    /// A step in which nothing happens but that time has passed.
    pub(crate) fn turn(&self, stand: Stand, now: u32) -> Mem<Turn>
        requires { IsToNodes stand.node self.now }
        ensures turn { IfOk result (λ t. IsTurn (no_turn (backs_by self.now stand now)) t) }
        ensures fresh { IfOk result IsFresh }
        ensures stand { IfOk result (λ t. t.stand ≡ stand) }
        ensures ready { IfOk result IsReady }
    {
        let owed = lasting_breaks(self.alloc, &self.promises, now)?;
        let turn = Turn::new(self.alloc, stand, owed, &self.callees, self.held.as_slice())?;
        Ok(turn)
    }

    /// Promises and breaks end whose time has come. It takes no memory.
    pub fn expire(&mut self, now: u32)
        ensures { self.new ≡ record self.old { lists = expired now self.old.lists } }
    {
        self.promises.expire(now);
    }

    /// The nodes that are called, and the replies that wait, are those that a step left. It takes no memory.
    pub fn keep(&mut self, callees: Vec<BreakCallee>, held: Sequence<HeldReply>)
        ensures { self.new ≡ record self.old { callees = callees.items; held = held } }
    {
        self.callees = callees;
        self.held = held;
    }
}
