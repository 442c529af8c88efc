//! The steps of a file server.

ghost use Rattle.std.specs.Prelude.{◌≡◌, ◌≤◌, ◌+◌, [], None, Some, length, IfOk, IsErrOf, IsSome, OnOk, OnErr};
ghost use Rattle.afs_num.specs.Nodes.{IsNode};
ghost use Rattle.afs_server_parts.specs.declared.faults.NodeFault.TheVariants as faults;
ghost use Rattle.spec_rows.specs.ServerSteps.{back_timeout_row, wake_row};
ghost use Rattle.spec_rows.specs.States as rows;
ghost use Rattle.afs_callees.specs.Called.{call_to};
ghost use Rattle.afs_server.specs.Handling.{server_seen, Handles, Makes, ServesOver};
ghost use Rattle.afs_server.specs.Seen.{begun_step, waits_by, CanDraw, Serves};

use crate::server::FileServer;
use afs_callbacks::Callbacks;
use afs_callbacks::restoring::{owed_to_clients, rise};
use afs_disk::Disk;
use afs_num::types::{Key, Mem, Node};
use afs_server_parts::calling::BreakCall;
use afs_server_parts::faults::NodeFault;
use afs_sharing::drawing::stand;
use afs_sharing::restoring::callers_kept;
use afs_volstore::VolStore;
use spec_history::lines::Outs;
use std::alloc::Global;

/// A promise lasts so many ticks.
const PROMISE_TICKS: u32 = 7200;

impl FileServer {
    /// A copy of its unanswered call to this node.
    fn awaited(&self, callee: Node) -> Mem<BreakCall>
        requires { IsSome (call_to self.now.callees callee) }
        ensures { IfOk result (λ c. call_to self.now.callees callee ≡ Some c) }
    {
        match self.callbacks().call_to(callee) {
            Some(call) => Ok(call.copy(self.alloc)?),
            None => unreachable!(),
        }
    }

    /// Its unanswered call to this node has waited too long.
    #[tactic(auto, unfolding(spec_rows::specs::ServerSteps::back_timeout_row))]
    pub fn timeout<D: Disk>(
        &mut self,
        store: &mut VolStore<D>,
        callee: Node,
        now: u32,
    ) -> Result<Outs, NodeFault>
        requires serves { ServesOver self.old store.old }
        requires draws { CanDraw self.old store.old.drawn }
        requires now { now ≤ 1000000000 }
        requires waits { IsSome (call_to self.old.callees callee) }
        ensures step { (c : rows.BackCall) → call_to self.old.callees callee ≡ Some c → Handles (back_timeout_row store.old.node (server_seen self.old store.old) now callee c) [] self.old self.new store.old store.new result }
        ensures serves { OnOk result (ServesOver self.new store.new) }
        ensures draws { OnOk result ((store.new.drawn ≤ store.old.drawn + 204) × (self.new.lists.last_owed + length self.new.lists.promises ≤ self.old.lists.last_owed + length self.old.lists.promises)) }
        ensures store { store.new ≡ record store.old { drawn = store.new.drawn } }
        ensures up { IsErrOf result faults.Down → ⊥ }
    {
        let call = self.awaited(callee)?;
        let outs = self.time_out(store, callee, &call, now)?;
        Ok(outs)
    }

    /// Time has passed.
    #[tactic(auto, unfolding(spec_rows::specs::ServerSteps::wake_row))]
    pub fn wake<D: Disk>(&mut self, store: &mut VolStore<D>, now: u32) -> Result<Outs, NodeFault>
        requires serves { ServesOver self.old store.old }
        requires draws { CanDraw self.old store.old.drawn }
        requires now { now ≤ 1000000000 }
        ensures step { Handles (wake_row store.old.node (server_seen self.old store.old) now) [] self.old self.new store.old store.new result }
        ensures serves { OnOk result (ServesOver self.new store.new) }
        ensures draws { OnOk result ((store.new.drawn ≤ store.old.drawn + 204) × (self.new.lists.last_owed + length self.new.lists.promises ≤ self.old.lists.last_owed + length self.old.lists.promises)) }
        ensures store { store.new ≡ record store.old { drawn = store.new.drawn } }
        ensures up { IsErrOf result faults.Down → ⊥ }
    {
        let outs = self.pass(store, now)?;
        Ok(outs)
    }

    /// The server begins again, over a store that has begun its boot: each client of the cell, of which there are so many,
    /// is owed a break on all. Its callers are those to whom the store keeps replies; a kept reply that is no
    /// message is never given. The lines are those of the breaks.
    pub fn restart<D: Disk>(
        alloc: Global,
        store: &mut VolStore<D>,
        clients: u8,
        now: u32,
    ) -> Mem<(FileServer, Outs)>
        requires node { IsNode store.old.node }
        requires drawn { store.old.drawn ≡ 0 }
        requires clients { clients ≤ 16 }
        requires now { now ≤ 1000000000 }
        ensures step { IfOk result (λ r. Makes (begun_step store.old.node store.old.durable now clients) [] r.0 store.new r.1) }
        ensures serves { IfOk result (λ r. Serves store.new.node r.0 store.new.durable) }
        ensures draws { IfOk result (λ r. (store.new.drawn ≤ 204) × (r.0.lists.last_owed + length r.0.lists.promises ≤ 16)) }
        ensures store { store.new ≡ record store.old { drawn = store.new.drawn } }
        ensures err { OnErr result (store.new ≡ store.old) }
    {
        let callers = callers_kept(alloc, store)?;
        let promises = owed_to_clients(alloc, clients, now + PROMISE_TICKS)?;
        let ended = rise(alloc, stand(store), &promises)?;
        let callbacks = Callbacks::owing(alloc, promises);
        let mut server = FileServer {
            alloc,
            callers,
            callbacks,
        };
        let outs = server.keep(store, ended);
        Ok((server, outs))
    }

    /// The key of the server's unanswered call to this node. It takes no memory.
    pub fn waits_on<D: Disk>(&self, store: &VolStore<D>, callee: Node) -> Option<Key>
        ensures { result ≡ waits_by store.now.node self.now callee }
    {
        let call = self.callbacks().call_to(callee)?;
        Some(Key {
            node: store.node(),
            epoch: self.callers.boot(),
            number: call.number,
        })
    }
}
