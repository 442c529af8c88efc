//! A volume server begins, is made ready for a step, is timed out, and sends what waited for breaks.

ghost use Rattle.std.specs.Prelude.{◌≡◌, ◌≤◌, [], Some, filter, IfOk, IsErrOf, IsSome, OnOk};
ghost use Rattle.afs_num.specs.Nodes.{IsNode};
ghost use Rattle.spec_model.specs.Messages.{messages_spelled, parcels_read};
ghost use Rattle.spec_rows.specs.Callbacks.{is_ready, replies_of};
ghost use Rattle.afs_sendings.specs.Pieces.{call_seen, Piece};
ghost use Rattle.afs_callees.specs.Called.{call_to};
ghost use Rattle.afs_server_parts.specs.declared.faults.NodeFault.TheVariants as faults;
ghost use Rattle.spec_volrows.specs.VolStates.{fresh_vol};
ghost use Rattle.spec_volrows.specs.VolSteps.{waits_for_breaks};
ghost use Rattle.afs_volserv.specs.Handling.{vol_timed_then, DrawsFew, HandlesVolumes, StaysInOrder};
ghost use Rattle.afs_volserv.specs.Seen.{vol_seen, waits_by, CanDraw, CanRelease, HasRoom, ServesVolumes, StandsBeside};
ghost use Rattle.afs_sharing.specs.Lasting.{lasting_of};

use crate::server::VolServer;
use afs_callbacks::Callbacks;
use afs_callees::callees::find_call;
use afs_disk::Disk;
use afs_num::types::{Key, Mem, Node, Parcels};
use afs_promise::Promises;
use afs_sendings::held::HeldReplies;
use afs_sendings::sendings::PieceCall;
use afs_server_parts::faults::NodeFault;
use afs_sharing::restoring::callers_kept;
use afs_voldecisions::transactions::Transactions;
use afs_volstore::VolStore;
use spec_history::lines::Outs;
use std::alloc::Global;

impl VolServer {
    /// A volume server at set-up and after a restart: it has no transactions, and its callers are those to whom the store keeps replies.
    pub fn new<D: Disk>(alloc: Global, store: &VolStore<D>) -> Mem<VolServer>
        requires node { IsNode store.now.node }
        requires holds { store.now.holds.table ≡ [] }
        ensures new { IfOk result (λ v. vol_seen v ≡ fresh_vol (lasting_of store.now.durable).kept) }
        ensures boot { IfOk result (λ v. v.boot ≡ store.now.durable.boot) }
        ensures serves { IfOk result (λ v. ServesVolumes v store.now) }
        ensures release { IfOk result CanRelease }
    {
        Ok(VolServer {
            alloc,
            callers: callers_kept(alloc, store)?,
            transactions: Transactions::new(alloc),
            callees: Vec::new(alloc),
            held: HeldReplies::new(alloc),
        })
    }

    /// Makes the room that a step needs without memory: replies that wait go out, one more waits, and one more volume is held.
    pub fn ready<D: Disk>(&mut self, store: &mut VolStore<D>) -> Mem<()>
        ensures room { OnOk result (HasRoom self.new store.new) }
        ensures same { self.new ≡ record self.old { room = self.new.room } }
        ensures store { store.new ≡ record store.old { holds = store.new.holds } }
        ensures holds { store.new.holds.table ≡ store.old.holds.table }
    {
        self.held.reserve(1)?;
        store.reserve_hold()?;
        Ok(())
    }

    /// Replies go out whose breaks have ended. It takes no memory.
    pub fn release(&mut self, promises: &Promises) -> Parcels
        requires { CanRelease self.old }
        ensures sent { parcels_read result ≡ messages_spelled (replies_of (filter (is_ready promises.now.owed) self.old.held)) }
        ensures held { self.new ≡ record self.old { held = filter (waits_for_breaks promises.now.owed) self.old.held; room = self.new.room } }
    {
        self.held.release(promises.owed())
    }

    /// A copy of its unanswered call to this server.
    fn awaited(&self, callee: Node) -> Mem<PieceCall>
        requires { IsSome (call_to self.now.callees callee) }
        ensures { IfOk result (λ c. call_to self.now.callees callee ≡ Some c) }
    {
        match find_call(&self.callees, callee) {
            Some(call) => Ok(call.copy(self.alloc)?),
            None => unreachable!(),
        }
    }

    /// Its unanswered call to this server has waited too long.
    pub fn timeout<D: Disk>(
        &mut self,
        store: &mut VolStore<D>,
        callbacks: &mut Callbacks,
        callee: Node,
        now: u32,
    ) -> Result<Outs, NodeFault>
        requires serves { ServesVolumes self.old store.old }
        requires beside { StandsBeside callbacks.old store.old }
        requires waits { IsSome (call_to self.old.callees callee) }
        ensures step { (c : Piece) → call_to self.old.callees callee ≡ Some c → HandlesVolumes (vol_timed_then self.old callbacks.old store.old now callee (call_seen c) c.content) self.old self.new callbacks.old callbacks.new store.old store.new result }
        ensures order { OnOk result (StaysInOrder self.old self.new callbacks.new store.new) }
        ensures draws { OnOk result (DrawsFew callbacks.old callbacks.new store.old store.new) }
        ensures store { store.new ≡ record store.old { drawn = store.new.drawn; holds = store.new.holds } }
        ensures up { IsErrOf result faults.Down → ⊥ }
    {
        let call = self.awaited(callee)?;
        let outs = self.time_out(store, callbacks, callee, &call, now)?;
        Ok(outs)
    }

    /// The key of the server's unanswered call to this node. It takes no memory.
    pub fn waits_on<D: Disk>(&self, store: &VolStore<D>, callee: Node) -> Option<Key>
        ensures { result ≡ waits_by store.now.node self.now callee }
    {
        let call = find_call(&self.callees, callee)?;
        Some(Key {
            node: store.node(),
            epoch: self.callers.boot(),
            number: call.number,
        })
    }
}
