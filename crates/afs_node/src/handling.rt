//! What a server node does with a message.

ghost use Rattle.std.specs.Prelude.{◌≡◌, ◌≤◌, ◌∷◌, [], ℕ, false, true, filter, IsErrOf, OnOk};
ghost use Rattle.afs_num.specs.declared.messages.Message.{Message};
ghost use Rattle.afs_num.specs.declared.messages.Received.TheVariants.{Whole};
ghost use Rattle.spec_history.specs.declared.lines.Line.TheVariants as lines;
ghost use Rattle.spec_model.specs.Messages.{messages_spelled, parcels_read, received};
ghost use Rattle.spec_rows.specs.Callbacks.{is_ready, replies_of};
ghost use Rattle.spec_volrows.specs.VolSteps.{waits_for_breaks, node_row};
ghost use Rattle.afs_server_parts.specs.declared.faults.NodeFault.TheVariants as faults;
ghost use Rattle.afs_server.specs.Seen.{CanDraw};
ghost use Rattle.afs_volserv.specs.Seen.{CanRelease, HasRoom};
ghost use Rattle.afs_node.specs.Handling.{node_taken, HandlesNode, StepsNode, TookNode};
ghost use Rattle.afs_node.specs.Seen.{node_found, node_seen, sent_by_client, SameNode, SameStored, ServesNode};

use crate::node::ServerNode;
use afs_decisions::deciding::is_client;
use afs_disk::Disk;
use afs_num::types::Parcels;
use afs_rpc::heads::read_head;
use afs_server_parts::faults::NodeFault;
use afs_volstore::VolStore;
use spec_history::lines::Outs;

/// Whether these are the bytes of a client's message, as its header tells, or have no header.
fn sent_by_client(bytes: &[u8]) -> bool
    ensures { result ≡ sent_by_client bytes.now }
{
    match read_head(bytes) {
        Ok(head) => is_client(&head.from),
        Err(_) => true,
    }
}

impl ServerNode {
    /// The file server is given the bytes of a message, which is a client's.
    fn take_file<D: Disk>(
        &mut self,
        store: &mut VolStore<D>,
        bytes: &[u8],
        now: u32,
    ) -> Result<Outs, NodeFault>
        requires client { sent_by_client bytes.now ≡ true }
        requires serves { ServesNode self.old store.old }
        requires draws { CanDraw self.old.file store.old.drawn }
        requires room { HasRoom self.old.vol store.old }
        requires up { store.old.closed ≡ false }
        requires now { now ≤ 1000000000 }
        ensures step { (place : ℕ) → TookNode (node_taken store.old.node (node_seen self.old store.old) now place (node_found bytes.now)) (lines.Given place ∷ []) self.old self.new store.old store.new result }
        ensures release { OnOk result (CanRelease self.new.vol) }
        ensures leaves { StepsNode D.Disk now (node_found bytes.now) self.old self.new store.old store.new result }
    {
        self.file.handle(store, bytes, now)
    }

    /// The volume server is given the bytes of a message, which is no client's.
    fn take_volumes<D: Disk>(
        &mut self,
        store: &mut VolStore<D>,
        bytes: &[u8],
        now: u32,
    ) -> Result<Outs, NodeFault>
        requires other { sent_by_client bytes.now ≡ false }
        requires serves { ServesNode self.old store.old }
        requires draws { CanDraw self.old.file store.old.drawn }
        requires room { HasRoom self.old.vol store.old }
        requires up { store.old.closed ≡ false }
        ensures step { (place : ℕ) → TookNode (node_taken store.old.node (node_seen self.old store.old) now place (node_found bytes.now)) (lines.Given place ∷ []) self.old self.new store.old store.new result }
        ensures release { OnOk result (CanRelease self.new.vol) }
        ensures leaves { StepsNode D.Disk now (node_found bytes.now) self.old self.new store.old store.new result }
    {
        self.vol
            .handle(store, self.file.callbacks_mut(), bytes, now)
    }

    /// The server whose message it is is given its bytes.
    fn take<D: Disk>(
        &mut self,
        store: &mut VolStore<D>,
        bytes: &[u8],
        now: u32,
    ) -> Result<Outs, NodeFault>
        requires serves { ServesNode self.old store.old }
        requires draws { CanDraw self.old.file store.old.drawn }
        requires room { HasRoom self.old.vol store.old }
        requires up { store.old.closed ≡ false }
        requires now { now ≤ 1000000000 }
        ensures step { (place : ℕ) → TookNode (node_taken store.old.node (node_seen self.old store.old) now place (node_found bytes.now)) (lines.Given place ∷ []) self.old self.new store.old store.new result }
        ensures release { OnOk result (CanRelease self.new.vol) }
        ensures leaves { StepsNode D.Disk now (node_found bytes.now) self.old self.new store.old store.new result }
    {
        if sent_by_client(bytes) {
            self.take_file(store, bytes, now)
        } else {
            self.take_volumes(store, bytes, now)
        }
    }

    /// Replies of the volume server go out whose breaks have ended. It takes no memory.
    pub(crate) fn release(&mut self) -> Parcels
        requires { CanRelease self.old.vol }
        ensures sent { parcels_read result ≡ messages_spelled (replies_of (filter (is_ready self.old.file.lists.owed) self.old.vol.held)) }
        ensures held { self.new ≡ record self.old { vol = record self.old.vol { held = filter (waits_for_breaks self.old.file.lists.owed) self.old.vol.held; room = self.new.vol.room } } }
    {
        self.vol.release(self.file.promises())
    }

    /// What the node does with one message, at this time in ticks. It isn't told the message's place in the run, and leaves out the line of
    /// that. A step makes at most one record. The messages beside what it gives out go behind that: replies of the volume server that waited
    /// for breaks. Together they are those of the row. Where memory is wanting the node is as before, but that more room was made, and that
    /// the step's record may be left prepared. One that goes down is to be thrown away: its disk keeps what it kept before the step, or what
    /// it keeps after it.
    pub fn handle<D: Disk>(
        &mut self,
        store: &mut VolStore<D>,
        bytes: &[u8],
        now: u32,
    ) -> Result<(Outs, Parcels), NodeFault>
        requires serves { ServesNode self.old store.old }
        requires draws { CanDraw self.old.file store.old.drawn }
        requires up { store.old.closed ≡ false }
        requires now { now ≤ 1000000000 }
        ensures step { (place : ℕ) → HandlesNode (node_row store.old.node (node_seen self.old store.old) now place (node_found bytes.now)) (lines.Given place ∷ []) self.old self.new store.old store.new result }
        ensures message { IsErrOf result faults.Down → (m : Message) × (received bytes.now ≡ Whole m) }
        ensures leaves { StepsNode D.Disk now (node_found bytes.now) self.old self.new store.old store.new result }
    {
        self.vol.ready(store)?;
        let outs = self.take(store, bytes, now)?;
        let behind = self.release();
        Ok((outs, behind))
    }
}
