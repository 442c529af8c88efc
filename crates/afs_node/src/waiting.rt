//! A server node whose calls wait too long, and as time passes.

ghost use Rattle.std.specs.Prelude.{◌≡◌, ◌≤◌, [], None, Some, true, IsErrOf, IsSome, OnOk};
ghost use Rattle.spec_rows.specs.States as rows;
ghost use Rattle.afs_sendings.specs.Pieces.{call_seen, Piece};
ghost use Rattle.afs_callees.specs.Called.{call_to};
ghost use Rattle.afs_server_parts.specs.declared.faults.NodeFault.TheVariants as faults;
ghost use Rattle.afs_server.specs.Seen.{CanDraw};
ghost use Rattle.spec_volrows.specs.VolSteps.{node_back_timeout_row, node_wake_row, piece_timeout_row};
ghost use Rattle.afs_node.specs.Handling.{DrawsFew, HandlesNode};
ghost use Rattle.afs_node.specs.Seen.{file_waits, node_seen, node_waits, volumes_wait, SameNode, SameStored, ServesNode};

use crate::node::ServerNode;
use afs_disk::Disk;
use afs_num::types::{Node, Parcels};
use afs_server_parts::faults::NodeFault;
use afs_volstore::VolStore;
use spec_history::lines::Outs;

impl ServerNode {
    /// Whether its file server waits for a reply of this node. It takes no memory.
    fn file_waits<D: Disk>(&self, store: &VolStore<D>, callee: Node) -> bool
        ensures { result ≡ file_waits self.now callee }
    {
        self.file.waits_on(store, callee).is_some()
    }

    /// Whether its volume server does. It takes no memory.
    fn volumes_wait<D: Disk>(&self, store: &VolStore<D>, callee: Node) -> bool
        ensures { result ≡ volumes_wait self.now callee }
    {
        self.vol.waits_on(store, callee).is_some()
    }

    /// Whether one of them does. It takes no memory.
    pub fn waits_on<D: Disk>(&self, store: &VolStore<D>, callee: Node) -> bool
        ensures { result ≡ node_waits self.now callee }
    {
        self.file_waits(store, callee) || self.volumes_wait(store, callee)
    }

    /// The file server's unanswered call to this node has waited too long.
    fn late_break<D: Disk>(
        &mut self,
        store: &mut VolStore<D>,
        callee: Node,
        now: u32,
    ) -> Result<(Outs, Parcels), NodeFault>
        requires waits { IsSome (call_to self.old.file.callees callee) }
        requires serves { ServesNode self.old store.old }
        requires draws { CanDraw self.old.file store.old.drawn }
        requires now { now ≤ 1000000000 }
        ensures step { (c : rows.BackCall) → call_to self.old.file.callees callee ≡ Some c → HandlesNode (node_back_timeout_row store.old.node (node_seen self.old store.old) now callee c) [] self.old self.new store.old store.new result }
        ensures serves { OnOk result (ServesNode self.new store.new) }
        ensures draws { OnOk result (DrawsFew 0 self.old self.new store.old store.new) }
        ensures store { store.new ≡ record store.old { drawn = store.new.drawn; holds = store.new.holds } }
        ensures wants { IsErrOf result faults.OutOfMemory → SameNode self.old self.new × SameStored store.old store.new }
        ensures up { IsErrOf result faults.Down → ⊥ }
    {
        self.vol.ready(store)?;
        let outs = self.file.timeout(store, callee, now)?;
        let behind = self.release();
        Ok((outs, behind))
    }

    /// The volume server's unanswered call to this node has waited too long.
    fn late_piece<D: Disk>(
        &mut self,
        store: &mut VolStore<D>,
        callee: Node,
        now: u32,
    ) -> Result<(Outs, Parcels), NodeFault>
        requires waits { IsSome (call_to self.old.vol.callees callee) }
        requires serves { ServesNode self.old store.old }
        requires draws { CanDraw self.old.file store.old.drawn }
        ensures step { (c : Piece) → call_to self.old.vol.callees callee ≡ Some c → HandlesNode (piece_timeout_row store.old.node (node_seen self.old store.old) now callee (call_seen c)) [] self.old self.new store.old store.new result }
        ensures serves { OnOk result (ServesNode self.new store.new) }
        ensures draws { OnOk result (DrawsFew 0 self.old self.new store.old store.new) }
        ensures store { store.new ≡ record store.old { drawn = store.new.drawn; holds = store.new.holds } }
        ensures wants { IsErrOf result faults.OutOfMemory → SameNode self.old self.new × SameStored store.old store.new }
        ensures up { IsErrOf result faults.Down → ⊥ }
    {
        self.vol.ready(store)?;
        let outs = self
            .vol
            .timeout(store, self.file.callbacks_mut(), callee, now)?;
        let behind = self.release();
        Ok((outs, behind))
    }

    /// Its unanswered call to this node has waited too long.
    pub fn timeout<D: Disk>(
        &mut self,
        store: &mut VolStore<D>,
        callee: Node,
        now: u32,
    ) -> Result<(Outs, Parcels), NodeFault>
        requires waits { node_waits self.old callee ≡ true }
        requires serves { ServesNode self.old store.old }
        requires draws { CanDraw self.old.file store.old.drawn }
        requires now { now ≤ 1000000000 }
        ensures breaks { (c : rows.BackCall) → call_to self.old.file.callees callee ≡ Some c → HandlesNode (node_back_timeout_row store.old.node (node_seen self.old store.old) now callee c) [] self.old self.new store.old store.new result }
        ensures pieces { call_to self.old.file.callees callee ≡ None → (c : Piece) → call_to self.old.vol.callees callee ≡ Some c → HandlesNode (piece_timeout_row store.old.node (node_seen self.old store.old) now callee (call_seen c)) [] self.old self.new store.old store.new result }
        ensures serves { OnOk result (ServesNode self.new store.new) }
        ensures draws { OnOk result (DrawsFew 0 self.old self.new store.old store.new) }
        ensures store { store.new ≡ record store.old { drawn = store.new.drawn; holds = store.new.holds } }
        ensures wants { IsErrOf result faults.OutOfMemory → SameNode self.old self.new × SameStored store.old store.new }
        ensures up { IsErrOf result faults.Down → ⊥ }
    {
        if self.file_waits(store, callee) {
            self.late_break(store, callee, now)
        } else {
            self.late_piece(store, callee, now)
        }
    }

    /// Time has passed.
    pub fn wake<D: Disk>(
        &mut self,
        store: &mut VolStore<D>,
        now: u32,
    ) -> Result<(Outs, Parcels), NodeFault>
        requires serves { ServesNode self.old store.old }
        requires draws { CanDraw self.old.file store.old.drawn }
        requires now { now ≤ 1000000000 }
        ensures step { HandlesNode (node_wake_row store.old.node (node_seen self.old store.old) now) [] self.old self.new store.old store.new result }
        ensures serves { OnOk result (ServesNode self.new store.new) }
        ensures draws { OnOk result (DrawsFew 0 self.old self.new store.old store.new) }
        ensures store { store.new ≡ record store.old { drawn = store.new.drawn; holds = store.new.holds } }
        ensures wants { IsErrOf result faults.OutOfMemory → SameNode self.old self.new × SameStored store.old store.new }
        ensures up { IsErrOf result faults.Down → ⊥ }
    {
        self.vol.ready(store)?;
        let outs = self.file.wake(store, now)?;
        let behind = self.release();
        Ok((outs, behind))
    }
}
