//! A server node in memory.

ghost use Rattle.std.specs.Prelude.{◌≡◌, ◌≤◌, ◌+◌, [], length, IfOk, OnErr};
ghost use Rattle.afs_num.specs.Nodes.{IsNode};
ghost use Rattle.spec_volrows.specs.VolStates.{fresh_vol};
ghost use Rattle.afs_server.specs.Seen.{first_memory};
ghost use Rattle.afs_volserv.specs.Seen.{vol_seen, ServesVolumes};
ghost use Rattle.afs_node.specs.Handling.{node_begun_step, MakesNode};
ghost use Rattle.afs_node.specs.Seen.{ServesNode};
ghost use Rattle.afs_sharing.specs.Lasting.{lasting_of};

use afs_disk::Disk;
use afs_num::types::Mem;
use afs_server::FileServer;
use afs_volserv::VolServer;
use afs_volstore::VolStore;
use spec_history::lines::Outs;
use std::alloc::Global;

/// A file server and a volume server, which share the store of their disk, promises and breaks, and the numbers of the node's own calls.
pub struct ServerNode {
    pub file: FileServer,
    pub vol: VolServer,
}

/// It ends by a drop of its own: what holds a node has one drop to prove where it ends.
impl Drop for ServerNode {
    fn drop(self) {
        let ServerNode { file, vol } = self;
        drop(file);
        drop(vol);
    }
}

impl ServerNode {
    /// A node at set-up, in a cell of so many clients: its servers promised nothing, owe nothing, and have no transactions.
    pub fn new<D: Disk>(alloc: Global, store: &VolStore<D>, clients: u8) -> Mem<ServerNode>
        requires node { IsNode store.now.node }
        requires free { store.now.holds.table ≡ [] }
        requires clients { clients ≤ 16 }
        ensures file { IfOk result (λ n. n.file ≡ first_memory) }
        ensures vol { IfOk result (λ n. vol_seen n.vol ≡ fresh_vol (lasting_of store.now.durable).kept) }
        ensures volumes { IfOk result (λ n. ServesVolumes n.vol store.now) }
    {
        let vol = VolServer::new(alloc, store)?;
        let file = FileServer::new(alloc, clients)?;
        Ok(ServerNode { file, vol })
    }

    /// The node begins again, over a store that has begun its boot. Its file server owes each client of the cell a break on all; the lines
    /// are those of these breaks. Both servers have the callers to whom the store keeps replies.
    pub fn restart<D: Disk>(
        alloc: Global,
        store: &mut VolStore<D>,
        clients: u8,
        now: u32,
    ) -> Mem<(ServerNode, Outs)>
        requires node { IsNode store.old.node }
        requires free { store.old.holds.table ≡ [] }
        requires drawn { store.old.drawn ≡ 0 }
        requires clients { clients ≤ 16 }
        requires now { now ≤ 1000000000 }
        ensures step { IfOk result (λ r. MakesNode (node_begun_step store.old.node store.old.durable now clients) [] r.0 store.new r.1 []) }
        ensures serves { IfOk result (λ r. ServesNode r.0 store.new) }
        ensures draws { IfOk result (λ r. (store.new.drawn ≤ 204) × (r.0.file.lists.last_owed + length r.0.file.lists.promises ≤ 16)) }
        ensures store { store.new ≡ record store.old { drawn = store.new.drawn } }
        ensures err { OnErr result (store.new ≡ store.old) }
    {
        let vol = VolServer::new(alloc, store)?;
        let (file, outs) = FileServer::restart(alloc, store, clients, now)?;
        Ok((ServerNode { file, vol }, outs))
    }
}
