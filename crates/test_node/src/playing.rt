//! A file server that is played over a disk in memory.

ghost use Rattle.std.specs.Prelude.{◌≡◌, ◌<◌, ◌+◌, false, IfOk, IfSome};
ghost use Rattle.afs_num.specs.Nodes.{IsNode};
ghost use Rattle.test_node.specs.Playing.{GoesOn};

use crate::vectors::{Message, spelled};
use afs_disk::{Disk, MemDisk};
use afs_num::records::Mark;
use afs_num::types::Node;
use afs_server::FileServer;
use afs_server_parts::faults::NodeFault;
use afs_volstore::VolStore;
use spec_history::lines::Outs;
use std::alloc::Global;

/// So many messages are given at most.
const MOST_STEPS: u32 = 1000;

/// A server that is up, with what it told and sent in its last step, and how many steps it has made since it began.
pub(crate) struct Running {
    pub(crate) server: FileServer,
    pub(crate) store: VolStore<MemDisk>,
    pub(crate) outs: Outs,
    pub(crate) steps: u32,
}

/// It ends by a drop of its own: what holds it has one drop to prove where it ends.
impl Drop for Running {
    fn drop(self) {
        let Running {
            server,
            store,
            outs,
            steps: _,
        } = self;
        drop(server);
        drop(store);
        drop(outs);
    }
}

/// A server of two clients begins over a store.
fn rise(alloc: Global, store: &mut VolStore<MemDisk>) -> Option<(FileServer, Outs)>
    requires up { store.old.closed ≡ false }
    requires drawn { store.old.drawn ≡ 0 }
    requires node { IsNode store.old.node }
    ensures { IfSome result (λ r. GoesOn r.0 store.new 0) }
{
    store.boot().ok()?;
    FileServer::restart(alloc, store, 2, 0).ok()
}

/// A server of two clients begins over a store that is just attached.
fn risen(alloc: Global, store: VolStore<MemDisk>) -> Option<Running>
    requires up { store.closed ≡ false }
    requires drawn { store.drawn ≡ 0 }
    requires node { IsNode store.node }
    ensures { IfSome result (λ r. GoesOn r.server r.store r.steps) }
{
    let mut store = store;
    match rise(alloc, &mut store) {
        Some((server, outs)) => Some(Running {
            server,
            store,
            outs,
            steps: 0,
        }),
        None => {
            drop(store);
            None
        }
    }
}

/// A server of two clients begins over a disk of which this mark was told.
pub(crate) fn begun(alloc: Global, disk: MemDisk, told: Mark) -> Option<Running>
    ensures { IfSome result (λ r. GoesOn r.server r.store r.steps) }
{
    if disk.capacity() > 268_435_456 {
        drop(disk);
        return None;
    }
    match VolStore::attach(alloc, disk, Node::Server(1), told) {
        Ok((store, lines)) => {
            drop(lines);
            risen(alloc, store)
        }
        Err((_, disk)) => {
            drop(disk);
            None
        }
    }
}

/// What the server does with a message, after so many steps.
fn hears(
    server: &mut FileServer,
    store: &mut VolStore<MemDisk>,
    bytes: &[u8],
    steps: u32,
) -> Result<Outs, NodeFault>
    requires on { GoesOn server.old store.old steps }
    requires few { steps < 1000 }
    ensures { IfOk result (λ _. GoesOn server.new store.new (steps + 1)) }
{
    server.handle(store, bytes, 0)
}

/// The server is given this message.
pub(crate) fn give(alloc: Global, running: &mut Running, message: Message) -> Option<()>
    requires { GoesOn running.old.server running.old.store running.old.steps }
    ensures { IfSome result (λ _. GoesOn running.new.server running.new.store running.new.steps) }
{
    if running.steps >= MOST_STEPS {
        return None;
    }
    let bytes = spelled(alloc, message).ok()?;
    let steps = running.steps;
    running.outs = hears(
        &mut running.server,
        &mut running.store,
        bytes.as_slice(),
        steps,
    )
    .ok()?;
    running.steps = steps + 1;
    Some(())
}
