//! A server node and its place, over the store of its disk.

use afs_disk::Fuse;
use afs_host::{Resting, Running, Seat};
use afs_node::ServerNode;
use afs_volstore::VolStore;

/// A server node that is up, over a disk behind a fuse.
pub type ServerRunning<D> = Running<ServerNode, VolStore<Fuse<D>>>;

/// The place of a server node over such a disk.
pub type ServerSeat<D> = Seat<ServerRunning<D>, Resting<D>>;
