//! Keys of the map of promises.

ghost use Rattle.std.specs.Prelude.{◌≡◌};
ghost use Rattle.afs_promise.specs.Granting.{holding, holding_of};

use crate::types::Holding;
use afs_num::types::{Fid, Node};

fn holding_of(kind: u8, number: u8, fid: Fid) -> Holding
    ensures { result ≡ holding_of kind number fid }
{
    Holding {
        kind,
        number,
        volume: fid.volume,
        vnode: fid.vnode,
        unique: fid.unique,
    }
}

/// The key of what the client holds on the fid.
pub fn holding(client: Node, fid: Fid) -> Holding
    ensures { result ≡ holding client fid }
{
    match client {
        Node::Loc => holding_of(0, 0, fid),
        Node::Server(i) => holding_of(1, i, fid),
        Node::Client(i) => holding_of(2, i, fid),
        Node::Admin(i) => holding_of(3, i, fid),
    }
}
