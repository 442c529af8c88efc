//! A caller has its seat again after a restart, with the reply that the store keeps for it.

ghost use Rattle.std.specs.Prelude.{◌≡◌, ◌∷◌, ◌++◌, [], None, IsSome, OnOk};
ghost use Rattle.afs_num.specs.Nodes.{node_number, node_of};
ghost use Rattle.spec_model.specs.Calls.{call_seat};
ghost use Rattle.afs_saving.specs.Kept.{or_loc, seat_kept, seats_after, CanFollow};

use afs_num::types::{Key, Mem, Node};
use afs_server_parts::callers::{Callers, restore};
use std::alloc::Global;

/// A caller that has no seat yet gets one, with the kept reply to its call.
fn keep_again(alloc: Global, callers: &mut Callers, key: Key, reply: &[u8]) -> Mem<()>
    requires node { IsSome (node_of (node_number key.node)) }
    requires fresh { call_seat (or_loc (node_of (node_number key.node))) callers.old.seats ≡ None }
    ensures seats { OnOk result (callers.new.seats ≡ callers.old.seats ++ seat_kept (node_number key.node, record { epoch = key.epoch; number = key.number; reply = reply.now }) ∷ []) }
    ensures boot { callers.new.boot ≡ callers.old.boot }
{
    let Some(node) = Node::from_number(key.node.number()) else {
        unreachable!()
    };
    callers.reserve(1)?;
    restore(alloc, callers, Key { node, ..key }, reply)?;
    Ok(())
}

/// The caller of this kept reply gets its seat, if there is one.
pub fn keep_found(alloc: Global, callers: &mut Callers, kept: Option<(Key, &[u8])>) -> Mem<()>
    requires { CanFollow callers.old.seats kept }
    ensures seats { OnOk result (callers.new.seats ≡ seats_after callers.old.seats kept.entry) }
    ensures boot { callers.new.boot ≡ callers.old.boot }
{
    match kept {
        Some((key, reply)) => {
            keep_again(alloc, callers, key, reply)?;
            Ok(())
        }
        None => Ok(()),
    }
}
