//! A server begins again: the breaks that it then owes, and what comes of them.

ghost use Rattle.std.specs.Prelude.{◌≡◌, ◌≤◌, ◌+◌, [], IfOk};
ghost use Rattle.std.specs.List.{All};
ghost use Rattle.afs_num.specs.Nodes.{IsNode};
ghost use Rattle.spec_breaks.specs.Promises.{no_lists};
ghost use Rattle.spec_rows.specs.Callbacks.{owed_to_clients};
ghost use Rattle.afs_server_parts.specs.Ending.{IsPlanOf};
ghost use Rattle.afs_server_parts.specs.Turning.{IsBreakToNode};
ghost use Rattle.afs_callbacks.specs.States.{risen_with};

use afs_callees::telling::tell_owed;
use afs_num::types::{Mem, Node};
use afs_promise::Promises;
use afs_server_parts::ending::Ended;
use afs_server_parts::turns::{Stand, Turn};
use spec_breaks::types::OwedBreak;
use std::alloc::Global;

/// Each client of the cell, of which there are so many, is owed a break on all until this time.
pub fn owed_to_clients(alloc: Global, clients: u8, expiry: u32) -> Mem<Promises>
    requires { clients ≤ 16 }
    ensures lists { IfOk result (λ p. p ≡ owed_to_clients expiry 0 clients no_lists) }
    ensures promises { IfOk result (λ p. p.promises ≡ []) }
    ensures nodes { IfOk result (λ p. All IsBreakToNode p.owed) }
{
    let mut promises = Promises::new(alloc);
    for before in 0..clients {
        promises.owe_all(Node::Client(before + 1), expiry)?;
    }
    Ok(promises)
}

/// The breaks that are owed.
fn all_breaks(alloc: Global, promises: &Promises) -> Mem<Vec<OwedBreak>>
    ensures { IfOk result (λ os. os.items ≡ promises.now.owed) }
{
    let mut breaks = Vec::new(alloc);
    for owed in promises.owed().iter() {
        breaks.push(owed)?;
    }
    Ok(breaks)
}

/// What comes of it that these breaks are owed, by a server that stands so and has called nobody yet.
pub fn rise(alloc: Global, stand: Stand, promises: &Promises) -> Mem<Ended>
    requires node { IsNode stand.node }
    requires first { stand.last ≡ 0 }
    requires nodes { All IsBreakToNode promises.now.owed }
    ensures { IfOk result (IsPlanOf stand (risen_with stand.node promises.now)) }
{
    let owed = all_breaks(alloc, promises)?;
    let mut turn = Turn::new(alloc, stand, owed, &[], &[])?;
    tell_owed(&mut turn.lines, stand.node, &turn.owed)?;
    let ended = turn.end(alloc)?;
    Ok(ended)
}
