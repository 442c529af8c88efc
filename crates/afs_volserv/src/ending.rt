//! The end of a step: what is left of it in memory.

ghost use Rattle.std.specs.Prelude.{◌≡◌, ◌≤◌, IfOk};
ghost use Rattle.spec_breaks.specs.Promises.{expired};
ghost use Rattle.afs_volserv.specs.Seen.{StandsBeside};
ghost use Rattle.afs_volserv.specs.Sending.{IsSent};

use afs_callbacks::Callbacks;
use afs_disk::Disk;
use afs_message::spelled::Sent;
use afs_num::types::Mem;
use afs_server_parts::ending::Ended;
use afs_sharing::drawing::{draw, stand_at};
use afs_volstore::VolStore;
use spec_history::lines::Outs;

/// What comes of it that these messages go out, where the node's own calls are drawn up to this number.
pub(crate) fn plan_sent<D: Disk>(
    store: &VolStore<D>,
    callbacks: &Callbacks,
    last: u32,
    sent: Sent,
    now: u32,
) -> Mem<Ended>
    requires { StandsBeside callbacks.now store.now }
    ensures { IfOk result (IsSent now last sent callbacks.now store.now) }
{
    let stand = stand_at(store, last);
    let ended = callbacks.plan_beside(stand, sent, &[], now)?;
    Ok(ended)
}

/// What is left of a step of promises and breaks. It takes no memory.
pub(crate) fn keep<D: Disk>(
    store: &mut VolStore<D>,
    callbacks: &mut Callbacks,
    ended: Ended,
) -> Outs
    requires { store.old.drawn ≤ ended.last }
    ensures callbacks { callbacks.new ≡ record callbacks.old { callees = ended.callees.items; held = ended.held } }
    ensures store { store.new ≡ record store.old { drawn = ended.last } }
    ensures outs { result ≡ ended.outs }
{
    let Ended {
        outs,
        last,
        callees,
        held,
    } = ended;
    callbacks.keep(callees, held);
    draw(store, last);
    outs
}

/// The same, where promises and breaks have ended first whose time has come.
pub(crate) fn keep_at<D: Disk>(
    store: &mut VolStore<D>,
    callbacks: &mut Callbacks,
    ended: Ended,
    now: u32,
) -> Outs
    requires { store.old.drawn ≤ ended.last }
    ensures callbacks { callbacks.new ≡ record { lists = expired now callbacks.old.lists; callees = ended.callees.items; held = ended.held } }
    ensures store { store.new ≡ record store.old { drawn = ended.last } }
    ensures outs { result ≡ ended.outs }
{
    callbacks.expire(now);
    keep(store, callbacks, ended)
}
