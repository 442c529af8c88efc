//! The kept reply to a caller's last call that changed something.

ghost use Rattle.std.specs.Prelude.{◌≡◌};
ghost use Rattle.afs_num.specs.Nodes.{IsNode};
ghost use Rattle.spec_model.specs.Calls.{call_seat};
ghost use Rattle.spec_rows.specs.Callbacks.{is_seat_of};
ghost use Rattle.afs_sharing.specs.Callers.{is_answer_to};
ghost use Rattle.afs_sharing.specs.Lasting.{lasting_of, KeepsForNodes};

use afs_disk::Disk;
use afs_message::spelled::SpelledMessage;
use afs_num::types::{Head, Key};
use afs_volstore::VolStore;

/// Whether this reply, which a store keeps, is to the same call as a reply of this header.
fn is_answer_to(head: &Head, kept: Option<(Key, &[u8])>) -> bool
    ensures { result ≡ is_answer_to head.now kept.entry }
{
    match kept {
        Some((key, _)) => head.epoch == key.epoch && head.number == key.number,
        None => false,
    }
}

/// Whether the reply is that to its caller's last call that changed something.
pub fn is_last_change<D: Disk>(store: &VolStore<D>, reply: &SpelledMessage) -> bool
    requires kept { KeepsForNodes store.now.durable }
    requires node { IsNode reply.now.head.to }
    ensures { result ≡ is_seat_of reply.now (call_seat reply.now.head.to (lasting_of store.now.durable).kept) }
{
    let head = reply.head();
    let kept = store.kept(head.to);
    is_answer_to(head, kept)
}
