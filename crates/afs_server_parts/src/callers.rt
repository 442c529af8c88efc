//! The callers of a server, with the replies that it keeps for them.

ghost use Rattle.std.specs.Prelude.{◌≡◌, Some, true, IfOk, OnOk, OnErr};
ghost use Rattle.afs_num.specs.Keyed.{HasRoom};
ghost use Rattle.spec_model.specs.Calls.{call_seat, call_seated, paired, runs};
ghost use Rattle.spec_model.specs.Messages.{received};
ghost use Rattle.afs_message.specs.Spelled.{is_whole, reply_in, IsSpelling};

use afs_call::CallTable;
use afs_message::messages::read_message;
use afs_message::spelled::SpelledMessage;
use afs_num::messages::Received;
use afs_num::sequences::Octets;
use afs_num::types::{Key, Mem};
use std::alloc::Global;

/// The calls of the cell.
const ALL_CALLS: [u32; 43] = [
    130, 131, 132, 133, 134, 135, 136, 137, 138, 139, 140, 141, 142, 147, 149, 153, 155, 204, 205,
    206, 100, 101, 102, 103, 104, 105, 106, 107, 108, 109, 111, 113, 116, 120, 501, 502, 503, 504,
    505, 506, 508, 509, 510,
];

fn is_whole(received: &Received) -> bool
    ensures { result ≡ is_whole received.now }
{
    match received {
        Received::Whole { .. } => true,
        _ => false,
    }
}

/// Whether the bytes spell a message.
fn is_message(alloc: Global, bytes: &[u8]) -> Mem<bool>
    ensures value { IfOk result (λ b. b ≡ is_whole (received bytes.now)) }
    ensures spelling { IfOk result (λ b. b ≡ true → IsSpelling bytes.now) }
{
    let received = read_message(alloc, &ALL_CALLS, bytes)?;
    Ok(is_whole(&received))
}

/// The callers of a server: a table of calls that keeps replies as messages.
pub type Callers = CallTable<SpelledMessage>;

/// The seat of a caller as it was kept, with this reply to its last call: none where the bytes spell no message. A caller's
/// first call needs room for one caller.
pub fn restore(alloc: Global, callers: &mut Callers, key: Key, reply: &[u8]) -> Mem<()>
    requires runs { paired key.epoch key.number (call_seat key.node callers.old.seats) ≡ runs }
    requires room { HasRoom (call_seat key.node callers.old.seats) callers.old.room }
    ensures boot { callers.new.boot ≡ callers.old.boot }
    ensures seats { OnOk result (callers.new.seats ≡ call_seated (record { caller = key.node; epoch = key.epoch; number = key.number; reply = reply_in (Some reply.now) }) callers.old.seats) }
    ensures err { OnErr result (callers.new.seats ≡ callers.old.seats) }
{
    if is_message(alloc, reply)? {
        let reply = Octets::from_slice(alloc, reply)?;
        callers.answer(key, SpelledMessage::of_spelling(reply));
    } else {
        callers.start(key);
    }
    Ok(())
}
