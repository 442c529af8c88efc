//! Dumps that are sent to other servers, piece by piece.

ghost use Rattle.std.specs.Prelude.{◌≡◌, ◌≤◌, ◌<◌, ◌+◌, ◌-◌, ◌++◌, ◌∷◌, [], Some, false, length, IfOk};
ghost use Rattle.std.specs.Option.{option_copied};
ghost use Rattle.afs_num.specs.Nodes.{IsNode};
ghost use Rattle.afs_num.specs.declared.volume_calls.VolCall.TheVariants as calls;
ghost use Rattle.spec_volrows.specs.VolRow.{last_word, most_piece};
ghost use Rattle.spec_volrows.specs.VolSteps.{piece_gone, piece_message, sent_whole};
ghost use Rattle.spec_dumps.specs.Streams.{piece_at};
ghost use Rattle.afs_sendings.specs.Sendings.{first_of, rest_of};

use afs_callees::callees::{BackCall, Callee, Copies};
use afs_dump::pieces::{MOST_PIECE, is_last_piece, piece_of};
use afs_message::spelled::SpelledMessage;
use afs_num::messages::{Call, Carried, Message};
use afs_num::sequences::Octets;
use afs_num::types::{Half, Head, Mem, Node};
use afs_num::volume_calls::VolCall;
use afs_server_parts::turns::Stand;
use std::alloc::{AllocError, Global};
use std::marker::Model;

/// A piece is given by this call.
pub const RESTORE: u32 = 102;

/// A dump that is sent to a transaction at another server: the header of the call that asked for it, the family and the transaction,
/// the whole dump, and how many bytes of it went.
#[derive(Drop)]
pub struct Sending {
    head: Head,
    family: u32,
    target: u32,
    bytes: Octets,
    at: u32,
}

impl Model for Sending {
    ghost use Rattle.std.specs.Prelude.{◌≤◌, drop, length};
    ghost use Rattle.spec_volrows.specs.VolStates.{Sending};

    ghost Value = { Sending };

    ghost view = { λ s. record { head = s.head; family = s.family; target = s.target; at = s.at; left = drop s.at s.bytes } };

    ghost invariant = { λ s. s.at ≤ length s.bytes };
}

impl Sending {
    /// The dump that a Forward of this header sends.
    pub fn of(head: &Head, family: u32, target: u32, bytes: Octets) -> Sending
        ensures { result ≡ record { head = head.now; family = family; target = target; at = 0; left = bytes } }
    {
        Sending {
            head: *head,
            family,
            target,
            bytes,
            at: 0,
        }
    }

    /// The header of the call that asked for it.
    pub fn head(&self) -> &Head
        ensures { result.now ≡ self.now.head }
    {
        &self.head
    }

    /// Whether the piece that is sent next is the last.
    pub fn is_last(&self) -> bool
        ensures { result ≡ sent_whole self.now }
    {
        is_last_piece(self.at as usize, self.bytes.len())
    }

    /// The piece that is sent next.
    fn piece(&self, alloc: Global) -> Mem<Octets>
        ensures { IfOk result (λ p. p ≡ piece_at most_piece 0 self.now.left) }
    {
        piece_of(alloc, &self.bytes, self.at as usize)
    }

    /// The same dump. Bytes are shared.
    fn copy(&self, alloc: Global) -> Mem<Sending>
        ensures { IfOk result (λ s. s ≡ self.now) }
    {
        Ok(Sending {
            head: self.head,
            family: self.family,
            target: self.target,
            bytes: self.bytes.copy(alloc)?,
            at: self.at,
        })
    }

    /// The same dump, of which the next piece went. One of so many bytes that a word can't count them wants memory.
    fn moved_on(&self, alloc: Global) -> Mem<Sending>
        requires { sent_whole self.now ≡ false }
        ensures { IfOk result (λ s. s ≡ piece_gone self.now) }
    {
        let Some(at) = self.at.checked_add(MOST_PIECE as u32) else {
            return Err(AllocError);
        };
        Ok(Sending {
            head: self.head,
            family: self.family,
            target: self.target,
            bytes: self.bytes.copy(alloc)?,
            at,
        })
    }

    /// The call that carries the next piece.
    fn call(&self, alloc: Global) -> Mem<VolCall>
        ensures { IfOk result (λ c. c ≡ calls.Restore self.now.family self.now.target self.now.at (last_word 0 self.now.left) (piece_at most_piece 0 self.now.left)) }
    {
        Ok(VolCall::Restore {
            family: self.family,
            transaction: self.target,
            offset: self.at,
            last: self.is_last() as u32,
            piece: self.piece(alloc)?,
        })
    }

    /// The message that carries the next piece, to a server of which this boot number is known.
    fn message(
        &self,
        alloc: Global,
        stand: Stand,
        callee: Node,
        known: u32,
        number: u32,
    ) -> Mem<Message>
        ensures { IfOk result (λ m. m ≡ piece_message stand.node stand.boot callee known number self.now) }
    {
        Ok(Message {
            head: Head {
                half: Half::Call,
                from: stand.node,
                to: callee,
                epoch: stand.boot,
                number,
                boot: known,
                stamp: self.head.stamp,
                opcode: RESTORE,
            },
            carried: Carried::Call {
                user: Octets::new(alloc),
                call: Call::Volume(self.call(alloc)?),
            },
        })
    }

    /// The same, in its spelling.
    pub fn spell(
        &self,
        alloc: Global,
        stand: Stand,
        callee: Node,
        known: u32,
        number: u32,
    ) -> Mem<SpelledMessage>
        requires stands { IsNode stand.node }
        requires callee { IsNode callee }
        ensures { IfOk result (λ m. m ≡ piece_message stand.node stand.boot callee known number self.now) }
    {
        let message = self.message(alloc, stand, callee, known, number)?;
        SpelledMessage::from_message(alloc, message)
    }
}

/// The dumps that go to one server: the first one is being sent.
#[derive(Drop)]
pub struct Queue {
    sendings: Vec<Sending>,
}

impl Model for Queue {
    ghost use Rattle.std.specs.Prelude.{List};
    ghost use Rattle.spec_volrows.specs.VolStates.{Sending};

    ghost Value = { List Sending };

    ghost view = { λ q. q.sendings.items };
}

fn copy_all(alloc: Global, sendings: &[Sending]) -> Mem<Vec<Sending>>
    ensures { IfOk result (λ ss. ss.items ≡ sendings.now) }
{
    let mut copies = Vec::with_capacity(alloc, sendings.len())?;
    for one in sendings {
        copies.push(one.copy(alloc)?)?;
    }
    Ok(copies)
}

impl Copies for Queue {
    fn copy(&self, alloc: Global) -> Mem<Queue> {
        Ok(Queue {
            sendings: copy_all(alloc, &self.sendings)?,
        })
    }
}

impl Queue {
    /// This dump alone.
    pub fn one(alloc: Global, sending: Sending) -> Mem<Queue>
        ensures { IfOk result (λ q. q ≡ sending ∷ []) }
    {
        let mut sendings = Vec::new(alloc);
        sendings.push(sending)?;
        Ok(Queue { sendings })
    }

    /// The dump that is being sent.
    pub fn first(&self) -> Option<&Sending>
        ensures { option_copied result ≡ first_of self.now }
    {
        self.sendings.first()
    }

    /// The same, as a copy.
    pub fn copied_first(&self, alloc: Global) -> Mem<Option<Sending>>
        ensures { IfOk result (λ o. o ≡ first_of self.now) }
    {
        match self.first() {
            Some(first) => Ok(Some(first.copy(alloc)?)),
            None => Ok(None),
        }
    }

    /// Those behind it.
    pub fn rest(&self, alloc: Global) -> Mem<Queue>
        ensures { IfOk result (λ q. q ≡ rest_of self.now) }
    {
        let rest = match self.sendings.as_slice() {
            [] => copy_all(alloc, &[])?,
            [_, rest @ ..] => copy_all(alloc, rest)?,
        };
        Ok(Queue { sendings: rest })
    }

    /// One more dump, behind the others.
    pub fn with(&self, alloc: Global, sending: &Sending) -> Mem<Queue>
        ensures { IfOk result (λ q. q ≡ self.now ++ sending.now ∷ []) }
    {
        let mut sendings = copy_all(alloc, &self.sendings)?;
        sendings.push(sending.copy(alloc)?)?;
        Ok(Queue { sendings })
    }

    /// This dump in the place of the first.
    fn with_first(alloc: Global, first: Sending, rest: Queue) -> Mem<Queue>
        ensures { IfOk result (λ q. q ≡ first ∷ rest) }
    {
        let Queue { sendings } = rest;
        let mut all = sendings;
        match all.insert(0, first) {
            Ok(()) => Ok(Queue { sendings: all }),
            Err(_) => Err(AllocError),
        }
    }

    /// The same dumps, of the first of which the next piece went.
    pub fn moved_on(&self, alloc: Global, first: &Sending) -> Mem<Queue>
        requires whole { sent_whole first.now ≡ false }
        requires first { first_of self.now ≡ Some first.now }
        ensures { IfOk result (λ q. q ≡ piece_gone first.now ∷ rest_of self.now) }
    {
        let first = first.moved_on(alloc)?;
        let rest = self.rest(alloc)?;
        Queue::with_first(alloc, first, rest)
    }
}

/// A call that carries the next piece of the first of the dumps that go to its callee.
pub type PieceCall = BackCall<Queue>;

/// A server to which dumps are sent.
pub type PieceCallee = Callee<Queue>;
