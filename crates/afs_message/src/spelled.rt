//! Messages in their spelling.

ghost use Rattle.std.specs.Prelude.{◌≡◌, ◌∷◌, ◌++◌, [], Some, IfOk, OnErr, OnOk};
ghost use Rattle.spec_model.specs.Messages.{messages_spelled, parcels_read, received, HasSpelling};
ghost use Rattle.afs_message.specs.Spelled.{message_read, reply_in, IsMessage, IsSpelling, Spells};

use crate::messages::encode_message;
use afs_num::messages::Message;
use afs_num::sequences::Octets;
use afs_num::types::{Head, Mem, Parcel, Parcels};
use afs_rpc::heads::read_head;
use std::alloc::Global;
use std::marker::Model;

/// A message in its spelling.
#[derive(Drop)]
pub struct SpelledMessage {
    head: Head,
    bytes: Octets,
}

impl Model for SpelledMessage {
    ghost use Rattle.afs_num.specs.declared.messages.Message.{Message};
    ghost use Rattle.spec_model.specs.Messages.{received, HasSpelling};
    ghost use Rattle.afs_message.specs.Spelled.{message_read, IsMessage};

    ghost Value = { Message };

    ghost view = { λ m. message_read m.head (received m.bytes) };

    ghost invariant = { λ m. record { is : IsMessage m.head m.bytes; sound : HasSpelling (message_read m.head (received m.bytes)) } };
}

/// The header of the message that these bytes spell.
fn head_in(bytes: &[u8]) -> Head
    requires { IsSpelling bytes.now }
    ensures is { IsMessage result bytes.now }
    ensures sound { HasSpelling (message_read result (received bytes.now)) }
{
    match read_head(bytes) {
        Ok(head) => head,
        Err(_) => unreachable!(),
    }
}

impl SpelledMessage {
    /// This message.
    pub fn of(alloc: Global, message: &Message) -> Mem<SpelledMessage>
        requires { HasSpelling message.now }
        ensures { IfOk result (λ m. m ≡ message.now) }
    {
        let bytes = encode_message(alloc, message)?;
        Ok(SpelledMessage {
            head: message.head,
            bytes,
        })
    }

    /// This message, which ends here.
    pub fn from_message(alloc: Global, message: Message) -> Mem<SpelledMessage>
        requires { HasSpelling message }
        ensures { IfOk result (λ m. m ≡ message) }
    {
        SpelledMessage::of(alloc, &message)
    }

    /// The message that these bytes spell. It takes no memory.
    pub fn of_spelling(bytes: Octets) -> SpelledMessage
        requires { IsSpelling bytes }
        ensures value { Spells result bytes }
        ensures read { reply_in (Some bytes) ≡ Some result }
    {
        let head = head_in(bytes.as_slice());
        SpelledMessage { head, bytes }
    }

    pub fn head(&self) -> &Head
        ensures { result.now ≡ self.now.head }
    {
        &self.head
    }

    pub fn bytes(&self) -> &Octets
        ensures { Spells self.now result.now }
    {
        &self.bytes
    }

    /// The same message. It has a spelling.
    pub fn copy(&self, alloc: Global) -> Mem<SpelledMessage>
        ensures same { IfOk result (λ m. m ≡ self.now) }
        ensures sound { IfOk result HasSpelling }
    {
        Ok(SpelledMessage {
            head: self.head,
            bytes: self.bytes.copy(alloc)?,
        })
    }

    /// The message as it is sent. It takes no memory.
    pub fn into_parcel(self) -> Parcel
        ensures { parcels_read (result ∷ []) ≡ messages_spelled (self ∷ []) }
    {
        let SpelledMessage { head, bytes } = self;
        Parcel { head, bytes }
    }
}

/// Messages that go out, each in its spelling.
#[derive(Drop)]
pub struct Sent {
    parcels: Parcels,
}

impl Model for Sent {
    ghost use Rattle.std.specs.Prelude.{List, map};
    ghost use Rattle.afs_num.specs.declared.messages.Message.{Message};
    ghost use Rattle.afs_message.specs.Sending.{parcel_message, AreMessages};

    ghost Value = { List Message };

    ghost view = { λ s. map parcel_message s.parcels };

    ghost invariant = { λ s. AreMessages s.parcels };
}

impl Sent {
    /// No messages. It takes no memory.
    pub fn new(alloc: Global) -> Sent
        ensures { result ≡ [] }
    {
        Sent {
            parcels: Parcels::new(alloc),
        }
    }

    /// One more message goes out.
    pub fn push(&mut self, message: SpelledMessage) -> Mem<()>
        ensures ok { OnOk result (self.new ≡ self.old ++ message ∷ []) }
        ensures err { OnErr result (self.new ≡ self.old) }
    {
        self.parcels.push(message.into_parcel())?;
        Ok(())
    }

    /// The messages as they are sent. It takes no memory.
    pub fn parcels(&self) -> &Parcels
        ensures { parcels_read result.now ≡ messages_spelled self.now }
    {
        &self.parcels
    }

    /// The messages as they are sent. It takes no memory.
    pub fn into_parcels(self) -> Parcels
        ensures { parcels_read result ≡ messages_spelled self }
    {
        let Sent { parcels } = self;
        parcels
    }
}
