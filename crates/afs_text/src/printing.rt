//! The text of a message that was sent, and of the line that begins an entry.

ghost use Rattle.std.specs.Prelude.{◌≡◌};
ghost use Rattle.spec_model.specs.Text.{half_word, head_text, code_text, tail_text, sent_text, actor_text, entry_head_text};
ghost use Rattle.spec_model.specs.Telling.{code_at};
ghost use Rattle.afs_text.specs.Laying.{Lays};

use crate::bytes::lay_hex;
use crate::laying::{Short, TextPiece, lay_short};
use afs_num::histories::Actor;
use afs_num::types::{Code, Half, Head, Parcel};
use afs_outside::outside::{Failed, Sink};

// ---- messages

/// How many bytes a header takes.
const HEADER: usize = 32;

/// The code of a reply: its first word behind the header, 0 where there is none.
#[tactic(auto, unfolding(spec_model::specs::Telling::code_at, spec_shape::specs::Reading::signed_at, afs_xdr::specs::Words::word_at))]
fn code_of(bytes: &[u8]) -> Code
    ensures { result.0 ≡ code_at bytes.now }
{
    if bytes.len() < HEADER {
        return Code(0);
    }
    let (_header, behind) = bytes.split_at(HEADER);
    match behind.split_first_chunk::<4>() {
        Some((word, _fields)) => Code(i32::from_be_bytes(*word)),
        None => Code(0),
    }
}

impl Short for Half {
    ghost text = { half_word };

    ghost most = { λ _. 6 };

    fn lay(&self, bytes: &mut [u8], at: usize) -> usize {
        match self {
            Half::Call => "call ".lay(bytes, at),
            Half::Reply => "reply ".lay(bytes, at),
            Half::Boot => "boot ".lay(bytes, at),
        }
    }
}

impl Short for Head {
    ghost text = { head_text };

    ghost most = { λ _. 56 };

    #[tactic(auto, unfolding(spec_model::specs::Text::head_text))]
    fn lay(&self, bytes: &mut [u8], at: usize) -> usize {
        row!(
            self.from,
            " ",
            self.to,
            " ",
            self.half,
            self.opcode,
            " ",
            self.epoch,
            ".",
            self.number
        )
        .lay(bytes, at)
    }
}

/// A reply alone has its code.
#[derive(Drop)]
struct HalfCode(Half, Code);

impl Short for HalfCode {
    ghost text = { λ c. code_text c.0 c.1.0 };

    ghost most = { λ _. 13 };

    #[tactic(auto, unfolding(spec_model::specs::Text::code_text))]
    fn lay(&self, bytes: &mut [u8], at: usize) -> usize {
        match self.0 {
            Half::Reply => row!(" ", self.1).lay(bytes, at),
            Half::Call | Half::Boot => at,
        }
    }
}

/// Lays the line of a message.
#[tactic(auto, unfolding(spec_model::specs::Text::sent_text, spec_model::specs::Text::tail_text))]
pub(crate) fn lay_parcel<K: Sink>(
    sink: &mut K,
    piece: &mut TextPiece,
    place: u64,
    parcel: &Parcel,
    wire: bool,
) -> Result<(), Failed>
    ensures { Lays (sent_text wire place parcel.now.head (code_at parcel.now.bytes) parcel.now.bytes) piece.old piece.new (K.held sink.old) (K.held sink.new) (K.faults sink.old) (K.faults sink.new) result }
{
    let bytes = parcel.bytes.as_slice();
    let code = HalfCode(parcel.head.half, code_of(bytes));
    if wire {
        lay_short(
            sink,
            piece,
            &row!("sent ", place, " ", parcel.head, code, " "),
        )?;
        lay_hex(sink, piece, bytes)?;
        lay_short(sink, piece, &"\n")
    } else {
        lay_short(
            sink,
            piece,
            &row!("sent ", place, " ", parcel.head, code, "\n"),
        )
    }
}

// ---- entries

impl Short for Actor {
    ghost text = { actor_text };

    ghost most = { λ _. 5 };

    fn lay(&self, bytes: &mut [u8], at: usize) -> usize {
        match self {
            Actor::Node(node) => node.lay(bytes, at),
            Actor::Clock => "clock".lay(bytes, at),
            Actor::Nobody => "none".lay(bytes, at),
        }
    }
}

/// Lays the number of an entry, and whose it is.
#[tactic(auto, unfolding(spec_model::specs::Text::entry_head_text))]
pub(crate) fn lay_step<K: Sink>(
    sink: &mut K,
    piece: &mut TextPiece,
    number: u64,
    actor: Actor,
) -> Result<(), Failed>
    ensures { Lays (entry_head_text number actor) piece.old piece.new (K.held sink.old) (K.held sink.new) (K.faults sink.old) (K.faults sink.new) result }
{
    lay_short(sink, piece, &row!("entry ", number, " ", actor, "\n"))
}
