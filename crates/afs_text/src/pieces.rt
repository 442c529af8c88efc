//! What texts are made of, and how it is written to a sink.

ghost use Rattle.std.specs.Prelude.{◌≡◌, ◌<◌, ◌≤◌, ◌++◌, List, ℕ, true, false, length};
ghost use Rattle.std.specs.List.{flat_map};
ghost use Rattle.std.specs.Fmt.{decimal, signed_decimal};
ghost use Rattle.afs_num.specs.Texts.{node_text, fid_text, key_text};
ghost use Rattle.afs_outside.specs.Outside.{Puts};
ghost use Rattle.afs_text.specs.Laying.{Lays};

use crate::laying::{Short, TextPiece, put_piece, put_short};
use crate::numbers::lay_signed;
use afs_num::types::{Code, Fid, Key, Node};
use afs_outside::outside::{Failed, Sink, put_bytes};

/// What has a text.
pub trait Print {
    /// Its text.
    ghost text: { Self → List ℕ };

    /// Writes its text.
    fn print<K: Sink>(&self, sink: &mut K) -> Result<(), Failed>
        ensures { Puts (text self.now) (K.held sink.old) (K.held sink.new) (K.faults sink.old) (K.faults sink.new) result };
}

/// Lays a text of any length: what the piece holds is put, and then the text.
pub(crate) fn lay_long<K: Sink, P: Print>(
    sink: &mut K,
    piece: &mut TextPiece,
    item: &P,
) -> Result<(), Failed>
    ensures { Lays (P.text item.now) piece.old piece.new (K.held sink.old) (K.held sink.new) (K.faults sink.old) (K.faults sink.new) result }
{
    put_piece(sink, piece)?;
    item.print(sink)
}

/// Writes the texts of these items, one behind another.
fn print_all<T: Print, K: Sink>(sink: &mut K, items: &[T]) -> Result<(), Failed>
    ensures { Puts (flat_map T.text items.now) (K.held sink.old) (K.held sink.new) (K.faults sink.old) (K.faults sink.new) result }
{
    for item in items {
        item.print(sink)?;
    }
    Ok(())
}

/// One behind the other.
impl<A: Print, B: Print> Print for (A, B) {
    ghost text = { λ p. A.text p.0 ++ B.text p.1 };

    #[inline(always)]
    fn print<K: Sink>(&self, sink: &mut K) -> Result<(), Failed> {
        self.0.print(sink)?;
        self.1.print(sink)
    }
}

/// Each of these items, one behind another.
#[derive(Drop)]
pub struct Each<'a, T>(pub &'a [T]);

impl<'a, T: Print> Print for Each<'a, T> {
    ghost text = { λ each. flat_map T.text each.0.now };

    fn print<K: Sink>(&self, sink: &mut K) -> Result<(), Failed> {
        print_all(sink, self.0)
    }
}

impl<'a> Print for &'a str {
    ghost text = { λ s. s.now };

    #[inline(always)]
    fn print<K: Sink>(&self, sink: &mut K) -> Result<(), Failed> {
        put_bytes(sink, self.as_bytes())
    }
}

impl Print for u64 {
    ghost text = { decimal };

    fn print<K: Sink>(&self, sink: &mut K) -> Result<(), Failed> {
        put_short(sink, self)
    }
}

impl Print for u32 {
    ghost text = { decimal };

    fn print<K: Sink>(&self, sink: &mut K) -> Result<(), Failed> {
        put_short(sink, self)
    }
}

impl Print for u8 {
    ghost text = { decimal };

    fn print<K: Sink>(&self, sink: &mut K) -> Result<(), Failed> {
        put_short(sink, self)
    }
}

impl Print for Code {
    ghost text = { λ c. signed_decimal c.0 };

    fn print<K: Sink>(&self, sink: &mut K) -> Result<(), Failed> {
        put_short(sink, self)
    }
}

impl Short for Code {
    ghost text = { λ c. signed_decimal c.0 };

    ghost most = { λ _. 12 };

    #[inline(always)]
    fn lay(&self, bytes: &mut [u8], at: usize) -> usize {
        lay_signed(bytes, at, self.0)
    }
}

impl Print for Node {
    ghost text = { node_text };

    fn print<K: Sink>(&self, sink: &mut K) -> Result<(), Failed> {
        put_short(sink, self)
    }
}

impl Short for Node {
    ghost text = { node_text };

    ghost most = { λ _. 5 };

    #[inline(always)]
    fn lay(&self, bytes: &mut [u8], at: usize) -> usize {
        match *self {
            Node::Loc => "loc".lay(bytes, at),
            Node::Server(i) => row!("s", i).lay(bytes, at),
            Node::Client(i) => row!("c", i).lay(bytes, at),
            Node::Admin(i) => row!("a", i).lay(bytes, at),
        }
    }
}

impl Print for Fid {
    ghost text = { fid_text };

    fn print<K: Sink>(&self, sink: &mut K) -> Result<(), Failed> {
        put_short(sink, self)
    }
}

impl Short for Fid {
    ghost text = { fid_text };

    ghost most = { λ _. 35 };

    fn lay(&self, bytes: &mut [u8], at: usize) -> usize {
        row!(self.volume, ".", self.vnode, ".", self.unique).lay(bytes, at)
    }
}

impl Print for Key {
    ghost text = { key_text };

    fn print<K: Sink>(&self, sink: &mut K) -> Result<(), Failed> {
        put_short(sink, self)
    }
}

impl Short for Key {
    ghost text = { key_text };

    ghost most = { λ _. 29 };

    fn lay(&self, bytes: &mut [u8], at: usize) -> usize {
        row!(self.node, ".", self.epoch, ".", self.number).lay(bytes, at)
    }
}
