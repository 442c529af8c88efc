//! Short texts: they are laid one behind another in a piece, which is put where it has no room for the next.

ghost use Rattle.std.specs.Prelude.{◌≡◌, ◌+◌, ◌≤◌, [], ◌∷◌, ◌++◌, List, ℕ, length, OnOk};
ghost use Rattle.afs_outside.specs.Outside.{Puts};
ghost use Rattle.afs_text.specs.Laying.{Lays, LaysAt};

use afs_outside::outside::{Failed, Sink, put_bytes};
use std::marker::Model;

/// How many bytes a piece of text has room for.
const ROOM: usize = 512;

/// How many bytes a short text has at most.
const SHORT: usize = 128;

// ---- bytes

/// Lays a byte.
#[inline(always)]
pub(crate) fn lay_byte(bytes: &mut [u8], at: usize, byte: u8) -> usize
    requires { at + 1 ≤ length bytes.old }
    ensures { LaysAt (byte ∷ []) at bytes.old bytes.new result }
{
    bytes[at] = byte;
    at + 1
}

/// Lays two bytes.
#[inline(always)]
pub(crate) fn lay_two(bytes: &mut [u8], at: usize, first: u8, second: u8) -> usize
    requires { at + 2 ≤ length bytes.old }
    ensures { LaysAt (first ∷ second ∷ []) at bytes.old bytes.new result }
{
    bytes[at] = first;
    bytes[at + 1] = second;
    at + 2
}

/// Lays four bytes.
#[inline(always)]
pub(crate) fn lay_four(
    bytes: &mut [u8],
    at: usize,
    first: u8,
    second: u8,
    third: u8,
    fourth: u8,
) -> usize
    requires { at + 4 ≤ length bytes.old }
    ensures { LaysAt (first ∷ second ∷ third ∷ fourth ∷ []) at bytes.old bytes.new result }
{
    let behind = lay_two(bytes, at, first, second);
    lay_two(bytes, behind, third, fourth)
}

/// Lays bytes.
#[inline(always)]
pub(crate) fn lay_bytes(bytes: &mut [u8], at: usize, text: &[u8]) -> usize
    requires { at + length text.now ≤ length bytes.old }
    ensures { LaysAt text.now at bytes.old bytes.new result }
{
    let end = at + text.len();
    bytes[at..end].copy_from_slice(text);
    end
}

// ---- short texts

/// What has a short text.
pub(crate) trait Short {
    /// Its text.
    ghost text: { Self → List ℕ };

    /// The text has at most so many bytes.
    ghost most: { Self → ℕ };

    /// Lays its text at this place, and says where the text ends. So the place is kept in a register from one text to the next, which
    /// a field that lies beside the bytes can't be.
    fn lay(&self, bytes: &mut [u8], at: usize) -> usize
        requires { at + most self.now ≤ length bytes.old }
        ensures laid { LaysAt (text self.now) at bytes.old bytes.new result }
        ensures short { length (text self.now) ≤ most self.now };
}

/// One behind the other.
impl<A: Short, B: Short> Short for (A, B) {
    ghost text = { λ p. A.text p.0 ++ B.text p.1 };

    ghost most = { λ p. A.most p.0 + B.most p.1 };

    #[inline(always)]
    fn lay(&self, bytes: &mut [u8], at: usize) -> usize {
        let behind = self.0.lay(bytes, at);
        self.1.lay(bytes, behind)
    }
}

impl<'a> Short for &'a str {
    ghost text = { λ s. s.now };

    ghost most = { λ s. length s.now };

    #[inline(always)]
    fn lay(&self, bytes: &mut [u8], at: usize) -> usize {
        lay_bytes(bytes, at, self.as_bytes())
    }
}

// ---- pieces

/// A piece of text: what is laid, and not yet put.
#[derive(Drop)]
pub struct TextPiece {
    bytes: [u8; ROOM],
    len: usize,
}

impl Model for TextPiece {
    ghost use Rattle.std.specs.Prelude.{◌≡◌, ◌≤◌, List, ℕ, length, take};

    ghost Value = { List ℕ };

    ghost view = { λ p. take p.len p.bytes };

    ghost invariant = { λ p. (p.len ≤ 512) × (length p.bytes ≡ 512) };
}

impl TextPiece {
    pub fn new() -> TextPiece
        ensures { result ≡ [] }
    {
        TextPiece {
            bytes: [0; ROOM],
            len: 0,
        }
    }

    #[inline(always)]
    pub(crate) fn as_slice(&self) -> &[u8]
        ensures value { result.now ≡ self.now }
        ensures fits { length result.now ≤ 512 }
    {
        self.bytes.split_at(self.len).0
    }

    /// How many bytes more it has room for.
    #[inline(always)]
    fn room(&self) -> usize
        ensures { result + length self.now ≡ 512 }
    {
        ROOM - self.len
    }

    pub(crate) fn clear(&mut self)
        ensures { self.new ≡ [] }
    {
        self.len = 0;
    }

    /// Lays a short text behind what it holds.
    #[inline(always)]
    pub(crate) fn lay<T: Short>(&mut self, item: &T)
        requires { length self.old + T.most item.now ≤ 512 }
        ensures { self.new ≡ self.old ++ T.text item.now }
    {
        self.len = item.lay(&mut self.bytes, self.len);
    }
}

/// Writes a short text at once.
pub(crate) fn put_short<T: Short, K: Sink>(sink: &mut K, item: &T) -> Result<(), Failed>
    requires { T.most item.now ≤ 512 }
    ensures { Puts (T.text item.now) (K.held sink.old) (K.held sink.new) (K.faults sink.old) (K.faults sink.new) result }
{
    let mut piece = TextPiece::new();
    piece.lay(item);
    put_bytes(sink, piece.as_slice())
}

// ---- texts behind others

/// Puts what the piece holds.
#[cold]
#[inline(never)]
pub(crate) fn put_piece<K: Sink>(sink: &mut K, piece: &mut TextPiece) -> Result<(), Failed>
    ensures put { Puts piece.old (K.held sink.old) (K.held sink.new) (K.faults sink.old) (K.faults sink.new) result }
    ensures empty { OnOk result (piece.new ≡ []) }
{
    put_bytes(sink, piece.as_slice())?;
    piece.clear();
    Ok(())
}

/// Puts what the piece holds where it has no room for so many bytes more.
#[inline(always)]
pub(crate) fn make_room<K: Sink>(
    sink: &mut K,
    piece: &mut TextPiece,
    most: usize,
) -> Result<(), Failed>
    requires { most ≤ 512 }
    ensures laid { Lays [] piece.old piece.new (K.held sink.old) (K.held sink.new) (K.faults sink.old) (K.faults sink.new) result }
    ensures room { OnOk result (length piece.new + most ≤ 512) }
{
    if piece.room() < most {
        return put_piece(sink, piece);
    }
    Ok(())
}

/// Lays a short text behind what the piece holds, which is put before where there is no room for it.
#[inline(always)]
pub(crate) fn lay_short<T: Short, K: Sink>(
    sink: &mut K,
    piece: &mut TextPiece,
    item: &T,
) -> Result<(), Failed>
    requires { T.most item.now ≤ 128 }
    ensures { Lays (T.text item.now) piece.old piece.new (K.held sink.old) (K.held sink.new) (K.faults sink.old) (K.faults sink.new) result }
{
    make_room(sink, piece, SHORT)?;
    piece.lay(item);
    Ok(())
}
