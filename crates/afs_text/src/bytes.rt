//! Contents and names as texts.

ghost use Rattle.std.specs.Prelude.{◌≡◌, ◌+◌, ◌*◌, ◌/◌, ◌%◌, ◌<◌, ◌≤◌, [], ◌∷◌, ◌++◌, map, true, false, length, take};
ghost use Rattle.std.specs.Fmt.{digit_glyph};
ghost use Rattle.std.specs.List.{flat_map, list_all, All};
ghost use Rattle.afs_outside.specs.Outside.{Puts};
ghost use Rattle.afs_text.specs.Laying.{halves_of, Lays, LaysAt};
ghost use Rattle.spec_model.specs.LineText.{hex_byte, hex_text, is_plain, name_byte, name_text};

use crate::laying::{Short, TextPiece, lay_byte, lay_two, make_room};
use crate::pieces::Print;
use afs_outside::outside::{Failed, Sink, put_bytes};

/// The hexadecimal digit of a number below 16.
fn hex_digit(n: u8) -> u8
    requires { n < 16 }
    ensures { result ≡ digit_glyph false n }
{
    let letter = if 9 < n { b'a' - b'9' - 1 } else { 0 };
    b'0' + n + letter
}

/// The upper-case hexadecimal digit of a number below 16.
fn upper_hex_digit(n: u8) -> u8
    requires { n < 16 }
    ensures { result ≡ digit_glyph true n }
{
    match n {
        0..=9 => b'0' + n,
        _ => b'A' + (n - 10),
    }
}

/// How many bytes are spelled at once: their digits fit in a piece.
const CHUNK: usize = 256;

/// Parts bytes into their halves, each of which is a number below 16. This and the digits of them are two loops, as a compiler then takes
/// sixteen of them at once.
fn part(bytes: &[u8], halves: &mut [u8])
    requires { 2 * length bytes.now ≤ length halves.old }
    ensures parted { take (2 * length bytes.now) halves.new ≡ flat_map halves_of bytes.now }
    ensures small { All (λ n. n < 16) (take (2 * length bytes.now) halves.new) }
    ensures room { length halves.new ≡ length halves.old }
{
    for (i, byte) in bytes.iter().enumerate() {
        halves[2 * i] = *byte / 16;
        halves[2 * i + 1] = *byte % 16;
    }
}

/// Makes digits of numbers below 16.
fn spell(halves: &mut [u8])
    requires { All (λ n. n < 16) halves.old }
    ensures { halves.new ≡ map (digit_glyph false) halves.old }
{
    let mut i = 0;
    while i < halves.len() {
        halves[i] = hex_digit(halves[i]);
        i += 1;
    }
}

/// Not more than 256 bytes, as hexadecimal digits.
#[derive(Drop)]
struct Digits<'a>(&'a [u8]);

impl<'a> Short for Digits<'a> {
    ghost text = { λ digits. hex_text digits.0.now };

    ghost most = { λ digits. 2 * length digits.0.now };

    fn lay(&self, bytes: &mut [u8], at: usize) -> usize {
        let end = at + 2 * self.0.len();
        part(self.0, &mut bytes[at..end]);
        spell(&mut bytes[at..end]);
        end
    }
}

/// Lays not more than 256 bytes as hexadecimal digits.
fn lay_chunk<K: Sink>(sink: &mut K, piece: &mut TextPiece, chunk: &[u8]) -> Result<(), Failed>
    requires { length chunk.now ≤ 256 }
    ensures { Lays (hex_text chunk.now) piece.old piece.new (K.held sink.old) (K.held sink.new) (K.faults sink.old) (K.faults sink.new) result }
{
    make_room(sink, piece, 2 * chunk.len())?;
    piece.lay(&Digits(chunk));
    Ok(())
}

/// Lays bytes as hexadecimal digits.
pub(crate) fn lay_hex<K: Sink>(
    sink: &mut K,
    piece: &mut TextPiece,
    bytes: &[u8],
) -> Result<(), Failed>
    ensures { Lays (hex_text bytes.now) piece.old piece.new (K.held sink.old) (K.held sink.new) (K.faults sink.old) (K.faults sink.new) result }
{
    let mut rest = bytes;
    while 0 < rest.len() {
        let (chunk, behind) = rest.split_at(rest.len().min(CHUNK));
        lay_chunk(sink, piece, chunk)?;
        rest = behind;
    }
    Ok(())
}

/// Bytes as hexadecimal digits.
#[derive(Drop)]
pub struct Hex<'a>(pub &'a [u8]);

impl<'a> Print for Hex<'a> {
    ghost text = { λ hex. hex_text hex.0.now };

    fn print<K: Sink>(&self, sink: &mut K) -> Result<(), Failed> {
        let mut piece = TextPiece::new();
        lay_hex(sink, &mut piece, self.0)?;
        put_bytes(sink, piece.as_slice())
    }
}

/// A byte, as two hexadecimal digits.
#[derive(Drop)]
pub(crate) struct HexByte(pub u8);

impl Short for HexByte {
    ghost text = { λ byte. hex_byte byte.0 };

    ghost most = { λ _. 2 };

    fn lay(&self, bytes: &mut [u8], at: usize) -> usize {
        lay_two(bytes, at, hex_digit(self.0 / 16), hex_digit(self.0 % 16))
    }
}

/// 1 for each byte that stands in a name as itself: the letters, the digits, `.`, `_` and `-`.
static PLAIN: [u8; 256] = [
    0, 0, 0, 0, 0, 0, 0, 0, 0, 0, 0, 0, 0, 0, 0, 0, 0, 0, 0, 0, 0, 0, 0, 0, 0, 0, 0, 0, 0, 0, 0, 0,
    0, 0, 0, 0, 0, 0, 0, 0, 0, 0, 0, 0, 0, 1, 1, 0, 1, 1, 1, 1, 1, 1, 1, 1, 1, 1, 0, 0, 0, 0, 0, 0,
    0, 1, 1, 1, 1, 1, 1, 1, 1, 1, 1, 1, 1, 1, 1, 1, 1, 1, 1, 1, 1, 1, 1, 1, 1, 1, 1, 0, 0, 0, 0, 1,
    0, 1, 1, 1, 1, 1, 1, 1, 1, 1, 1, 1, 1, 1, 1, 1, 1, 1, 1, 1, 1, 1, 1, 1, 1, 1, 1, 0, 0, 0, 0, 0,
    0, 0, 0, 0, 0, 0, 0, 0, 0, 0, 0, 0, 0, 0, 0, 0, 0, 0, 0, 0, 0, 0, 0, 0, 0, 0, 0, 0, 0, 0, 0, 0,
    0, 0, 0, 0, 0, 0, 0, 0, 0, 0, 0, 0, 0, 0, 0, 0, 0, 0, 0, 0, 0, 0, 0, 0, 0, 0, 0, 0, 0, 0, 0, 0,
    0, 0, 0, 0, 0, 0, 0, 0, 0, 0, 0, 0, 0, 0, 0, 0, 0, 0, 0, 0, 0, 0, 0, 0, 0, 0, 0, 0, 0, 0, 0, 0,
    0, 0, 0, 0, 0, 0, 0, 0, 0, 0, 0, 0, 0, 0, 0, 0, 0, 0, 0, 0, 0, 0, 0, 0, 0, 0, 0, 0, 0, 0, 0, 0,
];

/// Whether a byte stands in a name as itself.
#[inline(always)]
fn is_plain(b: u8) -> bool
    ensures { result ≡ is_plain b }
{
    PLAIN[b as usize] == 1
}

fn put_name_byte<K: Sink>(sink: &mut K, b: u8) -> Result<(), Failed>
    ensures { Puts (name_byte b) (K.held sink.old) (K.held sink.new) (K.faults sink.old) (K.faults sink.new) result }
{
    if is_plain(b) {
        put_bytes(sink, &[b])
    } else {
        put_bytes(
            sink,
            &[b'%', upper_hex_digit(b / 16), upper_hex_digit(b % 16)],
        )
    }
}

/// Whether all bytes of a name stand as themselves.
fn is_all_plain(name: &[u8]) -> bool
    ensures { result ≡ list_all is_plain name.now }
{
    name.iter().all(|b| is_plain(*b))
}

/// Writes a name byte by byte.
#[tactic(auto, unfolding(spec_model::specs::LineText::name_text))]
fn put_escaped<K: Sink>(sink: &mut K, name: &[u8]) -> Result<(), Failed>
    ensures { Puts (name_text name.now) (K.held sink.old) (K.held sink.new) (K.faults sink.old) (K.faults sink.new) result }
{
    for b in name {
        put_name_byte(sink, *b)?;
    }
    Ok(())
}

/// A name, whose bytes are escaped where they aren't plain.
#[derive(Drop)]
pub struct Name<'a>(pub &'a [u8]);

impl<'a> Print for Name<'a> {
    ghost text = { λ name. name_text name.0.now };

    fn print<K: Sink>(&self, sink: &mut K) -> Result<(), Failed> {
        if is_all_plain(self.0) {
            put_bytes(sink, self.0)
        } else {
            put_escaped(sink, self.0)
        }
    }
}

/// Lays a byte of a name that isn't plain. It stands apart, as few are not.
#[cold]
#[inline(never)]
fn lay_escape(bytes: &mut [u8], at: usize, b: u8) -> usize
    requires { at + 3 ≤ length bytes.old }
    ensures { LaysAt (37 ∷ digit_glyph true (b / 16) ∷ digit_glyph true (b % 16) ∷ []) at bytes.old bytes.new result }
{
    let behind = lay_byte(bytes, at, b'%');
    lay_two(
        bytes,
        behind,
        upper_hex_digit(b / 16),
        upper_hex_digit(b % 16),
    )
}

/// Lays a byte of a name.
#[inline(always)]
fn lay_name_byte(bytes: &mut [u8], at: usize, b: u8) -> usize
    requires { at + 3 ≤ length bytes.old }
    ensures { LaysAt (name_byte b) at bytes.old bytes.new result }
{
    if is_plain(b) {
        lay_byte(bytes, at, b)
    } else {
        lay_escape(bytes, at, b)
    }
}

impl<'a> Short for Name<'a> {
    ghost text = { λ name. name_text name.0.now };

    ghost most = { λ name. 3 * length name.0.now };

    #[tactic(auto, unfolding(spec_model::specs::LineText::name_text))]
    #[inline(always)]
    fn lay(&self, bytes: &mut [u8], at: usize) -> usize {
        let mut end = at;
        for b in self.0 {
            end = lay_name_byte(bytes, end, *b);
        }
        end
    }
}
