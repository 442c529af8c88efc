//! The pieces of a dump that are sent, one after the other.

ghost use Rattle.std.specs.Prelude.{◌≡◌, ◌≤◌, ◌<◌, ◌-◌, length, nat_lt, not, take, IfOk};
ghost use Rattle.spec_volrows.specs.VolRow.{most_piece};
ghost use Rattle.spec_dumps.specs.Streams.{piece_at};

use afs_num::sequences::Octets;
use afs_num::types::Mem;
use std::alloc::Global;

/// At most so many bytes of a dump go in one piece.
pub const MOST_PIECE: usize = 33_554_432;

/// The first of these bytes, so many as go in one piece.
fn front(bytes: &[u8]) -> &[u8]
    ensures { result.now ≡ take most_piece bytes.entry.now }
{
    if bytes.len() <= MOST_PIECE {
        bytes
    } else {
        bytes.split_at(MOST_PIECE).0
    }
}

/// The first piece of a dump, which may be all of it; then the bytes are shared.
fn first_piece(alloc: Global, whole: &Octets) -> Mem<Octets>
    ensures { IfOk result (λ p. p ≡ take most_piece whole.now) }
{
    if whole.len() <= MOST_PIECE {
        Ok(whole.copy(alloc)?)
    } else {
        Octets::from_slice(alloc, front(whole.as_slice()))
    }
}

/// The piece of a dump from this offset on.
pub fn piece_of(alloc: Global, whole: &Octets, offset: usize) -> Mem<Octets>
    requires { offset ≤ length whole.now }
    ensures { IfOk result (λ p. p ≡ piece_at most_piece offset whole.now) }
{
    if offset == 0 {
        first_piece(alloc, whole)
    } else {
        Octets::from_slice(alloc, front(whole.as_slice().split_at(offset).1))
    }
}

/// Whether the piece of a dump of this length from this offset on is its last.
pub fn is_last_piece(offset: usize, length: usize) -> bool
    requires { offset ≤ length }
    ensures { result ≡ not (nat_lt most_piece (length - offset)) }
{
    length - offset <= MOST_PIECE
}
