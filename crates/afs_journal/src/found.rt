//! The records that a disk held when it was attached.

ghost use Rattle.std.specs.Prelude.{◌≡◌, ◌<◌, ◌^◌, ◌==◌, [], length, map, slice_get};
ghost use Rattle.std.specs.Option.{option_copied};
ghost use Rattle.afs_journal.specs.Found.{piece_of};

use std::alloc::Global;
use std::marker::Model;

/// Where a record lies among bytes: behind so many of them, and how long it is.
#[derive(Clone, Copy)]
pub(crate) struct Piece {
    pub(crate) start: usize,
    pub(crate) len: usize,
}

/// Records that lie in the bytes of a disk, as these were read: none of them is copied.
#[derive(Drop)]
pub struct Found {
    bytes: Vec<u8>,
    pieces: Vec<Piece>,
}

impl Model for Found {
    ghost use Rattle.std.specs.Prelude.{List, ℕ, map};
    ghost use Rattle.afs_journal.specs.Found.{piece_of};

    ghost Value = { List (List ℕ) };

    ghost view = { λ f. map (piece_of f.bytes.items) f.pieces.items };
}

/// The bytes of a piece.
fn piece_in(bytes: &[u8], piece: Piece) -> &[u8]
    ensures { result.now ≡ piece_of bytes.now piece }
{
    let (_, behind) = bytes.split_at(piece.start.min(bytes.len()));
    behind.split_at(piece.len.min(behind.len())).0
}

impl Found {
    /// No records.
    pub(crate) fn new(alloc: Global) -> Found
        ensures { result ≡ [] }
    {
        Found {
            bytes: Vec::new(alloc),
            pieces: Vec::new(alloc),
        }
    }

    /// The records that are these pieces of the bytes.
    pub(crate) fn of(bytes: Vec<u8>, pieces: Vec<Piece>) -> Found
        ensures { result ≡ map (piece_of bytes.items) pieces.items }
    {
        Found { bytes, pieces }
    }

    /// How many records there are.
    pub fn len(&self) -> usize
        ensures value { result ≡ length self.now }
        ensures small { length self.now < 2 ^ 63 }
    {
        self.pieces.len()
    }

    /// Whether there are no records.
    pub fn is_empty(&self) -> bool
        ensures { result ≡ (length self.now == 0) }
    {
        self.pieces.is_empty()
    }

    /// The record at a place, from 0. It takes no memory.
    pub fn get(&self, place: usize) -> Option<&[u8]>
        ensures { option_copied result ≡ slice_get self.now place }
    {
        match self.pieces.get(place) {
            Some(piece) => Some(piece_in(&self.bytes, *piece)),
            None => None,
        }
    }
}
