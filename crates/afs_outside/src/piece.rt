//! Bytes that wait to be put.

ghost use Rattle.std.specs.Prelude.{◌≡◌, ◌+◌, ◌-◌, ◌≤◌, [], ◌++◌, length, drop};

use std::marker::Model;

/// At most so many bytes, which lie in the value itself. What is let go isn't written over, as it is in an `ArrayVec`.
#[derive(Drop)]
pub struct Piece<const N: usize> {
    bytes: [u8; N],
    len: usize,
}

impl<const N: usize> Model for Piece<N> {
    ghost use Rattle.std.specs.Prelude.{◌≡◌, ◌≤◌, List, ℕ, length, take};

    ghost Value = { List ℕ };

    ghost view = { λ p. take p.len p.bytes };

    ghost invariant = { λ p. (p.len ≤ N) × (length p.bytes ≡ N) };
}

impl<const N: usize> Piece<N> {
    pub fn new() -> Piece<N>
        ensures { result ≡ [] }
    {
        Piece {
            bytes: [0; N],
            len: 0,
        }
    }

    #[inline(always)]
    pub fn as_slice(&self) -> &[u8]
        ensures value { result.now ≡ self.now }
        ensures fits { length result.now ≤ N }
    {
        self.bytes.split_at(self.len).0
    }

    /// How many bytes more it has room for.
    #[inline(always)]
    pub fn room(&self) -> usize
        ensures { result + length self.now ≡ N }
    {
        N - self.len
    }

    pub fn clear(&mut self)
        ensures { self.new ≡ [] }
    {
        self.len = 0;
    }

    #[inline(always)]
    pub fn push_bytes(&mut self, bytes: &[u8])
        requires { length self.old + length bytes.now ≤ N }
        ensures { self.new ≡ self.old ++ bytes.now }
    {
        let len = self.len;
        let end = len + bytes.len();
        let all = &mut self.bytes[..];
        all[len..end].copy_from_slice(bytes);
        self.len = end;
    }

    /// Lets go of so many bytes at the front. Where those are all no byte moves.
    pub fn remove_front(&mut self, n: usize)
        requires { n ≤ length self.old }
        ensures { self.new ≡ drop n self.old }
    {
        if n == self.len {
            self.len = 0;
            return;
        }
        let mut rest = Piece::new();
        rest.push_bytes(self.as_slice().split_at(n).1);
        *self = rest;
    }
}
