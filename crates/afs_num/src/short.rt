//! Few bytes, which lie in the value itself.

ghost use Rattle.std.specs.Prelude.{◌≡◌, ◌<◌, ◌≤◌, [], length, IfSome, IfNone};

use std::marker::Model;

/// How many bytes lie in the value at most. With its length and the mark of its kind a value of `Octets` takes 32 bytes.
pub const MOST: usize = 30;

/// At most 30 bytes.
#[derive(Debug, Drop)]
pub struct Short {
    len: u8,
    bytes: [u8; MOST],
}

impl Model for Short {
    ghost use Rattle.std.specs.Prelude.{◌≡◌, ◌≤◌, List, ℕ, length, take};

    ghost Value = { List ℕ };

    ghost view = { λ s. take s.len s.bytes };

    ghost invariant = { λ s. (s.len ≤ 30) × (length s.bytes ≡ 30) };
}

impl Short {
    /// No bytes.
    #[inline]
    pub fn new() -> Short
        ensures { result ≡ [] }
    {
        Short {
            len: 0,
            bytes: [0; MOST],
        }
    }

    /// These bytes, where they are few enough.
    #[inline]
    pub fn of(bytes: &[u8]) -> Option<Short>
        ensures some { IfSome result (λ s. s ≡ bytes.now) }
        ensures none { IfNone result (30 < length bytes.now) }
    {
        if bytes.len() > MOST {
            return None;
        }
        let mut held = [0; MOST];
        held[..bytes.len()].copy_from_slice(bytes);
        Some(Short {
            len: bytes.len() as u8,
            bytes: held,
        })
    }

    #[inline]
    pub fn as_slice(&self) -> &[u8]
        ensures value { result.now ≡ self.now }
        ensures few { length self.now ≤ 30 }
    {
        self.bytes.split_at(self.len as usize).0
    }

    /// A copy.
    #[inline]
    pub fn copy(&self) -> Short
        ensures { result ≡ self.now }
    {
        Short {
            len: self.len,
            bytes: self.bytes,
        }
    }
}
