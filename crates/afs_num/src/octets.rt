//! Bytes.

ghost use Rattle.std.specs.Prelude.{◌≡◌, ◌<◌, ◌^◌, ◌==◌, [], length, IfOk};

use crate::short::Short;
use std::alloc::{AllocError, Global};
use std::marker::Model;
use std::sync::ArcSlice;

/// Where bytes lie: few of them in the value itself, so that a name takes no memory; more in a block that copies share.
#[derive(Debug, Drop)]
enum Held {
    Few(Short),
    Many(ArcSlice<u8, Global>),
}

/// Bytes, which don't change; contracts see them as a list.
#[derive(Debug)]
pub struct Octets {
    alloc: Global,
    held: Held,
}

/// Bytes end by a drop of their own: what holds some has one drop to prove where it ends, wherever they lie.
impl Drop for Octets {
    fn drop(self) {
        let Octets { alloc: _, held: _ } = self;
    }
}

impl Model for Octets {
    ghost use Rattle.std.specs.Prelude.{List, ℕ};
    ghost use Rattle.afs_num.specs.Octets.{bytes_held};

    ghost Value = { List ℕ };

    ghost view = { λ o. bytes_held o.held };
}

impl Octets {
    /// No bytes. It takes no memory.
    pub fn new(alloc: Global) -> Octets
        ensures { result ≡ [] }
    {
        Octets {
            alloc,
            held: Held::Few(Short::new()),
        }
    }

    /// The bytes of a `Vec`. More than 30 of them stay where they lie, and what counts their copies takes memory.
    pub fn from_vec(bytes: Vec<u8>) -> Result<Octets, AllocError>
        ensures { IfOk result (λ o. o ≡ bytes.items) }
    {
        let alloc = *bytes.allocator();
        let held = match Short::of(bytes.as_slice()) {
            Some(short) => Held::Few(short),
            None => Held::Many(ArcSlice::from_vec(bytes)?),
        };
        Ok(Octets { alloc, held })
    }

    /// A copy of these bytes. 30 of them and fewer take no memory.
    pub fn from_slice(alloc: Global, bytes: &[u8]) -> Result<Octets, AllocError>
        ensures { IfOk result (λ o. o ≡ bytes.now) }
    {
        let held = match Short::of(bytes) {
            Some(short) => Held::Few(short),
            None => Held::Many(ArcSlice::from_slice(alloc, bytes)?),
        };
        Ok(Octets { alloc, held })
    }

    /// The bytes. It takes no memory.
    #[inline]
    pub fn as_slice(&self) -> &[u8]
        ensures { result.now ≡ self.now }
    {
        match &self.held {
            Held::Few(short) => short.as_slice(),
            Held::Many(bytes) => bytes.as_slice(),
        }
    }

    /// How many bytes there are.
    #[inline]
    pub fn len(&self) -> usize
        ensures value { result ≡ length self.now }
        ensures small { length self.now < 2 ^ 63 }
    {
        self.as_slice().len()
    }

    /// Whether there are no bytes.
    #[inline]
    pub fn is_empty(&self) -> bool
        ensures { result ≡ (length self.now == 0) }
    {
        self.as_slice().is_empty()
    }

    /// A copy, which shares the bytes: it takes no memory. It is refused where they have as many copies as can be counted.
    pub fn copy(&self, alloc: Global) -> Result<Octets, AllocError>
        ensures { IfOk result (λ o. o ≡ self.now) }
    {
        let held = match &self.held {
            Held::Few(short) => Held::Few(short.copy()),
            Held::Many(bytes) => Held::Many(bytes.clone()?),
        };
        Ok(Octets { alloc, held })
    }
}
