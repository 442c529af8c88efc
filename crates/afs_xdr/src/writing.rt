ghost use Rattle.std.specs.Prelude.{◌≡◌, ◌+◌, ◌<◌, ◌≤◌, ◌*◌, ◌==◌, ◌^◌, [], ◌++◌, length, take, replicate, IfOk, OnOk, OnErr, vec_len};
ghost use Rattle.std.specs.Vec.{vec_capacity};
ghost use Rattle.afs_xdr.specs.Words.{word, words, opaque, AreWords};

use crate::reading::pad_of;
use std::alloc::{AllocError, Global};
use std::marker::Model;
use std::mem::replace;

/// Appends fields one after another. Want of memory leaves it as it was.
#[derive(Drop)]
pub struct Writer {
    bytes: Vec<u8>,
}

impl Model for Writer {
    ghost use Rattle.std.specs.Prelude.{ℕ, List};

    ghost Value = { List ℕ };

    ghost view = { λ w. w.bytes.items };
}

impl Writer {
    /// No bytes yet. It takes no memory.
    pub fn new(alloc: Global) -> Writer
        ensures { result ≡ [] }
    {
        Writer {
            bytes: Vec::new(alloc),
        }
    }

    /// No bytes yet. Memory for so many is asked for at once, which changes no value.
    pub fn with_capacity(alloc: Global, capacity: usize) -> Result<Writer, AllocError>
        ensures { IfOk result (λ w. w ≡ []) }
    {
        Ok(Writer {
            bytes: Vec::with_capacity(alloc, capacity)?,
        })
    }

    /// Appends a word.
    #[tactic(auto, unfolding(crate::specs::Words::word))]
    #[inline]
    pub fn word(&mut self, n: u32) -> Result<(), AllocError>
        ensures ok { OnOk result (self.new ≡ self.old ++ word n) }
        ensures fits { n < 2 ^ 32 }
        ensures err { OnErr result (self.new ≡ self.old) }
    {
        self.bytes.extend_from_slice(&n.to_be_bytes())
    }

    /// Appends words.
    pub fn words(&mut self, ns: &[u32]) -> Result<(), AllocError>
        ensures ok { OnOk result (self.new ≡ self.old ++ words ns.now) }
        ensures fits { AreWords ns.now }
        ensures err { OnErr result (self.new ≡ self.old) }
    {
        self.bytes.reserve(4 * ns.len())?;
        let alloc = *self.bytes.allocator();
        let bytes = replace(&mut self.bytes, Vec::new(alloc));
        self.bytes = with_words(bytes, ns);
        Ok(())
    }

    /// How many bytes there are.
    pub fn len(&self) -> usize
        ensures { result ≡ length self.now }
    {
        self.bytes.len()
    }

    /// Whether there are no bytes.
    pub fn is_empty(&self) -> bool
        ensures { result ≡ (length self.now == 0) }
    {
        self.bytes.is_empty()
    }

    /// Takes away all but the first bytes, so many.
    pub fn truncate(&mut self, len: usize)
        ensures { self.new ≡ take len self.old }
    {
        self.bytes.truncate(len);
    }

    /// Appends an opaque.
    #[tactic(auto, unfolding(crate::specs::Words::opaque, crate::specs::Words::pad))]
    pub fn opaque(&mut self, bytes: &[u8]) -> Result<(), AllocError>
        requires { length bytes.now < 2 ^ 32 }
        ensures ok { OnOk result (self.new ≡ self.old ++ opaque bytes.now) }
        ensures err { OnErr result (self.new ≡ self.old) }
    {
        let pad = pad_of(bytes.len());
        self.bytes.reserve(4 + bytes.len() + pad)?;
        put_word(&mut self.bytes, bytes.len() as u32);
        put(&mut self.bytes, bytes);
        put_zeros(&mut self.bytes, pad);
        Ok(())
    }

    /// The bytes, in the block in which they were laid; or in one of their size, where more than a quarter of it would be
    /// left free.
    pub fn into_vec(self) -> Result<Vec<u8>, AllocError>
        ensures { IfOk result (λ v. v.items ≡ self) }
    {
        let Writer { bytes } = self;
        if bytes.capacity() <= bytes.len() + bytes.len() / 4 {
            Ok(bytes)
        } else {
            Vec::from_slice(*bytes.allocator(), bytes.as_slice())
        }
    }
}

/// Appends bytes where there is room for them. It is laid into its callers, so that of a word four bytes are moved at once.
#[inline(always)]
fn put(out: &mut Vec<u8>, bytes: &[u8])
    requires { vec_len out.old + length bytes.now ≤ vec_capacity out.old }
    ensures items { out.new.items ≡ out.old.items ++ bytes.now }
    ensures len { vec_len out.new ≡ vec_len out.old + length bytes.now }
    ensures capacity { vec_capacity out.old ≤ vec_capacity out.new }
{
    let Ok(()) = out.extend_from_slice(bytes) else {
        unreachable!()
    };
}

/// Appends a word where there is room for it.
#[tactic(auto, unfolding(crate::specs::Words::word))]
#[inline(always)]
fn put_word(out: &mut Vec<u8>, n: u32)
    requires { vec_len out.old + 4 ≤ vec_capacity out.old }
    ensures items { out.new.items ≡ out.old.items ++ word n }
    ensures len { vec_len out.new ≡ vec_len out.old + 4 }
    ensures capacity { vec_capacity out.old ≤ vec_capacity out.new }
{
    put(out, &n.to_be_bytes());
}

/// The bytes of a word behind these, where there is room for them. Each is pushed without a look at the room, and a compiler writes
/// the four at once.
#[tactic(auto, unfolding(crate::specs::Words::word))]
#[inline(always)]
fn push_word(out: &mut Vec<u8>, n: u32)
    requires { vec_len out.old + 4 ≤ vec_capacity out.old }
    ensures items { out.new.items ≡ out.old.items ++ word n }
    ensures len { vec_len out.new ≡ vec_len out.old + 4 }
    ensures capacity { vec_capacity out.new ≡ vec_capacity out.old }
{
    let [first, second, third, fourth] = n.to_be_bytes();
    out.push_reserved(first);
    out.push_reserved(second);
    out.push_reserved(third);
    out.push_reserved(fourth);
}

/// The bytes of words behind these, where there is room for them. The vector is moved here and back, so that its length and its place
/// stay in registers: behind a reference each byte that is written might be one of theirs.
fn with_words(bytes: Vec<u8>, ns: &[u32]) -> Vec<u8>
    requires { vec_len bytes + 4 * length ns.now ≤ vec_capacity bytes }
    ensures { result.items ≡ bytes.items ++ words ns.now }
{
    let mut out = bytes;
    for n in ns {
        push_word(&mut out, *n);
    }
    out
}

/// Appends so many zero bytes, at most three, where there is room for them.
fn put_zeros(out: &mut Vec<u8>, count: usize)
    requires few { count < 4 }
    requires room { vec_len out.old + count ≤ vec_capacity out.old }
    ensures { out.new.items ≡ out.old.items ++ replicate count 0 }
{
    match count {
        0 => {}
        1 => put(out, &[0]),
        2 => put(out, &[0, 0]),
        _ => put(out, &[0, 0, 0]),
    }
}
