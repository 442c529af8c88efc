ghost use Rattle.std.specs.Prelude.{◌≡◌, ◌≤◌, ◌<◌, ◌^◌, length, IfOk, OnErr};
ghost use Rattle.afs_xdr.specs.Words.{word_at, opaque_at, counted_at, end_at, are_zero, pad_length};
ghost use Rattle.afs_xdr.specs.Reading.{Reading, Reads, Gives, KeepsEnd};

use crate::faults::XdrFault;
use std::marker::Model;

/// Reads fields one after another from bytes. A refusal leaves it as it was, and no call takes memory.
#[derive(Drop)]
pub struct Reader<'a> {
    size: usize,
    left: &'a [u8],
}

impl<'a> Model for Reader<'a> {
    ghost use Rattle.afs_xdr.specs.Reading.{Reading};
    ghost use Rattle.std.specs.Prelude.{◌-◌, ◌≤◌, length};

    ghost Value = { Reading };

    ghost view = { λ r. record { at = r.size - length r.left.now; left = r.left.now } };

    ghost invariant = { λ r. length r.left.now ≤ r.size };
}

/// How many pad bytes stand behind `count` bytes.
pub(crate) fn pad_of(count: usize) -> usize
    ensures value { result ≡ pad_length count }
    ensures few { result < 4 }
{
    (4 - count % 4) % 4
}

/// Whether all bytes are zero.
fn is_zero(bytes: &[u8]) -> bool
    ensures { result ≡ are_zero bytes.now }
{
    bytes.iter().all(|b| *b == 0)
}

impl<'a> Reader<'a> {
    /// A reader at the first byte.
    pub fn new(bytes: &'a [u8]) -> Reader<'a>
        ensures at { result.at ≡ 0 }
        ensures left { result.left ≡ bytes.entry.now }
    {
        Reader {
            size: bytes.len(),
            left: bytes,
        }
    }

    /// The next word. `Short` where fewer than four bytes are left.
    #[tactic(auto, unfolding(crate::specs::Words::word_at))]
    pub fn word(&mut self) -> Result<u32, XdrFault>
        ensures value { Reads word_at (λ n. n) self.old self.new result }
        ensures end { KeepsEnd self.old self.new }
        ensures err { OnErr result (self.new ≡ self.old) }
    {
        match self.left.split_first_chunk::<4>() {
            Some((word, rest)) => {
                self.left = rest;
                Ok(u32::from_be_bytes(*word))
            }
            None => Err(XdrFault::Short),
        }
    }

    /// The next opaque. `TooLong` where its count is above `max`; else `Short` where fewer bytes than the count and
    /// its pad are left; else `BadPad` where a pad byte isn't zero.
    #[tactic(auto, unfolding(crate::specs::Words::opaque_at))]
    pub fn opaque(&mut self, max: u32) -> Result<&'a [u8], XdrFault>
        ensures value { Reads (opaque_at max) (λ b. b.now) self.old self.new result }
        ensures limit { IfOk result (λ b. length b.now ≤ max) }
        ensures end { KeepsEnd self.old self.new }
        ensures err { OnErr result (self.new ≡ self.old) }
    {
        let (bytes, rest) = opaque_of(self.left, max)?;
        self.left = rest;
        Ok(bytes)
    }

    /// A second reader at the same byte, to try what may be refused.
    pub fn fork(&self) -> Reader<'a>
        ensures { result ≡ self.now }
    {
        Reader {
            size: self.size,
            left: self.left,
        }
    }

    /// How many bytes are left.
    pub fn left_len(&self) -> usize
        ensures { result ≡ length self.now.left }
    {
        self.left.len()
    }

    /// `Extra` where bytes are left.
    pub fn end(&self) -> Result<(), XdrFault>
        ensures { Gives (λ u. u) (end_at self.now.left) result }
    {
        if self.left.is_empty() {
            Ok(())
        } else {
            Err(XdrFault::Extra)
        }
    }

    /// How many bytes were read.
    pub fn at(&self) -> u32
        requires { self.now.at < 2 ^ 32 }
        ensures { result ≡ self.now.at }
    {
        (self.size - self.left.len()) as u32
    }
}

/// The word that stands first, and what follows it.
#[tactic(auto, unfolding(crate::specs::Words::word_at))]
fn word_of(bytes: &[u8]) -> Result<(u32, &[u8]), XdrFault>
    ensures value { Gives (λ r. (r.0, r.1.now)) (word_at bytes.now) result }
    ensures shorter { IfOk result (λ r. length r.1.now ≤ length bytes.now) }
{
    match bytes.split_first_chunk::<4>() {
        Some((word, rest)) => Ok((u32::from_be_bytes(*word), rest)),
        None => Err(XdrFault::Short),
    }
}

/// The `count` bytes that stand first, and what follows their pad.
#[tactic(auto, unfolding(crate::specs::Words::counted_at))]
fn counted_of(bytes: &[u8], count: u32) -> Result<(&[u8], &[u8]), XdrFault>
    ensures value { Gives (λ r. (r.0.now, r.1.now)) (counted_at count bytes.now) result }
    ensures count { IfOk result (λ r. length r.0.now ≡ count) }
    ensures shorter { IfOk result (λ r. length r.1.now ≤ length bytes.now) }
{
    let count = count as usize;
    let pad = pad_of(count);
    if bytes.len() < count + pad {
        return Err(XdrFault::Short);
    }
    let (body, rest) = bytes.split_at(count);
    let (zeros, after) = rest.split_at(pad);
    if is_zero(zeros) {
        Ok((body, after))
    } else {
        Err(XdrFault::BadPad)
    }
}

/// The opaque that stands first, and what follows it.
#[tactic(auto, unfolding(crate::specs::Words::opaque_at))]
fn opaque_of(bytes: &[u8], max: u32) -> Result<(&[u8], &[u8]), XdrFault>
    ensures value { Gives (λ r. (r.0.now, r.1.now)) (opaque_at max bytes.now) result }
    ensures limit { IfOk result (λ r. length r.0.now ≤ max) }
    ensures shorter { IfOk result (λ r. length r.1.now ≤ length bytes.now) }
{
    let (count, rest) = word_of(bytes)?;
    if count > max {
        return Err(XdrFault::TooLong);
    }
    counted_of(rest, count)
}
