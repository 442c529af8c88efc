//! Bytes and modes, as a script writes them.

ghost use Rattle.std.specs.Prelude.{◌≡◌, ◌≤◌, length, IfSome};
ghost use Rattle.std.specs.List.{list_all};
ghost use Rattle.spec_history.specs.Written.{bytes_in};
ghost use Rattle.afs_words.specs.Words.{is_digit, numeral_goes_on, octal_digit, is_numeral, byte_of, hex_in, fill_of, fill_in, written_of, written_at, octal_from, octal_in, mode_at};
ghost use Rattle.afs_words.specs.Reads.{Reads, ReadsInMemory, Gives};

use crate::faults::LineFault;
use crate::parts::Parts;
use crate::words::{hex_byte, must, ranged, unhexed, word};
use afs_num::scripts::Reason;
use spec_history::acts::Written;
use std::alloc::Global;

/// The most bytes of a file.
pub const CONTENTS: usize = 2_097_152;

/// The most bytes of a link's text, and of an access list.
pub const TEXT: usize = 1024;

fn is_digit(byte: u8) -> bool
    ensures { result ≡ is_digit byte }
{
    byte.is_ascii_digit()
}

fn are_digits(word: &[u8]) -> bool
    ensures { result ≡ list_all is_digit word.now }
{
    word.iter().all(|byte| is_digit(*byte))
}

fn numeral_goes_on(first: u8, more: &[u8]) -> bool
    ensures { result ≡ numeral_goes_on first more.now }
{
    if first == b'0' {
        more.is_empty()
    } else {
        is_digit(first) && are_digits(more)
    }
}

/// Whether these are the digits of a number, of any size, without leading zeros.
#[tactic(auto, unfolding(crate::specs::Words::is_numeral))]
fn is_numeral(word: &[u8]) -> bool
    ensures { result ≡ is_numeral word.now }
{
    match word {
        [] => false,
        [first, more @ ..] => numeral_goes_on(*first, more),
    }
}

#[tactic(auto, unfolding(crate::specs::Words::byte_of))]
fn byte_of(digits: &[u8]) -> Option<u8>
    ensures { result ≡ byte_of digits.now }
{
    match digits {
        [high, low] => hex_byte(*high, *low),
        _ => None,
    }
}

#[tactic(auto, unfolding(crate::specs::Words::hex_in))]
fn hex_in(alloc: Global, most: usize, digits: &[u8]) -> Result<Written, LineFault>
    ensures { Gives (hex_in most digits.now) result }
{
    let bytes = unhexed(alloc, digits)?.ok_or(Reason::Contents)?;
    must(bytes.len() <= most, Reason::Limit)?;
    Ok(Written::Hex(bytes))
}

#[tactic(auto, unfolding(crate::specs::Words::fill_of))]
fn fill_of(most: usize, count: &[u8], digits: &[u8]) -> Result<Written, Reason>
    requires { most ≤ 2097152 }
    ensures { result ≡ fill_of most count.now digits.now }
{
    must(is_numeral(count), Reason::Contents)?;
    let byte = byte_of(digits).ok_or(Reason::Contents)?;
    let count = ranged(0, most as u64, count).ok_or(Reason::Limit)? as u32;
    Ok(Written::Fill { count, byte })
}

/// The three fields are `fill`, a count and a byte; this has the last two.
fn fill_in(most: usize, mut fields: Parts<'_>) -> Result<Written, Reason>
    requires { most ≤ 2097152 }
    ensures { result ≡ fill_in most fields.entry }
{
    let count = fields.part().ok_or(Reason::Contents)?;
    let digits = fields.part().ok_or(Reason::Contents)?;
    must(fields.part().is_none(), Reason::Contents)?;
    fill_of(most, count, digits)
}

#[tactic(auto, unfolding(crate::specs::Words::written_of))]
fn written_of(alloc: Global, most: usize, word: &[u8]) -> Result<Written, LineFault>
    requires { most ≤ 2097152 }
    ensures { Gives (written_of most word.now) result }
{
    if word.starts_with(b"hex:") {
        hex_in(alloc, most, word.split_at(4).1)
    } else if word.starts_with(b"fill:") {
        Ok(fill_in(most, Parts::new(word.split_at(5).1, b':'))?)
    } else {
        Err(LineFault::Bad(Reason::Contents))
    }
}

/// At most so many bytes.
#[tactic(auto, unfolding(crate::specs::Words::written_at))]
pub fn written(alloc: Global, words: &mut Parts<'_>, most: usize) -> Result<Written, LineFault>
    requires { most ≤ 2097152 }
    ensures { ReadsInMemory (written_at most) (λ w. w) words.old words.new result }
{
    let word = word(words)?;
    written_of(alloc, most, word)
}

/// How many bytes these are.
pub fn length_of(bytes: &Written) -> usize
    ensures { result ≡ length (bytes_in bytes.now) }
{
    match bytes {
        Written::Hex(bytes) => bytes.len(),
        Written::Fill { count, .. } => *count as usize,
    }
}

/// The number with one more digit, if it stays at most 7777.
fn octal_digit(number: u32, digit: u8) -> Option<u32>
    requires { number ≤ 4095 }
    ensures value { result ≡ octal_digit number digit }
    ensures bound { IfSome result (λ n. n ≤ 4095) }
{
    if !matches!(digit, b'0'..=b'7') {
        return None;
    }
    let next = number * 8 + u32::from(digit - b'0');
    if next <= 4095 { Some(next) } else { None }
}

fn octal_from(digits: &[u8]) -> Option<u32>
    ensures { result ≡ octal_from 0 digits.now }
{
    let mut number = 0;
    for digit in digits {
        number = octal_digit(number, *digit)?;
    }
    Some(number)
}

/// A number of base 8.
#[tactic(auto, unfolding(crate::specs::Words::octal_in))]
fn octal(word: &[u8]) -> Option<u32>
    ensures { result ≡ octal_in word.now }
{
    match word {
        [] => None,
        [b'0'] => Some(0),
        [b'0', ..] => None,
        _ => octal_from(word),
    }
}

#[tactic(auto, unfolding(crate::specs::Words::mode_at))]
pub fn mode(words: &mut Parts<'_>) -> Result<u32, Reason>
    ensures { Reads mode_at (λ n. n) words.old words.new result }
{
    let word = word(words)?;
    octal(word).ok_or(Reason::Number)
}
