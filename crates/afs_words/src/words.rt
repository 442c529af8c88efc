//! The words of a line, read from left to right.

ghost use Rattle.std.specs.Prelude.{◌≡◌, ◌≤◌, ◌<◌, ◌+◌, ◌-◌, ◌*◌, ◌&&◌, Some, None, length, nat_le, IfSome, IfNone, IfOk, true, [], ◌∷◌, if◌then◌else◌};
ghost use Rattle.afs_num.specs.Names.{is_in};
ghost use Rattle.spec_model.specs.ScriptWords.{must, word_at, no_word_left, number_from, numeral, ranged, number_at, node_number_read, is_hex, hex_value, hex_from, field_at, fid_of};
ghost use Rattle.afs_words.specs.Reads.{Reads};

use crate::parts::Parts;
use afs_num::scripts::Reason;
use afs_num::sequences::Octets;
use afs_num::types::Fid;
use std::alloc::{AllocError, Global};

/// A test that has to pass.
pub fn must(good: bool, reason: Reason) -> Result<(), Reason>
    ensures { result ≡ must good reason }
{
    if good { Ok(()) } else { Err(reason) }
}

/// The next word.
#[tactic(auto, unfolding(spec_model::specs::ScriptWords::word_at))]
pub fn word<'a>(words: &mut Parts<'a>) -> Result<&'a [u8], Reason>
    ensures { Reads word_at (λ w. w.now) words.old words.new result }
{
    match words.part() {
        None | Some([]) => Err(Reason::Word),
        Some(word) => Ok(word),
    }
}

/// Whether no word is left over.
#[tactic(auto, unfolding(spec_model::specs::ScriptWords::no_word_left))]
pub fn end(words: &mut Parts<'_>) -> Result<(), Reason>
    ensures { result ≡ no_word_left words.old }
{
    match words.part() {
        None => Ok(()),
        Some(_) => Err(Reason::Word),
    }
}

/// The number with one more digit, if it stays at most `high`.
fn appended(high: u64, number: u64, digit: u8) -> Option<u64>
    ensures value { result ≡ (if is_in 48 57 digit && nat_le (number * 10 + (digit - 48)) high then Some (number * 10 + (digit - 48)) else None) }
    ensures bound { IfSome result (λ n. n ≤ high) }
{
    if !digit.is_ascii_digit() {
        return None;
    }
    let next = number
        .checked_mul(10)?
        .checked_add(u64::from(digit - b'0'))?;
    if next <= high { Some(next) } else { None }
}

fn number_from(high: u64, digits: &[u8]) -> Option<u64>
    ensures value { result ≡ number_from high 0 digits.now }
    ensures bound { IfSome result (λ n. n ≤ high) }
{
    let mut number = 0;
    for digit in digits {
        number = appended(high, number, *digit)?;
    }
    Some(number)
}

#[tactic(auto, unfolding(spec_model::specs::ScriptWords::numeral))]
fn numeral(high: u64, word: &[u8]) -> Option<u64>
    ensures value { result ≡ numeral high word.now }
    ensures bound { IfSome result (λ n. n ≤ high) }
{
    match word {
        [] => None,
        [b'0'] => Some(0),
        [b'0', ..] => None,
        _ => number_from(high, word),
    }
}

/// A number from `low` to `high`, in decimal without leading zeros.
#[tactic(auto, unfolding(spec_model::specs::ScriptWords::ranged))]
pub fn ranged(low: u64, high: u64, word: &[u8]) -> Option<u64>
    ensures value { result ≡ ranged low high word.now }
    ensures bound { IfSome result (λ n. n ≤ high) }
{
    let number = numeral(high, word)?;
    if low <= number { Some(number) } else { None }
}

#[tactic(auto, unfolding(spec_model::specs::ScriptWords::number_at))]
pub fn number(words: &mut Parts<'_>, low: u64, high: u64) -> Result<u64, Reason>
    ensures value { Reads (number_at low high) (λ n. n) words.old words.new result }
    ensures bound { IfOk result (λ n. n ≤ high) }
{
    let word = word(words)?;
    ranged(low, high, word).ok_or(Reason::Number)
}

/// The number of a node of the kind with this letter, of which there are `count`.
#[tactic(auto, unfolding(spec_model::specs::ScriptWords::node_number_read))]
pub fn node_number(letter: u8, count: u8, word: &[u8]) -> Option<u64>
    ensures value { result ≡ node_number_read letter count word.now }
    ensures bound { IfSome result (λ n. n ≤ count) }
{
    match word {
        [first, digits @ ..] if *first == letter => ranged(1, u64::from(count), digits),
        _ => None,
    }
}

pub fn is_hex(byte: u8) -> bool
    ensures { result ≡ is_hex byte }
{
    matches!(byte, b'0'..=b'9' | b'a'..=b'f')
}

fn hex_value(digit: u8) -> u8
    requires { is_hex digit ≡ true }
    ensures value { result ≡ hex_value digit }
    ensures bound { result < 16 }
{
    if digit <= b'9' {
        digit - b'0'
    } else {
        digit - b'a' + 10
    }
}

/// The first two digits, and those behind them.
pub fn next_pair(digits: &[u8]) -> Option<(u8, u8, &[u8])>
    ensures none { IfNone result (length digits.now < 2) }
    ensures some { IfSome result (λ p. digits.now ≡ p.0 ∷ p.1 ∷ p.2.now) }
    ensures less { IfSome result (λ p. length p.2.now < length digits.now) }
{
    match digits {
        [high, low, more @ ..] => Some((*high, *low, more)),
        _ => None,
    }
}

/// The byte that two digits stand for.
pub fn hex_byte(high: u8, low: u8) -> Option<u8>
    ensures { result ≡ (if is_hex high && is_hex low then Some (hex_value high * 16 + hex_value low) else None) }
{
    if is_hex(high) && is_hex(low) {
        Some(hex_value(high) * 16 + hex_value(low))
    } else {
        None
    }
}

/// The bytes that the digits stand for.
pub fn unhexed(alloc: Global, digits: &[u8]) -> Result<Option<Octets>, AllocError>
    ensures { IfOk result (λ bytes. bytes ≡ hex_from [] digits.now) }
{
    let mut bytes = Vec::with_capacity(alloc, digits.len() / 2)?;
    let mut rest = digits;
    while let Some((high, low, more)) = next_pair(rest) {
        match hex_byte(high, low) {
            Some(byte) => bytes.push(byte)?,
            None => return Ok(None),
        }
        rest = more;
    }
    if rest.is_empty() {
        Ok(Some(Octets::from_vec(bytes)?))
    } else {
        Ok(None)
    }
}

#[tactic(auto, unfolding(spec_model::specs::ScriptWords::field_at))]
fn field(fields: &mut Parts<'_>) -> Result<u32, Reason>
    ensures { Reads field_at (λ n. n) fields.old fields.new result }
{
    let word = fields.part().ok_or(Reason::Path)?;
    let number = ranged(0, 4_294_967_295, word).ok_or(Reason::Path)?;
    Ok(number as u32)
}

/// A fid's three numbers.
#[tactic(auto, unfolding(spec_model::specs::ScriptWords::fid_of))]
pub fn fid_of(mut fields: Parts<'_>) -> Result<Fid, Reason>
    ensures { result ≡ fid_of fields.entry }
{
    let volume = field(&mut fields)?;
    let vnode = field(&mut fields)?;
    let unique = field(&mut fields)?;
    must(fields.part().is_none(), Reason::Path)?;
    Ok(Fid {
        volume,
        vnode,
        unique,
    })
}
