//! The parts of an access list's text, read from left to right.

ghost use Rattle.std.specs.Prelude.{◌≡◌, ◌≤◌, ◌+◌, ◌-◌, ◌*◌, [], length, Some, None, if◌then◌else◌};
ghost use Rattle.std.specs.List.{prefix_len};
ghost use Rattle.spec_ideal.specs.AccessLists.{digit_fits, digits_at, line_number_at, count_at, is_acl_byte, has_entry_named, name_length, named_at, name_at, acl_entry_at, entries_at, must_be_few, must_end};
ghost use Rattle.afs_acl.specs.Reading.{Gives, Reads};

use crate::stops::Stop;
use afs_num::acls::{AclEntries, AclEntry};
use afs_num::sequences::Octets;
use std::alloc::Global;

/// The number with one more digit, where it goes on so.
fn appended(most: u32, n: u32, digit: u8) -> Option<u32>
    ensures { result ≡ (if digit_fits most n digit then Some (n * 10 + (digit - 48)) else None) }
{
    if n == 0 || !digit.is_ascii_digit() {
        return None;
    }
    let next = u64::from(n) * 10 + u64::from(digit - b'0');
    if next <= u64::from(most) {
        Some(next as u32)
    } else {
        None
    }
}

/// The number with the digits behind it, up to a newline, and what follows.
fn digits(bytes: &[u8], most: u32, first: u32) -> Result<(u32, &[u8]), Stop<'_>>
    ensures { Reads (λ r. (r.0, r.1.now)) (digits_at most first bytes.now) result }
{
    let mut n = first;
    let mut rest = bytes;
    while let Some((byte, after)) = rest.split_first() {
        if *byte == b'\n' {
            return Ok((n, after));
        }
        match appended(most, n, *byte) {
            Some(next) => n = next,
            None => return Err(Stop::BadFrom(rest)),
        }
        rest = after;
    }
    Err(Stop::BadFrom(rest))
}

/// The number on the line that stands first, and what follows it.
#[tactic(auto, unfolding(spec_ideal::specs::AccessLists::line_number_at))]
pub fn line_number(bytes: &[u8], most: u32) -> Result<(u32, &[u8]), Stop<'_>>
    ensures { Reads (λ r. (r.0, r.1.now)) (line_number_at most bytes.now) result }
{
    match bytes.split_first() {
        Some((digit, rest)) if digit.is_ascii_digit() => {
            digits(rest, most, u32::from(*digit - b'0'))
        }
        _ => Err(Stop::BadFrom(bytes)),
    }
}

/// A count of entries.
#[tactic(auto, unfolding(spec_ideal::specs::AccessLists::count_at))]
pub fn count(bytes: &[u8]) -> Result<(u32, &[u8]), Stop<'_>>
    ensures { Reads (λ r. (r.0, r.1.now)) (count_at bytes.now) result }
{
    line_number(bytes, u32::MAX)
}

fn is_name_byte(byte: u8) -> bool
    ensures { result ≡ is_acl_byte byte }
{
    byte != b'\t' && byte != b'\n'
}

/// How many bytes stand before the first tab or newline.
fn line_length(bytes: &[u8]) -> usize
    ensures value { result ≡ prefix_len is_acl_byte bytes.now }
    ensures bound { result ≤ length bytes.now }
{
    bytes.iter().take_while(|byte| is_name_byte(**byte)).count()
}

/// How many bytes may be a name's.
pub fn name_length(bytes: &[u8]) -> usize
    ensures value { result ≡ name_length bytes.now }
    ensures bound { result ≤ length bytes.now }
{
    let count = line_length(bytes);
    if count < 64 { count } else { 64 }
}

/// Whether one of the entries has the name.
fn is_named(entries: &[AclEntry], name: &[u8]) -> bool
    ensures { result ≡ has_entry_named name.now entries.now }
{
    entries.iter().any(|entry| entry.name.as_slice() == name)
}

/// What follows the tab behind a name, where the name is new.
#[tactic(auto, unfolding(spec_ideal::specs::AccessLists::named_at))]
fn named<'a>(
    others: &[AclEntry],
    name: &'a [u8],
    bytes: &'a [u8],
) -> Result<(&'a [u8], &'a [u8]), Stop<'a>>
    ensures { Reads (λ r. (r.0.now, r.1.now)) (named_at others.now name.entry.now bytes.entry.now) result }
{
    match bytes.split_first() {
        Some((b'\t', rest)) if !name.is_empty() && !is_named(others, name) => Ok((name, rest)),
        _ => Err(Stop::BadFrom(bytes)),
    }
}

/// A name that none of the others has, and what follows its tab.
#[tactic(auto, unfolding(spec_ideal::specs::AccessLists::name_at))]
pub fn name<'a>(others: &[AclEntry], bytes: &'a [u8]) -> Result<(&'a [u8], &'a [u8]), Stop<'a>>
    ensures { Reads (λ r. (r.0.now, r.1.now)) (name_at others.now bytes.entry.now) result }
{
    let (name, rest) = bytes.split_at(name_length(bytes));
    named(others, name, rest)
}

/// An entry behind the others, and what follows it.
#[tactic(auto, unfolding(spec_ideal::specs::AccessLists::acl_entry_at))]
fn entry<'a>(
    alloc: Global,
    others: &[AclEntry],
    bytes: &'a [u8],
) -> Result<(AclEntry, &'a [u8]), Stop<'a>>
    ensures { Gives (λ r. (r.0, r.1.now)) (acl_entry_at others.now bytes.entry.now) result }
{
    let (name, rest) = name(others, bytes)?;
    let (rights, rest) = line_number(rest, 127)?;
    let name = Octets::from_slice(alloc, name)?;
    Ok((AclEntry { name, rights }, rest))
}

/// So many entries, and what follows them.
#[tactic(auto, using(crate::proofs::Loops::goes_on, crate::proofs::Loops::stops))]
pub fn entries<'a>(
    alloc: Global,
    count: u32,
    bytes: &'a [u8],
) -> Result<(AclEntries, &'a [u8]), Stop<'a>>
    ensures { Gives (λ r. (r.0, r.1.now)) (entries_at count [] bytes.entry.now) result }
{
    let mut entries = AclEntries::new(alloc);
    let mut rest = bytes;
    for _ in 0..count {
        let (next, after) = entry(alloc, entries.as_slice(), rest)?;
        entries.push(next)?;
        rest = after;
    }
    Ok((entries, rest))
}

/// Few enough entries, by the sum of their counts.
pub fn must_be_few<'a>(count: u64) -> Result<(), Stop<'a>>
    ensures { Reads (λ u. u) (must_be_few count) result }
{
    if count <= 20 {
        Ok(())
    } else {
        Err(Stop::TooMany(count))
    }
}

/// Nothing is left.
pub fn must_end(bytes: &[u8]) -> Result<(), Stop<'_>>
    ensures { Reads (λ u. u) (must_end bytes.now) result }
{
    if bytes.is_empty() {
        Ok(())
    } else {
        Err(Stop::BadFrom(bytes))
    }
}
