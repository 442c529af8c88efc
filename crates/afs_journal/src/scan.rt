// The whole records of bytes that a crash may have left.
ghost use Rattle.std.specs.Prelude.{◌≡◌, ◌≤◌, ◌<◌, ◌+◌, ◌-◌, ◌*◌, ◌^◌, IfOk, IfSome, IfNone, IsTrue, drop, length, map, take, None};
ghost use Rattle.afs_journal.specs.Found.{piece_of};
ghost use Rattle.afs_journal.specs.Records.{number_at, is_whole, whole_record_at, whole_records, StartsWith, EndsAt};

use crate::found::Piece;
use std::alloc::{AllocError, Global};

// The gate byte of a whole record.
const OPEN: u8 = 1;

// What stands before a record's bytes: its gate, its length and its number.
const HEAD: usize = 9;

// The number that four bytes spell, the highest first.
#[tactic(auto, unfolding(crate::specs::Records::number_at))]
fn word(bytes: &[u8], at: usize) -> u32
    requires { at + 4 ≤ length bytes.now }
    ensures { result ≡ number_at at bytes.now }
{
    u32::from_be_bytes([bytes[at], bytes[at + 1], bytes[at + 2], bytes[at + 3]])
}

// Whether the bytes begin with a whole record of this number.
#[tactic(auto, unfolding(crate::specs::Records::is_whole))]
fn is_record(number: u64, bytes: &[u8]) -> bool
    ensures is { result ≡ is_whole number bytes.now }
    ensures inside { IsTrue result → number_at 1 bytes.now + 9 < length bytes.now }
{
    bytes.len() > HEAD
        && bytes[0] == OPEN
        && word(bytes, 1) as usize + HEAD < bytes.len()
        && word(bytes, 5) as u64 == number
}

// The record of this number with which the bytes begin, and what is behind it.
fn first(number: u64, bytes: &[u8]) -> Option<(&[u8], &[u8])>
    ensures some { IfSome result (λ r. StartsWith number r.0.now r.1.now bytes.now) }
    ensures none { IfNone result (whole_record_at number bytes.now ≡ None) }
{
    if !is_record(number, bytes) {
        return None;
    }
    let size = word(bytes, 1) as usize;
    let (_, behind) = bytes.split_at(HEAD);
    Some(behind.split_at(size))
}

/// Where a record lies among bytes that end with these behind it.
fn piece(bytes: &[u8], body: &[u8], behind: &[u8]) -> Piece
    ensures { piece_of bytes.now result ≡ take (length body.now) (drop (length bytes.now - length behind.now - length body.now) bytes.now) }
{
    let end = bytes.len().saturating_sub(behind.len());
    Piece {
        start: end.saturating_sub(body.len()),
        len: body.len(),
    }
}

/// Where the whole records of these bytes lie, and the place of the gate behind the last of them.
pub(crate) fn scan(alloc: Global, bytes: &[u8]) -> Result<(Vec<Piece>, u64), AllocError>
    requires { 0 < length bytes.now }
    ensures ends { IfOk result (λ r. EndsAt r.1 (map (piece_of bytes.now) r.0.items) bytes.now) }
    ensures whole { IfOk result (λ r. map (piece_of bytes.now) r.0.items ≡ whole_records bytes.now) }
    ensures counts { IfOk result (λ r. (9 * length r.0.items ≤ r.1) × (r.1 < length bytes.now)) }
    ensures few { IfOk result (λ r. length r.0.items < 2 ^ 32) }
{
    let mut found = Vec::new(alloc);
    let mut number = 1;
    let mut rest = bytes;
    while let Some((body, behind)) = first(number, rest) {
        found.push(piece(bytes, body, behind))?;
        number += 1;
        rest = behind;
    }
    let gate = bytes.len() - rest.len();
    Ok((found, gate as u64))
}
