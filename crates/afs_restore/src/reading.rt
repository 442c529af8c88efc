//! Bytes are read on as far as they go.

ghost use Rattle.std.specs.Prelude.{◌≡◌, ◌++◌, ◌-◌, ◌≤◌, drop, length, IfOk, OnErr};
ghost use Rattle.afs_restore.specs.Parts.{AreSame, Keeps};
ghost use Rattle.afs_restore.specs.ReadOn.{left_of, pending_of, ReadsOn, ReaderStands};

use crate::fields::are_bytes;
use crate::parts::Parts;
use crate::steps::{Step, take_step};
use crate::stops::Stop;
use afs_num::types::Mem;
use afs_xdr::reading::Reader;
use std::alloc::{AllocError, Global};

/// How far bytes were read: to where this step comes next, from which on so many are left; and so many from the field on that isn't
/// whole yet, or is no good.
#[derive(Clone, Copy, Debug, PartialEq, Eq)]
pub enum Read {
    Waits(Step, usize, usize),
    Refused(Step, usize, usize),
}

/// Reads on as far as the bytes go, where this step comes next.
fn read_on(alloc: Global, bytes: &[u8], parts: &mut Parts, from: Step) -> Mem<Read>
    requires { ReaderStands from parts.old bytes.now }
    ensures read { IfOk result (ReadsOn from parts.old bytes.now parts.new) }
    ensures kept { Keeps parts.old parts.new }
{
    are_bytes(bytes);
    let mut r = Reader::new(bytes);
    let mut step = from;
    let mut left = bytes.len();
    while step != Step::End {
        match take_step(alloc, parts, step, &mut r) {
            Ok(next) => {
                step = next;
                left = r.left_len();
            }
            Err(Stop::Cut) => return Ok(Read::Waits(step, left, r.left_len())),
            Err(Stop::Bad) => return Ok(Read::Refused(step, left, r.left_len())),
            Err(Stop::OutOfMemory) => return Err(AllocError),
        }
    }
    if left > 0 {
        return Ok(Read::Refused(step, left, left));
    }
    Ok(Read::Waits(step, 0, 0))
}

/// How many bytes are left from where the step comes next.
fn left_of(read: Read) -> usize
    ensures { result ≡ left_of read }
{
    match read {
        Read::Waits(_, left, _) => left,
        Read::Refused(_, left, _) => left,
    }
}

/// Reads on as far as the bytes go. Running out of memory leaves what was read as it was.
fn read_or_go_back(alloc: Global, bytes: &[u8], parts: &mut Parts, from: Step) -> Mem<Read>
    requires { ReaderStands from parts.old bytes.now }
    ensures read { IfOk result (ReadsOn from parts.old bytes.now parts.new) }
    ensures same { OnErr result (AreSame parts.old parts.new) }
{
    let noted = parts.noted(alloc)?;
    match read_on(alloc, bytes, parts, from) {
        Ok(read) => Ok(read),
        Err(fault) => {
            parts.go_back(noted);
            Err(fault)
        }
    }
}

/// Takes all bytes away but so many at the end. Where none is left, their room is given back.
fn keep_last(alloc: Global, bytes: &mut Vec<u8>, left: usize)
    requires { left ≤ length bytes.old.items }
    ensures { bytes.new.items ≡ drop (length bytes.old.items - left) bytes.old.items }
{
    if left == 0 {
        *bytes = Vec::new(alloc);
    } else {
        let count = bytes.len() - left;
        bytes.drain(..count);
    }
}

/// Reads on with a piece behind the bytes that are pending.
fn read_behind(
    alloc: Global,
    pending: &mut Vec<u8>,
    piece: &[u8],
    parts: &mut Parts,
    from: Step,
) -> Mem<Read>
    requires { ReaderStands from parts.old (pending.old.items ++ piece.now) }
    ensures read { IfOk result (ReadsOn from parts.old (pending.old.items ++ piece.now) parts.new) }
    ensures pending { IfOk result (λ read. pending.new.items ≡ pending_of read (pending.old.items ++ piece.now)) }
    ensures same { OnErr result (AreSame parts.old parts.new) }
    ensures stays { OnErr result (pending.new.items ≡ pending.old.items) }
{
    let before = pending.len();
    pending.extend_from_slice(piece)?;
    match read_or_go_back(alloc, pending.as_slice(), parts, from) {
        Ok(read) => {
            keep_last(alloc, pending, left_of(read));
            Ok(read)
        }
        Err(fault) => {
            pending.truncate(before);
            Err(fault)
        }
    }
}

/// The last of these bytes, so many, in memory of their own.
fn last(alloc: Global, bytes: &[u8], left: usize) -> Mem<Vec<u8>>
    requires { left ≤ length bytes.now }
    ensures { IfOk result (λ rest. rest.items ≡ drop (length bytes.now - left) bytes.now) }
{
    let (_, rest) = bytes.split_at(bytes.len() - left);
    Ok(Vec::from_slice(alloc, rest)?)
}

/// Reads on as far as the bytes go, and copies what is left.
fn read_and_keep(alloc: Global, bytes: &[u8], parts: &mut Parts, from: Step) -> Mem<(Read, Vec<u8>)>
    requires { ReaderStands from parts.old bytes.now }
    ensures read { IfOk result (λ r. ReadsOn from parts.old bytes.now parts.new r.0) }
    ensures pending { IfOk result (λ r. r.1.items ≡ pending_of r.0 bytes.now) }
    ensures kept { Keeps parts.old parts.new }
{
    let read = read_on(alloc, bytes, parts, from)?;
    let rest = last(alloc, bytes, left_of(read))?;
    Ok((read, rest))
}

/// Reads on with a piece where nothing is pending. The piece is read where it lies, and what waits of it is copied.
fn read_alone(
    alloc: Global,
    pending: &mut Vec<u8>,
    piece: &[u8],
    parts: &mut Parts,
    from: Step,
) -> Mem<Read>
    requires { ReaderStands from parts.old piece.now }
    ensures read { IfOk result (ReadsOn from parts.old piece.now parts.new) }
    ensures pending { IfOk result (λ read. pending.new.items ≡ pending_of read piece.now) }
    ensures same { OnErr result (AreSame parts.old parts.new) }
    ensures stays { OnErr result (pending.new.items ≡ pending.old.items) }
{
    let noted = parts.noted(alloc)?;
    match read_and_keep(alloc, piece, parts, from) {
        Ok((read, rest)) => {
            *pending = rest;
            Ok(read)
        }
        Err(fault) => {
            parts.go_back(noted);
            Err(fault)
        }
    }
}

/// Reads on with a piece more, and keeps what is pending then. Running out of memory leaves all as it was.
pub fn read_more(
    alloc: Global,
    pending: &mut Vec<u8>,
    piece: &[u8],
    parts: &mut Parts,
    from: Step,
) -> Mem<Read>
    requires { ReaderStands from parts.old (pending.old.items ++ piece.now) }
    ensures read { IfOk result (ReadsOn from parts.old (pending.old.items ++ piece.now) parts.new) }
    ensures pending { IfOk result (λ read. pending.new.items ≡ pending_of read (pending.old.items ++ piece.now)) }
    ensures same { OnErr result (AreSame parts.old parts.new) }
    ensures stays { OnErr result (pending.new.items ≡ pending.old.items) }
{
    if pending.is_empty() {
        read_alone(alloc, pending, piece, parts, from)
    } else {
        read_behind(alloc, pending, piece, parts, from)
    }
}
