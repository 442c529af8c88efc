//! Calls of a disk, one after the other, and what each gives, as a text.

use afs_disk::Disk;
use std::alloc::Global;
use std::fmt::Write as _;

#[derive(Clone, Copy)]
pub(crate) enum Call<'a> {
    Write(u64, &'a [u8]),
    Cut(u64),
    Sync,
    /// Six bytes are read from this place on.
    Read(u64),
    Length,
    Crash(u8),
}

/// Writes at a place that the disk reaches, with room made first.
fn write<D: Disk>(disk: &mut D, at: u64, bytes: &[u8]) -> Option<()> {
    if disk.len() < at || 1000 < at || 1000 < bytes.len() {
        return None;
    }
    disk.room(at + bytes.len() as u64, bytes.len() as u64).ok()?;
    disk.write_at(at, bytes).ok()
}

fn cut<D: Disk>(disk: &mut D, len: u64) -> Option<()> {
    if disk.len() < len {
        return None;
    }
    disk.room(0, 0).ok()?;
    disk.cut(len).ok()
}

fn sync<D: Disk>(disk: &mut D) -> Option<()> {
    disk.room(0, 0).ok()?;
    disk.sync().ok()
}

fn read<D: Disk>(disk: &mut D, at: u64, bytes: &mut [u8]) -> Option<usize> {
    disk.room(0, 0).ok()?;
    disk.read(at, bytes).ok()
}

fn put_outcome(out: &mut String, outcome: Option<()>) {
    let word = match outcome {
        Some(()) => "ok ",
        None => "failed ",
    };
    let _ = out.push_str(word);
}

fn put_hex(out: &mut String, bytes: &[u8]) {
    for byte in bytes {
        let _ = write!(out, "{byte:02x}");
    }
    let _ = out.push_str(" ");
}

/// The bytes that were read, behind their count.
fn put_read<D: Disk>(out: &mut String, disk: &mut D, at: u64) {
    let mut bytes = [0u8; 6];
    match read(disk, at, &mut bytes) {
        Some(count) => {
            let _ = write!(out, "{count}:");
            put_hex(out, bytes.get(..count).unwrap_or(b""));
        }
        None => {
            let _ = out.push_str("failed ");
        }
    }
}

fn put_call<D: Disk>(out: &mut String, disk: &mut D, call: Call) {
    match call {
        Call::Write(at, bytes) => put_outcome(out, write(disk, at, bytes)),
        Call::Cut(len) => put_outcome(out, cut(disk, len)),
        Call::Sync => put_outcome(out, sync(disk)),
        Call::Read(at) => put_read(out, disk, at),
        Call::Length => {
            let _ = write!(out, "{} ", disk.len());
        }
        Call::Crash(pick) => disk.crash(pick),
    }
}

/// Tells what each of these calls gives.
pub(crate) fn put_calls<D: Disk>(out: &mut String, disk: &mut D, calls: &[Call]) {
    for call in calls {
        put_call(out, disk, *call);
    }
}

/// What each of these calls gives.
pub(crate) fn told<D: Disk>(alloc: Global, disk: &mut D, calls: &[Call]) -> String {
    let mut out = String::new(alloc);
    put_calls(&mut out, disk, calls);
    out
}

/// Makes these calls, whatever each gives.
pub(crate) fn make_calls<D: Disk>(alloc: Global, disk: &mut D, calls: &[Call]) {
    let _told = told(alloc, disk, calls);
}
