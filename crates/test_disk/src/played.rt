//! Steps of a journal, one after the other, and what each gives, as a text.

use afs_disk::Disk;
use afs_journal::Journal;
use afs_num::faults::JournalFault;
use std::alloc::Global;
use std::fmt::Write as _;

#[derive(Clone, Copy)]
pub(crate) enum Step<'a> {
    Append(&'a [u8]),
    Reserve(u64),
    /// Its length, its capacity and the count of its records are told.
    Counts,
}

/// Attaches a disk whose capacity is allowed. A refusal hands it back.
pub(crate) fn attach<D: Disk>(alloc: Global, disk: D) -> Result<Journal<D>, (JournalFault, D)> {
    if disk.capacity() > 268_435_456 {
        return Err((JournalFault::Closed, disk));
    }
    Journal::attach(alloc, disk)
}

fn put_append<D: Disk>(out: &mut String, journal: &mut Journal<D>, record: &[u8]) {
    let _ = match journal.append(record) {
        Ok(number) => write!(out, "{number} "),
        Err(JournalFault::Full(used, capacity)) => write!(out, "full {used} {capacity} "),
        Err(JournalFault::Failed) => out.push_str("failed "),
        Err(JournalFault::Closed) => out.push_str("closed "),
        Err(JournalFault::OutOfMemory) => out.push_str("out of memory "),
    };
}

fn put_reserve<D: Disk>(out: &mut String, journal: &mut Journal<D>, len: u64) {
    let word = match journal.reserve(len) {
        Ok(()) => "ok ",
        Err(_) => "out of memory ",
    };
    let _ = out.push_str(word);
}

fn put_counts<D: Disk>(out: &mut String, journal: &Journal<D>) {
    let (len, capacity) = (journal.len(), journal.capacity());
    let _ = write!(out, "{len} {capacity} {} ", journal.count());
}

/// What this step gives.
pub(crate) fn put_step<D: Disk>(out: &mut String, journal: &mut Journal<D>, step: Step) {
    match step {
        Step::Append(record) => put_append(out, journal, record),
        Step::Reserve(len) => put_reserve(out, journal, len),
        Step::Counts => put_counts(out, journal),
    }
}

fn put_bytes(out: &mut String, bytes: &[u8]) {
    for byte in bytes {
        let _ = out.push(*byte as char);
    }
    let _ = out.push_str(" ");
}

/// Tells the records that were found as it was attached.
pub(crate) fn put_records<D: Disk>(out: &mut String, journal: &Journal<D>) {
    let records = journal.records();
    for place in 0..records.len() {
        if let Some(record) = records.get(place) {
            put_bytes(out, record);
        }
    }
}
