use crate::called::Call::{Sync, Write};
use crate::called::make_calls;
use crate::played::Step::{Append, Counts, Reserve};
use crate::played::{Step, attach, put_records, put_step};
use afs_disk::{Disk, Fuse, MemDisk};
use afs_journal::Journal;
use afs_num::faults::JournalFault;
use afs_num::sequences::Octets;
use afs_num::types::Mem;
use std::alloc::Global;
use std::fmt::Write as _;

// An empty disk whose device calls all succeed.
fn empty(alloc: Global, capacity: u64) -> MemDisk {
    MemDisk::new(alloc, capacity, Octets::new(alloc))
}

// A disk that holds these bytes, all of them durable: two device calls made it.
fn disk_of(alloc: Global, bytes: &[u8]) -> MemDisk {
    let mut disk = empty(alloc, 1000);
    make_calls(alloc, &mut disk, &[Write(0, bytes), Sync]);
    disk
}

// What is set at the fuse of a journal that was attached.
#[derive(Clone, Copy)]
enum Fused {
    Never,
    Stops(u64),
    FailsAt(u64),
}

fn set(journal: &mut Journal<Fuse<MemDisk>>, fused: Fused) {
    match fused {
        Fused::Never => (),
        Fused::Stops(passes) => journal.arm(passes),
        Fused::FailsAt(call) => journal.fail_at(call),
    }
}

fn put_steps(out: &mut String, journal: &mut Journal<Fuse<MemDisk>>, steps: &[Step]) {
    for step in steps {
        put_step(out, journal, *step);
    }
    if journal.stopped() {
        let _ = out.push_str("stopped ");
    }
}

// A disk as it is at first: empty, for so many bytes, or with these bytes.
#[derive(Clone, Copy)]
enum Start<'a> {
    Empty(u64),
    Holds(&'a [u8]),
}

fn disk_at(alloc: Global, start: Start) -> MemDisk {
    match start {
        Start::Empty(capacity) => empty(alloc, capacity),
        Start::Holds(bytes) => disk_of(alloc, bytes),
    }
}

// Tells what steps give on a journal over this disk, and hands the disk back.
fn played(out: &mut String, alloc: Global, start: Start, fused: Fused, steps: &[Step]) -> MemDisk {
    match attach(alloc, Fuse::new(disk_at(alloc, start))) {
        Ok(attached) => {
            let mut journal = attached;
            set(&mut journal, fused);
            put_steps(out, &mut journal, steps);
            journal.into_disk().into_inner()
        }
        Err((_, disk)) => {
            let _ = out.push_str("refused");
            disk.into_inner()
        }
    }
}

// What steps give.
fn told_by(alloc: Global, start: Start, fused: Fused, steps: &[Step]) -> String {
    let mut out = String::new(alloc);
    let _disk = played(&mut out, alloc, start, fused, steps);
    out
}

// The bytes that steps leave on a disk, after how many device calls in all.
fn left_by(alloc: Global, start: Start, steps: &[Step]) -> String {
    let mut out = String::new(alloc);
    let disk = played(&mut out, alloc, start, Fused::Never, steps);
    put_disk(&mut out, &disk);
    out
}

// Its bytes, and how many device calls came to it.
pub(crate) fn put_disk(out: &mut String, disk: &MemDisk) {
    for byte in disk.bytes() {
        let _ = write!(out, "{byte} ");
    }
    let _ = write!(out, "calls {}", disk.calls());
}

// Tells the records on a disk, and the number of a further one.
fn put_found(out: &mut String, alloc: Global, disk: MemDisk) {
    match attach(alloc, disk) {
        Ok(attached) => {
            let mut journal = attached;
            put_records(out, &journal);
            put_step(out, &mut journal, Append(b"again"));
            drop(journal);
        }
        Err(refused) => drop(refused),
    }
}

// The records on a disk with these bytes.
fn found_on(alloc: Global, bytes: &[u8]) -> String {
    let mut out = String::new(alloc);
    put_found(&mut out, alloc, disk_of(alloc, bytes));
    out
}

// Where an append stops after so many device calls: what it gives, and the records that a crash with this pick leaves.
fn found_after(alloc: Global, passes: u64, pick: u8) -> String {
    let mut out = String::new(alloc);
    let stops = Fused::Stops(passes);
    let mut disk = played(&mut out, alloc, Start::Holds(&ONE), stops, &[Append(b"c")]);
    disk.crash(pick);
    put_found(&mut out, alloc, disk);
    out
}

// The first record, `ab`, with its gate open, and then a closed gate.
const ONE: [u8; 12] = [1, 0, 0, 0, 2, 0, 0, 0, 1, 97, 98, 0];

#[test]
fn a_full_journal_tells_the_two_lengths(rt: HostRuntime) {
    let steps = [Reserve(90), Append(&[7; 90]), Append(&[8]), Counts];
    let told = told_by(rt.alloc(), Start::Empty(100), Fused::Never, &steps);
    assert_eq!(rt; told.as_str(), "ok 1 full 100 100 100 100 1 ");
}

// To attach an empty disk takes three device calls: a sync, and the closed gate with another.
#[test]
fn a_record_is_spelled_behind_its_gate(rt: HostRuntime) {
    let left = left_by(rt.alloc(), Start::Empty(100), &[Append(b"ab")]);
    assert_eq!(rt; left.as_str(), "1 1 0 0 0 2 0 0 0 1 97 98 0 calls 7");
}

// The record counts once its open gate is on the disk: after the last call, or where the crash leaves what the third one wrote.
#[test]
fn a_stop_at_each_call_of_an_append(rt: HostRuntime) {
    for passes in 0..5 {
        for pick in 0..4u8 {
            let want = if passes == 4 {
                "2 ab c 3 "
            } else if passes == 3 && pick == 1 {
                "failed stopped ab c 3 "
            } else {
                "failed stopped ab 2 "
            };
            assert_eq!(rt; found_after(rt.alloc(), passes, pick).as_str(), want);
        }
    }
}

// What a crash leaves where the record `a` wasn't synced: behind a gate, the whole record `b`, and a gate. A disk may leave any
// bytes there.
const OTHER: [u8; 10] = [0, 0, 0, 1, 0, 0, 0, 1, 98, 0];

// Bytes from one place up to another, as far as there are any.
fn part(bytes: &[u8], from: usize, to: usize) -> &[u8] {
    bytes.get(from..to).unwrap_or(b"")
}

// What a crash leaves that tears that record where it wasn't synced, and leaves all else as a read gives it. Nothing that wasn't
// synced is among the durable bytes.
fn image(alloc: Global, shown: &[u8], durable: &[u8]) -> Mem<Vec<u8>> {
    let record = part(shown, 1, 11);
    let is_synced = part(durable, 1, 11) == record;
    let mut image = Vec::from_slice(alloc, part(shown, 0, 1))?;
    image.extend_from_slice(if is_synced { record } else { &OTHER })?;
    image.extend_from_slice(part(shown, 11, shown.len()))?;
    Ok(image)
}

fn torn(alloc: Global, disk: &mut MemDisk) -> Mem<Vec<u8>> {
    let shown = Vec::from_slice(alloc, disk.bytes())?;
    disk.crash(0);
    image(alloc, &shown, disk.bytes())
}

// Where an append stops after so many device calls: what it gives, and the records that such a crash leaves.
fn found_torn(alloc: Global, passes: u64) -> String {
    let mut out = String::new(alloc);
    let stops = Fused::Stops(passes);
    let mut disk = played(&mut out, alloc, Start::Holds(&[0]), stops, &[Append(b"a")]);
    if let Ok(image) = torn(alloc, &mut disk) {
        put_found(&mut out, alloc, disk_of(alloc, &image));
    }
    out
}

// The gate is written by the third call.
#[test]
fn a_crash_leaves_no_record_that_nobody_appended(rt: HostRuntime) {
    for (passes, want) in [
        (0, "failed stopped 1 "),
        (1, "failed stopped 1 "),
        (2, "failed stopped 1 "),
        (3, "failed stopped a 2 "),
        (4, "1 a 2 "),
    ] {
        assert_eq!(rt; found_torn(rt.alloc(), passes).as_str(), want);
    }
}

#[test]
fn a_new_journal_is_a_closed_gate(rt: HostRuntime) {
    let left = left_by(rt.alloc(), Start::Empty(100), &[]);
    assert_eq!(rt; left.as_str(), "0 calls 3");
}

// Two calls made the disk, and to attach it takes two.
#[test]
fn a_journal_at_rest_is_synced_and_read(rt: HostRuntime) {
    for (bytes, want) in [
        ([0].as_slice(), "0 calls 4"),
        (&ONE, "1 0 0 0 2 0 0 0 1 97 98 0 calls 4"),
    ] {
        assert_eq!(rt;
            left_by(rt.alloc(), Start::Holds(bytes), &[]).as_str(),
            want
        );
    }
}

// The first record, and behind it what a torn write may have left: an open gate, and a record cut short.
const TORN: [u8; 16] = [1, 0, 0, 0, 2, 0, 0, 0, 1, 97, 98, 1, 0, 0, 0, 9];

// To attach it takes a sync, a read, and what cuts it off: a cut and a closed gate, each with a sync.
#[test]
fn what_lies_behind_the_last_gate_is_cut_off(rt: HostRuntime) {
    let told = told_by(rt.alloc(), Start::Holds(&TORN), Fused::Never, &[Counts]);
    assert_eq!(rt; told.as_str(), "12 1000 1 ");
    let left = left_by(rt.alloc(), Start::Holds(&TORN), &[]);
    assert_eq!(rt; left.as_str(), "1 0 0 0 2 0 0 0 1 97 98 0 calls 8");
}

// The disk that is handed back where it stops as it is attached, after so many device calls.
fn stopped(alloc: Global, passes: u64) -> Option<MemDisk> {
    let mut fuse = Fuse::new(disk_of(alloc, &TORN));
    fuse.arm(passes);
    match attach(alloc, fuse) {
        Ok(journal) => {
            drop(journal);
            None
        }
        Err((fault, fuse)) => handed_back(fault, fuse),
    }
}

// The disk of a fuse that is handed back because it stopped.
fn handed_back(fault: JournalFault, fuse: Fuse<MemDisk>) -> Option<MemDisk> {
    let is_stopped = fault == JournalFault::Failed && fuse.stopped();
    let disk = fuse.into_inner();
    if is_stopped {
        Some(disk)
    } else {
        drop(disk);
        None
    }
}

// The records that a crash with this pick leaves there.
fn found_where_stopped(alloc: Global, passes: u64, pick: u8) -> String {
    let mut out = String::new(alloc);
    if let Some(disk) = stopped(alloc, passes) {
        let mut disk = disk;
        disk.crash(pick);
        put_found(&mut out, alloc, disk);
    }
    out
}

// To attach it takes six.
#[test]
fn a_stop_at_each_call_of_an_attach(rt: HostRuntime) {
    for passes in 0..6 {
        for pick in 0..4u8 {
            let found = found_where_stopped(rt.alloc(), passes, pick);
            assert_eq!(rt; found.as_str(), "ab 2 ");
        }
    }
}

#[test]
fn a_failing_sync_closes_the_journal(rt: HostRuntime) {
    let steps = [Append(b"ab"), Append(b"ab")];
    let told = told_by(rt.alloc(), Start::Empty(100), Fused::FailsAt(2), &steps);
    assert_eq!(rt; told.as_str(), "failed closed ");
}

#[test]
fn a_gate_that_is_torn_to_any_byte(rt: HostRuntime) {
    for gate in 0..256u32 {
        let mut bytes = ONE;
        bytes[0] = gate as u8;
        let want = if gate == 1 { "ab 2 " } else { "1 " };
        assert_eq!(rt; found_on(rt.alloc(), &bytes).as_str(), want);
    }
}

#[test]
fn a_file_that_is_cut_anywhere(rt: HostRuntime) {
    for len in 0..=ONE.len() {
        let want = if len == ONE.len() { "ab 2 " } else { "1 " };
        assert_eq!(rt; found_on(rt.alloc(), &ONE[..len]).as_str(), want);
    }
}

// A disk to which so many records of 100 bytes were appended, where each got its number.
fn with_many(alloc: Global, count: u64) -> Option<MemDisk> {
    let mut journal = attach(alloc, empty(alloc, 2_000_000)).ok()?;
    for number in 0..count {
        if journal.append(&[5; 100]) != Ok(number + 1) {
            return None;
        }
    }
    Some(journal.into_disk())
}

// How many device calls it took, how long it is, and its last record with the two gates.
fn put_many(out: &mut String, disk: &MemDisk) {
    let _ = write!(out, "calls {} length {}: ", disk.calls(), disk.len());
    for byte in part(disk.bytes(), 9_999 * 109, 10_000 * 109 + 1) {
        let _ = write!(out, "{byte} ");
    }
}

fn told_of_many(alloc: Global) -> String {
    let mut out = String::new(alloc);
    if let Some(disk) = with_many(alloc, 10_000) {
        put_many(&mut out, &disk);
    }
    out
}

// To attach took three: a sync, and the closed gate with another.
#[test]
fn ten_thousand_appends_take_four_calls_each(rt: HostRuntime) {
    let told = told_of_many(rt.alloc());
    let text = told.as_str();
    assert!(rt; text.starts_with("calls 40003 length 1090001: 1 0 0 0 100 0 0 39 16 5 5 "));
    assert!(rt; text.ends_with(" 5 5 0 "));
}
