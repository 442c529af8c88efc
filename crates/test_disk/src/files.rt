// Disks in files of a real folder: what no contract says of them.
use crate::called::Call::{Crash, Cut, Length, Read, Sync, Write};
use crate::called::{Call, put_calls};
use crate::played::Step::Append;
use crate::played::{attach, put_records, put_step};
use crate::streams::put_text;
use afs_disk::{Bank, Disk, FileDisk, HostBank, HostDisk, LendFault, Place};
use afs_journal::Journal;
use afs_num::devices::Failed;
use afs_num::sequences::Octets;
use afs_num::types::Mem;
use std::alloc::{Allocator, Global};
use std::fmt::Write as _;
use std::fs::{File, Metadata, OpenOptions};
use std::os::unix::fs::symlink;
use std::rt::Files;
use std::{fs, io};

fn folder(alloc: Global, path: &[u8]) -> Mem<Place> {
    Ok(Place::Folder(Octets::from_slice(alloc, path)?))
}

// A disk and a bank are let go by a call: where one went at the end of a scope, each such end would be proved for each of its parts.

// The disk of a node in the folder where the test runs.
fn lent<R: Files<File = File>>(
    bank: &mut HostBank<'_, R>,
    alloc: Global,
    node: u8,
) -> Option<HostDisk> {
    let here = folder(alloc, b".").ok()?;
    bank.lend(&here, node, 100).ok()
}

fn put_taken(out: &mut String, taken: Result<(), Failed>) {
    if taken.is_err() {
        let _ = out.push_str("not taken");
    }
}

// Tells what calls give on a disk, which is given back.
fn put_on_disk<R: Files<File = File>>(
    out: &mut String,
    bank: &mut HostBank<'_, R>,
    node: u8,
    disk: HostDisk,
    calls: &[Call],
) {
    let mut disk = disk;
    put_calls(out, &mut disk, calls);
    put_taken(out, bank.give_back(node, disk));
}

// What calls give on the disk of a node there, which is given back.
fn told_of<R: Files<File = File>>(files: &R, alloc: Global, node: u8, calls: &[Call]) -> String {
    let mut out = String::new(alloc);
    let mut bank = HostBank::new(files, alloc);
    match lent(&mut bank, alloc, node) {
        Some(disk) => put_on_disk(&mut out, &mut bank, node, disk, calls),
        None => {
            let _ = out.push_str("not lent");
        }
    }
    out
}

// Whether the disk of a node isn't lent in the folder of this path, since that failed.
fn is_refused<R: Files<File = File>>(files: &R, alloc: Global, path: &[u8], node: u8) -> bool {
    let Ok(place) = folder(alloc, path) else {
        return false;
    };
    let mut bank = HostBank::new(files, alloc);
    match bank.lend(&place, node, 100) {
        Ok(disk) => {
            drop(disk);
            false
        }
        Err(fault) => fault == LendFault::Failed,
    }
}

// Tells what a file has.
fn put_file(out: &mut String, rt: &HostRuntime, path: &str) {
    match fs::read(rt, path) {
        Ok(bytes) => put_text(out, &bytes),
        Err(_) => {
            let _ = out.push_str("no file");
        }
    }
}

fn is_removed(rt: &HostRuntime, path: &str) -> bool {
    fs::remove_file(rt, path).is_ok()
}

// What calls give on the disk of a node, and what its file has then.
fn told_with_file(rt: &HostRuntime, node: u8, path: &str, calls: &[Call]) -> String {
    let mut out = told_of(rt, rt.alloc(), node, calls);
    put_file(&mut out, rt, path);
    out
}

// Node n is the file `node-n`, and a disk over it anew has its length and its bytes.
#[test]
fn a_file_keeps_what_was_written(rt: HostRuntime) {
    let calls = [
        Cut(0),
        Write(0, b"abcdef"),
        Write(2, b"CD"),
        Write(6, b"gh"),
        Read(1),
        Cut(4),
        Sync,
    ];
    assert_eq!(rt;
        told_with_file(&rt, 77, "./node-77", &calls).as_str(),
        "ok ok ok ok 6:624344656667 ok ok abCD"
    );
    assert_eq!(rt;
        told_with_file(&rt, 77, "./node-77", &[Length, Read(1), Read(4)]).as_str(),
        "4 3:624344 0: abCD"
    );
    assert!(rt; is_removed(&rt, "./node-77"));
}

// What happens to the file of a disk that is lent.
#[derive(Clone, Copy)]
enum Change {
    Shortened,
    Removed,
}

fn is_shortened(rt: &HostRuntime, path: &str) -> bool {
    match File::options().write(true).open(rt, path) {
        Ok(file) => file.set_len(2).is_ok(),
        Err(_) => false,
    }
}

fn put_change(out: &mut String, rt: &HostRuntime, path: &str, change: Change) {
    let is_made = match change {
        Change::Shortened => is_shortened(rt, path),
        Change::Removed => is_removed(rt, path),
    };
    let _ = out.push_str(if is_made { "changed " } else { "not changed " });
}

// Tells what calls give on a disk before its file is changed and afterwards, and how often it failed.
fn put_around(
    out: &mut String,
    rt: &HostRuntime,
    disk: &mut HostDisk,
    path: &str,
    calls: &[Call],
    change: Change,
    more: &[Call],
) {
    put_calls(out, disk, calls);
    put_change(out, rt, path, change);
    put_calls(out, disk, more);
    let _ = write!(out, "faults {}", disk.faults());
}

fn told_around(
    rt: &HostRuntime,
    node: u8,
    path: &str,
    calls: &[Call],
    change: Change,
    more: &[Call],
) -> String {
    let mut out = String::new(rt.alloc());
    let mut bank = HostBank::new(rt, rt.alloc());
    if let Some(disk) = lent(&mut bank, rt.alloc(), node) {
        let mut disk = disk;
        put_around(&mut out, rt, &mut disk, path, calls, change, more);
        drop(disk);
    }
    out
}

#[test]
fn fewer_bytes_than_the_length_are_a_fault(rt: HostRuntime) {
    let calls = [Cut(0), Write(0, b"abcdef")];
    let change = Change::Shortened;
    let told = told_around(&rt, 78, "./node-78", &calls, change, &[Read(0)]);
    assert_eq!(rt; told.as_str(), "ok ok changed failed faults 1");
    assert!(rt; is_removed(&rt, "./node-78"));
}

#[test]
fn a_file_that_was_removed_is_a_fault(rt: HostRuntime) {
    let calls = [Write(0, b"abcdef")];
    let told = told_around(&rt, 83, "./node-83", &calls, Change::Removed, &[Sync]);
    assert_eq!(rt; told.as_str(), "ok changed failed faults 1");
}

fn put_refused(out: &mut String, is_refused: bool) {
    let _ = out.push_str(if is_refused { "refused " } else { "lent " });
}

// Whether another bank lends a disk while it is lent, and once it was given back.
fn told_in_use(rt: &HostRuntime, node: u8) -> String {
    let mut out = String::new(rt.alloc());
    let mut bank = HostBank::new(rt, rt.alloc());
    if let Some(disk) = lent(&mut bank, rt.alloc(), node) {
        put_refused(&mut out, is_refused(rt, rt.alloc(), b".", node));
        put_taken(&mut out, bank.give_back(node, disk));
    }
    put_refused(&mut out, is_refused(rt, rt.alloc(), b".", node));
    out
}

#[test]
fn a_disk_in_use_is_not_lent(rt: HostRuntime) {
    assert_eq!(rt; told_in_use(&rt, 79).as_str(), "refused lent ");
    assert!(rt; is_removed(&rt, "./node-79"));
}

#[test]
fn what_cannot_be_opened_is_not_lent(rt: HostRuntime) {
    assert!(rt; is_refused(&rt, rt.alloc(), b"no/such/folder", 80));
    assert!(rt; is_refused(&rt, rt.alloc(), b"\xff", 80));
    let _made = fs::create_dir(&rt, "./node-80");
    let is_refused = is_refused(&rt, rt.alloc(), b".", 80);
    assert!(rt; fs::remove_dir(&rt, "./node-80").is_ok());
    assert!(rt; is_refused);
}

#[test]
fn a_crash_leaves_what_a_read_gives(rt: HostRuntime) {
    let calls = [Write(0, b"abcdef"), Crash(0), Read(0)];
    assert_eq!(rt;
        told_of(&rt, rt.alloc(), 84, &calls).as_str(),
        "ok 6:616263646566 "
    );
    assert!(rt; is_removed(&rt, "./node-84"));
}

// How the file of a disk stands elsewhere, too.
#[derive(Clone, Copy)]
enum Link {
    Symbolic,
    Hard,
}

fn is_linked(rt: &HostRuntime, link: Link, path: &str) -> bool {
    match link {
        Link::Symbolic => symlink(rt, "elsewhere", path).is_ok(),
        Link::Hard => fs::hard_link(rt, "./elsewhere", path).is_ok(),
    }
}

fn is_refused_where_linked(rt: &HostRuntime, link: Link) -> bool {
    let is_linked = is_linked(rt, link, "./node-85");
    let is_refused = is_refused(rt, rt.alloc(), b".", 85);
    is_removed(rt, "./node-85") && is_linked && is_refused
}

fn file_text(rt: &HostRuntime, path: &str) -> String {
    let mut out = String::new(rt.alloc());
    put_file(&mut out, rt, path);
    out
}

// What a link leads to stays as it is, and so does a file that has another name.
#[test]
fn a_file_that_stands_elsewhere_is_not_lent(rt: HostRuntime) {
    assert!(rt; fs::write(&rt, "./elsewhere", b"kept").is_ok());
    assert!(rt; is_refused_where_linked(&rt, Link::Symbolic));
    assert!(rt; is_refused_where_linked(&rt, Link::Hard));
    assert_eq!(rt; file_text(&rt, "./elsewhere").as_str(), "kept");
    assert!(rt; is_removed(&rt, "./elsewhere"));
}

// A device that takes no byte and can't be synced.
const FULL: &str = "/dev/full";

fn full_disk(rt: &HostRuntime) -> Option<HostDisk> {
    let file = File::options().read(true).write(true).open(rt, FULL).ok()?;
    Some(HostDisk::File(FileDisk::over(file, 100).ok()?))
}

fn told_of_full(rt: &HostRuntime, calls: &[Call]) -> String {
    let mut out = String::new(rt.alloc());
    if let Some(disk) = full_disk(rt) {
        let mut disk = disk;
        put_calls(&mut out, &mut disk, calls);
        drop(disk);
    }
    out
}

// A failed write is told, and the disk can be used on; after a failed sync it can't.
#[test]
fn after_a_failed_sync_each_call_fails(rt: HostRuntime) {
    let calls = [
        Write(0, b"abc"),
        Length,
        Read(0),
        Cut(0),
        Read(0),
        Sync,
        Read(0),
        Sync,
    ];
    assert_eq!(rt;
        told_of_full(&rt, &calls).as_str(),
        "failed 0 0: failed 0: failed failed failed "
    );
}

// Files of a machine on which the folder can't be synced: where it is opened, the full device is.
#[derive(Drop)]
struct FolderFails<'a> {
    files: &'a HostRuntime,
}

impl<'a> Files for FolderFails<'a> {
    type File = File;

    type Dir = <HostRuntime as Files>::Dir;

    fn open_file(&self, how: &OpenOptions, path: &str) -> io::Result<File> {
        let path = if path == "." { FULL } else { path };
        self.files.open_file(how, path)
    }

    fn open_dir(&self, path: &str) -> io::Result<<HostRuntime as Files>::Dir> {
        self.files.open_dir(path)
    }

    fn metadata(&self, path: &str) -> io::Result<Metadata> {
        self.files.metadata(path)
    }

    fn symlink_metadata(&self, path: &str) -> io::Result<Metadata> {
        self.files.symlink_metadata(path)
    }

    fn copy(&self, from: &str, to: &str) -> io::Result<u64> {
        self.files.copy(from, to)
    }

    fn rename(&self, from: &str, to: &str) -> io::Result<()> {
        self.files.rename(from, to)
    }

    fn remove_file(&self, path: &str) -> io::Result<()> {
        self.files.remove_file(path)
    }

    fn create_dir(&self, path: &str) -> io::Result<()> {
        self.files.create_dir(path)
    }

    fn remove_dir(&self, path: &str) -> io::Result<()> {
        self.files.remove_dir(path)
    }

    fn remove_dir_all<B: Allocator>(&self, alloc: B, path: &str) -> io::Result<()> {
        self.files.remove_dir_all(alloc, path)
    }
}

#[test]
fn a_new_file_is_on_the_disk_with_its_name(rt: HostRuntime) {
    let files = FolderFails { files: &rt };
    assert!(rt; is_refused(&files, rt.alloc(), b".", 81));
    assert!(rt; is_removed(&rt, "./node-81"));
}

// Tells the records of a journal, and what it gives where these are appended.
fn put_journal<D: Disk>(out: &mut String, journal: &mut Journal<D>, records: &[&[u8]]) {
    put_records(out, journal);
    for record in records {
        put_step(out, journal, Append(record));
    }
}

// A journal on the disk of node 82, to which these records are appended; the disk is given back.
fn put_told<R: Files<File = File>>(
    out: &mut String,
    alloc: Global,
    bank: &mut HostBank<'_, R>,
    disk: HostDisk,
    records: &[&[u8]],
) {
    match attach(alloc, disk) {
        Ok(attached) => {
            let mut journal = attached;
            put_journal(out, &mut journal, records);
            put_taken(out, bank.give_back(82, journal.into_disk()));
        }
        Err(refused) => drop(refused),
    }
}

fn journal_told<R: Files<File = File>>(files: &R, alloc: Global, records: &[&[u8]]) -> String {
    let mut out = String::new(alloc);
    let mut bank = HostBank::new(files, alloc);
    if let Some(disk) = lent(&mut bank, alloc, 82) {
        put_told(&mut out, alloc, &mut bank, disk, records);
    }
    out
}

#[test]
fn a_journal_in_a_file_is_found_again(rt: HostRuntime) {
    assert_eq!(rt; told_of(&rt, rt.alloc(), 82, &[Cut(0)]).as_str(), "ok ");
    assert_eq!(rt;
        journal_told(&rt, rt.alloc(), &[b"ab", b"c"]).as_str(),
        "1 2 "
    );
    assert_eq!(rt; journal_told(&rt, rt.alloc(), &[]).as_str(), "ab c ");
    assert!(rt; is_removed(&rt, "./node-82"));
}
