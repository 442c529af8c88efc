use crate::called::Call::{Crash, Cut, Length, Read, Sync, Write};
use crate::called::{Call, make_calls, put_calls, told};
use crate::journals::put_disk;
use afs_disk::{Bank, Disk, LendFault, MemBank, MemDisk, Place};
use afs_num::sequences::{Octets, Records};
use std::alloc::Global;
use std::fmt::Write as _;

// What calls give on an empty disk in memory whose calls all succeed, but for those that bring `abc` there, and over it two
// writes that aren't synced.
fn told_unsynced(alloc: Global, calls: &[Call]) -> String {
    let mut disk = MemDisk::new(alloc, 100, Octets::new(alloc));
    let before = [Write(0, b"abc"), Sync, Write(1, b"XY"), Write(3, b"ZZ")];
    make_calls(alloc, &mut disk, &before);
    let told = told(alloc, &mut disk, calls);
    drop(disk);
    told
}

// What a crash with this pick leaves, and that it is durable.
fn told_crashed(alloc: Global, pick: u8) -> String {
    told_unsynced(alloc, &[Crash(pick), Read(0), Crash(0), Read(0)])
}

#[test]
fn a_crash_leaves_one_of_four_images(rt: HostRuntime) {
    for (pick, image) in IMAGES {
        assert_eq!(rt; told_crashed(rt.alloc(), *pick).as_str(), *image);
    }
}

const IMAGES: &[(u8, &str)] = &[
    (0, "3:616263 3:616263 "),
    (1, "5:6158595a5a 5:6158595a5a "),
    (2, "5:6100000000 5:6100000000 "),
    (3, "5:61ffffffff 5:61ffffffff "),
];

#[test]
fn what_was_cut_off_comes_back(rt: HostRuntime) {
    let calls = [Sync, Cut(2), Write(2, b"Q"), Read(0), Crash(0), Read(0)];
    let told = told_unsynced(rt.alloc(), &calls);
    assert_eq!(rt; told.as_str(), "ok ok ok 3:615851 5:6158595a5a ");
}

// What these calls give on a disk in memory whose second call fails, and the bytes and the count of calls that it has then.
fn told_failing(alloc: Global, calls: &[Call]) -> String {
    let mut out = String::new(alloc);
    if let Ok(failing) = Octets::from_slice(alloc, &[0, 1]) {
        let mut disk = MemDisk::new(alloc, 100, failing);
        put_calls(&mut out, &mut disk, calls);
        put_disk(&mut out, &disk);
        drop(disk);
    }
    out
}

#[test]
fn a_call_fails_where_the_list_says_so(rt: HostRuntime) {
    let calls = [Sync, Write(0, b"abc"), Length, Write(0, b"abc"), Length];
    let told = told_failing(rt.alloc(), &calls);
    assert_eq!(rt; told.as_str(), "ok failed 0 ok 3 97 98 99 calls 3");
}

// A bank whose second call fails.
fn bank(alloc: Global) -> Option<MemBank> {
    let failing = Octets::from_slice(alloc, &[0, 1]).ok()?;
    Some(MemBank::new(alloc, failing, Records::new(alloc)))
}

fn lent(bank: &mut MemBank, node: u8) -> Result<MemDisk, LendFault> {
    bank.lend(&Place::Memory, node, 50)
}

fn put_lent(out: &mut String, bank: &mut MemBank, node: u8) {
    let word = match lent(bank, node) {
        Ok(disk) => {
            drop(disk);
            "lent "
        }
        Err(LendFault::Failed) => "not lent ",
        Err(LendFault::OutOfMemory) => "out of memory ",
    };
    let _ = out.push_str(word);
}

fn put_taken(out: &mut String, bank: &mut MemBank, node: u8, disk: MemDisk) {
    let is_taken = bank.give_back(node, disk).is_ok();
    let _ = out.push_str(if is_taken { "taken " } else { "not taken " });
}

// What the bank tells of what it lent and took back.
fn put_bank(out: &mut String, bank: &MemBank) {
    let _ = write!(out, "{} lent: ", bank.lends().len());
    for given in bank.given() {
        let _ = write!(out, "node {}: ", given.node);
        put_disk(out, &given.disk);
    }
}

// A disk is lent that some calls are made of, and given back.
fn put_lent_and_taken(out: &mut String, bank: &mut MemBank, asked: &[u8], calls: &[Call]) {
    if let Ok(disk) = lent(bank, 3) {
        let mut disk = disk;
        put_calls(out, &mut disk, calls);
        let _ = write!(out, "{} ", disk.capacity());
        for node in asked {
            put_lent(out, bank, *node);
        }
        put_taken(out, bank, 3, disk);
    }
}

// What a bank tells where some calls are made of a disk that it lent, and disks of these nodes are asked for before it comes back.
fn told_of_bank(alloc: Global, asked: &[u8], calls: &[Call]) -> String {
    let mut out = String::new(alloc);
    if let Some(lending) = bank(alloc) {
        let mut bank = lending;
        put_lent_and_taken(&mut out, &mut bank, asked, calls);
        put_bank(&mut out, &bank);
        drop(bank);
    }
    out
}

#[test]
fn a_bank_in_memory_tells_what_it_lent(rt: HostRuntime) {
    let told = told_of_bank(rt.alloc(), &[4], &[Write(0, b"abc")]);
    assert_eq!(rt;
        told.as_str(),
        "ok 50 not lent taken 1 lent: node 3: 97 98 99 calls 1"
    );
}

#[test]
fn a_bank_in_memory_may_take_no_disk_back(rt: HostRuntime) {
    let told = told_of_bank(rt.alloc(), &[], &[]);
    assert_eq!(rt; told.as_str(), "50 not taken 1 lent: ");
}
