//! A disk in memory, as set-up left it.

use crate::words::put_words;
use afs_disk::{Disk, MemDisk};
use afs_num::sequences::Octets;
use afs_num::types::Mem;
use std::alloc::Global;

/// Its room.
const ROOM: u64 = 100_000;

/// An open gate, this record behind its length and its number, and a closed gate.
fn journal(alloc: Global, record: &str) -> Mem<Vec<u8>> {
    let mut bytes = Vec::new(alloc);
    bytes.push(1)?;
    put_words(&mut bytes, record)?;
    bytes.push(0)?;
    Ok(bytes)
}

fn fill(disk: &mut MemDisk, bytes: &[u8]) -> Option<()> {
    let length = bytes.len() as u64;
    disk.room(length, length).ok()?;
    disk.write_at(0, bytes).ok()?;
    disk.sync().ok()
}

/// A disk with this record.
pub(crate) fn laid_out(alloc: Global, record: &str) -> Option<MemDisk> {
    let bytes = journal(alloc, record).ok()?;
    let mut disk = MemDisk::new(alloc, ROOM, Octets::new(alloc));
    match fill(&mut disk, bytes.as_slice()) {
        Some(()) => Some(disk),
        None => {
            drop(disk);
            None
        }
    }
}
