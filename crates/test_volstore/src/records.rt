//! Records of another program are read and written again, and are none where they are changed.

use crate::vectors::{
    boot, bytes_of, change, clone, create, delete, first, flags, forward, restore, stamp,
};
use afs_num::sequences::Octets;
use afs_num::types::Mem;
use afs_record::faults::RecordFault;
use afs_record::records::{decode_record, encode_record};
use std::alloc::Global;
use std::fmt::Write;
use std::test::Fail;

/// Whether bytes are no record.
fn is_none(alloc: Global, bytes: &[u8]) -> bool {
    decode_record(alloc, bytes).err() == Some(RecordFault::NoForm)
}

/// Whether bytes are a record that is written so again. It is let go by a call: where it went at the end of a scope, each such end
/// would be proved for each kind of record.
fn is_kept(alloc: Global, bytes: &[u8]) -> bool {
    match decode_record(alloc, bytes) {
        Ok(record) => {
            let again = encode_record(alloc, &record);
            drop(record);
            is_written(again, bytes)
        }
        Err(_) => false,
    }
}

fn is_written(again: Mem<Octets>, bytes: &[u8]) -> bool {
    match again {
        Ok(again) => again.as_slice() == bytes,
        Err(_) => false,
    }
}

/// Each record of the other program.
fn all() -> [&'static str; 10] {
    [
        first(),
        change(),
        boot(),
        create(),
        delete(),
        clone(),
        restore(),
        flags(),
        forward(),
        stamp(),
    ]
}

#[test]
fn each_kind_is_read_and_written(rt: HostRuntime) -> Result<(), Fail> {
    for words in all() {
        let bytes = bytes_of(rt.alloc(), words)?;
        assert!(rt; is_kept(rt.alloc(), &bytes), "{words}");
    }
    Ok(())
}

/// How many beginnings of these bytes are no record.
fn beginnings(alloc: Global, bytes: &[u8]) -> usize {
    let mut count = 0usize;
    for length in 0..bytes.len() {
        if is_none(alloc, &bytes[..length]) {
            count = count.saturating_add(1);
        }
    }
    count
}

#[test]
fn a_record_that_is_cut_is_none(rt: HostRuntime) -> Result<(), Fail> {
    for words in all() {
        let bytes = bytes_of(rt.alloc(), words)?;
        assert_eq!(rt; beginnings(rt.alloc(), &bytes), bytes.len());
    }
    Ok(())
}

#[test]
fn a_byte_more_is_no_record(rt: HostRuntime) -> Result<(), Fail> {
    for words in all() {
        let mut longer = bytes_of(rt.alloc(), words)?;
        longer.push(0)?;
        assert!(rt; is_none(rt.alloc(), &longer), "{words}");
    }
    Ok(())
}

/// Whether the bytes are no record where the one in this place is one more.
fn is_refused(alloc: Global, bytes: &[u8], place: usize) -> Mem<bool> {
    let mut raised = Vec::from_slice(alloc, bytes)?;
    if let Some(byte) = raised.get_mut(place) {
        *byte = byte.wrapping_add(1);
    }
    Ok(is_none(alloc, &raised))
}

/// Tells the places of the words that, raised by one, make the bytes none.
fn put_refused(out: &mut String, alloc: Global, bytes: &[u8]) -> Mem<()> {
    for word in 0..bytes.len() / 4 {
        if is_refused(alloc, bytes, 4 * word + 3)? {
            write!(out, "{} ", 4 * word)?;
        }
    }
    Ok(())
}

fn refused(alloc: Global, words: &str) -> Mem<String> {
    let bytes = bytes_of(alloc, words)?;
    let mut out = String::new(alloc);
    put_refused(&mut out, alloc, &bytes)?;
    Ok(out)
}

// Where no reply is kept, the words that tell of its call are 0; and nobody calls for a start.
#[test]
fn a_raised_count_mark_or_range_is_refused(rt: HostRuntime) -> Result<(), Fail> {
    for (words, want) in [
        (first(), FIRST_REFUSED),
        (change(), "0 32 48 52 60 136 140 164 172 224 228 236 "),
        (boot(), "0 12 16 20 24 "),
        (create(), "0 32 44 52 64 "),
        (delete(), "0 32 "),
        (clone(), "0 32 52 "),
        (restore(), "0 32 40 "),
        (flags(), "32 "),
        (forward(), "0 32 40 "),
        (stamp(), "0 16 20 24 "),
    ] {
        assert_eq!(rt; refused(rt.alloc(), words)?.as_str(), want);
    }
    Ok(())
}

const FIRST_REFUSED: &str = "\
    0 16 20 24 28 32 44 76 80 84 88 92 96 100 104 108 112 116 192 196 236 240 244 248 300 308 312 316 320 324 376 380 \
    388 396 428 432 436 440 444 448 452 528 532 ";
