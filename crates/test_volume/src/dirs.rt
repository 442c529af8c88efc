//! Bytes that are no directories.

use afs_dir::{Dir, DirFault};
use std::alloc::{AllocError, Global};
use std::test::Fail;

// The directory of `a` and `bcdef`, with vnodes 2 and 3 and unique numbers 2 and 4.
const TWO: [u8; 40] = [
    0, 0, 0, 2, 0, 0, 0, 1, b'a', 0, 0, 0, 0, 0, 0, 2, 0, 0, 0, 2, 0, 0, 0, 5, b'b', b'c', b'd',
    b'e', b'f', 0, 0, 0, 0, 0, 0, 3, 0, 0, 0, 4,
];

// Where its fields begin: the count, then of each name its bytes, its vnode and its unique number.
const FIELDS: [usize; 7] = [0, 4, 12, 16, 20, 32, 36];

// The offset of the first bad field, or `None` where the bytes spell a directory.
fn bad_field(alloc: Global, bytes: &[u8]) -> Result<Option<u32>, AllocError> {
    match Dir::from_bytes(alloc, bytes) {
        Ok(dir) => {
            drop(dir);
            Ok(None)
        }
        Err(DirFault::BadDir(offset)) => Ok(Some(offset)),
        Err(_) => Err(AllocError),
    }
}

// The beginning of the last field of TWO that is at hand where so many bytes are.
fn last_field(length: usize) -> Option<u32> {
    let mut last = None;
    for field in FIELDS {
        if field <= length {
            last = Some(field as u32);
        }
    }
    last
}

#[test]
fn a_cut_directory_is_refused_at_its_first_missing_field(rt: HostRuntime) -> Result<(), Fail> {
    let two = TWO.as_slice();
    assert_eq!(rt; bad_field(rt.alloc(), two)?, None);
    for length in 0..40_usize {
        let offset = bad_field(rt.alloc(), two.get(..length).unwrap_or(two))?;
        assert_eq!(rt; offset, last_field(length), "cut at {length}");
    }
    Ok(())
}

// The offset of the first bad field where this byte stands at this place.
fn bad_field_with(alloc: Global, place: usize, value: u8) -> Result<Option<u32>, AllocError> {
    let mut bytes = TWO;
    if let Some(byte) = bytes.get_mut(place) {
        *byte = value;
    }
    bad_field(alloc, &bytes)
}

#[test]
fn changed_bytes_are_refused_at_the_first_bad_field(rt: HostRuntime) -> Result<(), Fail> {
    // the place of a byte, what it becomes, and the offset of the field that is bad then
    for (place, value, offset) in [
        (3, 3, 40), // a third name is missing
        (3, 1, 20), // a name stands behind the last
        (2, 4, 0), // 1,026 names are too many
        (7, 2, 4), // the name is `a` and NUL
        (6, 1, 4), // a name of 257 bytes is too long
        (9, 1, 4), // a pad byte isn't zero
        (8, b'/', 4), // no directory may have this name
        (8, b'c', 20), // `bcdef` stands behind `c`
        (23, 6, 20), // the name is `bcdef` and NUL
        (22, 1, 20), // a name of 261 bytes is too long
        (31, 1, 20), // a pad byte isn't zero
    ] {
        let found = bad_field_with(rt.alloc(), place, value)?;
        assert_eq!(rt; found, Some(offset), "byte {place} as {value}");
    }
    Ok(())
}
