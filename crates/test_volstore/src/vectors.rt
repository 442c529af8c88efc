//! A record of each kind, as another program spells it: its words in hexadecimal digits. What takes one does so by a function, so that
//! no other goal has those words.

use afs_num::types::Mem;
use std::alloc::Global;

/// The bytes of these words, four of each.
pub(crate) fn bytes_of(alloc: Global, words: &str) -> Mem<Vec<u8>> {
    let mut bytes = Vec::new(alloc);
    for word in words.split_whitespace() {
        let number = u32::from_str_radix(word, 16).unwrap_or(0);
        bytes.extend_from_slice(&number.to_be_bytes())?;
    }
    Ok(bytes)
}

/// Two volumes: 7 with the files `a` and `b`, and 9.
pub(crate) fn first() -> &'static str {
    "\
    1 0 0 0 0 0 0 2 4 686f6d65 0 2 7 7 0 64 4 3 0 3 1 1 2 2 4 3 3 1 1 2 3 3 2 0 0 1ed 0 0 0 0 0 3 17 310a300a \
    73797374 656d3a61 6e797573 65720931 32370a00 24 2 1 61000000 2 2 1 62000000 4 3 3 2 2 1 1 1 1 0 0 1a4 0 0 5 1 1 \
    2 0 3 68692100 3 4 3 1 1 1 1 0 0 1a4 0 0 5 1 1 3 0 0 1 78000000 0 2 9 9 0 0 2 1 0 1 1 1 3 1 1 2 1 1 2 0 0 1ed 0 \
    0 0 0 0 1 17 310a300a 73797374 656d3a61 6e797573 65720931 32370a00 4 0"
}

/// In volume 7 the file `a` is stored, and `b` goes; a reply to client 2 is kept.
pub(crate) fn change() -> &'static str {
    "\
    2 7 9 66 3 5 5 61626364 65000000 7 4 4 2 1 1 2 4 4 2 0 0 1ed 0 0 6 0 0 4 17 310a300a 73797374 656d3a61 6e797573 \
    65720931 32370a00 14 1 1 61000000 2 2 2 2 1 2 2 1 0 0 1a4 0 0 6 1 1 4 0 4 68692121 1 4"
}

/// A start with boot number 2.
pub(crate) fn boot() -> &'static str {
    "3 0 0 0 0 0 0 2"
}

/// A new volume.
pub(crate) fn create() -> &'static str {
    "4 7 9 66 3 5 5 61626364 65000000 b 7 4 6e616d65 2 1 64 1"
}

/// A volume that goes.
pub(crate) fn delete() -> &'static str {
    "5 7 9 66 3 5 5 61626364 65000000 7"
}

/// A clone of a volume.
pub(crate) fn clone() -> &'static str {
    "6 7 9 66 3 5 5 61626364 65000000 7 c 5 636c6f6e 65000000 1 8"
}

/// A dump that is restored into a volume.
pub(crate) fn restore() -> &'static str {
    "\
    7 7 9 66 3 5 5 61626364 65000000 7 178 1 b3a11322 1 7 4 686f6d65 0 2 7 7 0 64 4 3 0 3 1 1 2 2 4 3 3 1 1 2 3 3 2 \
    0 0 1ed 0 0 0 0 0 3 17 310a300a 73797374 656d3a61 6e797573 65720931 32370a00 24 2 1 61000000 2 2 1 62000000 4 3 \
    3 2 2 1 1 1 1 0 0 1a4 0 0 5 1 1 2 0 3 68692100 3 4 3 1 1 1 1 0 0 1a4 0 0 5 1 1 3 0 0 4 3a214b6e"
}

/// Flags of a volume.
pub(crate) fn flags() -> &'static str {
    "8 7 9 66 3 5 5 61626364 65000000 7 2"
}

/// A server to which calls for a volume are to go.
pub(crate) fn forward() -> &'static str {
    "9 7 9 66 3 5 5 61626364 65000000 7 8"
}

/// A stamp alone.
pub(crate) fn stamp() -> &'static str {
    "a 7 9 0 0 0 0"
}

/// What the second volume of the first record has behind its own number and its family's.
pub(crate) fn second_volume() -> &'static str {
    "\
    0 0 2 1 0 1 1 1 3 1 1 2 1 1 2 0 0 1ed 0 0 0 0 0 1 17 310a300a 73797374 656d3a61 6e797573 65720931 32370a00 4 0"
}
