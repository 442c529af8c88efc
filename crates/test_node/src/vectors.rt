//! A run of the reference program: the disk at set-up, and the messages that the server is given, as words in hexadecimal digits. What
//! takes one does so by a function, so that no other goal has those words.

use crate::words::bytes_of;
use afs_num::types::Mem;
use std::alloc::Global;

/// The first record of the disk, behind its length and its number.
pub(crate) fn first_record() -> &'static str {
    "\
    120 1 1 0 0 0 0 0 0 1 4 70726f6a 0 2 20000000 20000000 0 3e8 3 1 0 2 1 1 2 2 3 1 1 2 1 1 2 0 0 1ed 0 0 0 0 0 1 \
    17 310a300a 73797374 656d3a61 6e797573 65720931 32370a00 14 1 1 61000000 2 2 3 2 2 1 1 1 1 0 0 1a4 0 0 0 1 1 1 0 \
    3 61626300"
}

fn settled_by_one() -> &'static str {
    "2 65 1 2 1 1 0 cd 0"
}

fn settled_by_two() -> &'static str {
    "2 66 1 2 2 1 0 cd 0"
}

fn fetch() -> &'static str {
    "1 65 1 1 1 2 0 82 5 67756573 74000000 20000000 2 2 0 7fffffff"
}

/// A message that the server is given.
#[derive(Clone, Copy)]
pub(crate) enum Message {
    /// Client 1's answer that all promises are broken.
    SettledByOne,
    /// Client 2's answer that all promises are broken.
    SettledByTwo,
    /// Client 1's FetchData. The hostile ones are this call, changed.
    Fetch,
    /// Its operation is none that a server serves.
    UnknownOperation,
    /// Its last byte is missing.
    Cut,
    /// The last pad byte behind its user isn't zero.
    BadPad,
    /// Its half is none.
    UnknownHalf,
}

/// The call with this byte at this place.
fn changed(alloc: Global, place: usize, byte: u8) -> Mem<Vec<u8>> {
    let mut bytes = bytes_of(alloc, fetch())?;
    if let Some(one) = bytes.get_mut(place) {
        *one = byte;
    }
    Ok(bytes)
}

/// The call without its last byte.
fn cut(alloc: Global) -> Mem<Vec<u8>> {
    let mut bytes = bytes_of(alloc, fetch())?;
    bytes.truncate(63);
    Ok(bytes)
}

/// The message's bytes.
pub(crate) fn spelled(alloc: Global, message: Message) -> Mem<Vec<u8>> {
    match message {
        Message::SettledByOne => bytes_of(alloc, settled_by_one()),
        Message::SettledByTwo => bytes_of(alloc, settled_by_two()),
        Message::Fetch => bytes_of(alloc, fetch()),
        Message::UnknownOperation => changed(alloc, 31, 161),
        Message::Cut => cut(alloc),
        Message::BadPad => changed(alloc, 43, 1),
        Message::UnknownHalf => changed(alloc, 3, 9),
    }
}
