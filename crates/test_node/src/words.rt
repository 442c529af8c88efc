//! Bytes as words in hexadecimal digits, four of each. What takes long ones does so by a function, so that no other goal has those words.

use afs_num::types::Mem;
use std::alloc::Global;
use std::fmt::Write;

pub(crate) fn put_words(out: &mut Vec<u8>, words: &str) -> Mem<()> {
    for word in words.split_whitespace() {
        let number = u32::from_str_radix(word, 16).unwrap_or(0);
        out.extend_from_slice(&number.to_be_bytes())?;
    }
    Ok(())
}

/// The bytes of these words.
pub(crate) fn bytes_of(alloc: Global, words: &str) -> Mem<Vec<u8>> {
    let mut bytes = Vec::new(alloc);
    put_words(&mut bytes, words)?;
    Ok(bytes)
}

/// Bytes in hexadecimal digits, in text.
pub(crate) fn put_hex(out: &mut String, bytes: &[u8]) -> Mem<()> {
    for byte in bytes {
        write!(out, "{byte:02x}")?;
    }
    Ok(())
}
