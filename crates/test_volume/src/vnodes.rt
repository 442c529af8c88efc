//! Bytes that are no images of vnodes.

use afs_num::types::Mem;
use afs_vnode::faults::ImageFault;
use afs_vnode::images::read_image;
use afs_xdr::faults::XdrFault;
use afs_xdr::reading::Reader;
use std::alloc::Global;
use std::test::Fail;

// The root of a new volume, as words in hexadecimal digits: its status, its access list, and no names.
fn root_words() -> &'static str {
    "1 1 2 3 4 2 0 0 1ed 0 0 0 0 0 1 17 310a300a 73797374 656d3a61 6e797573 65720931 32370a00 4 0"
}

fn root(alloc: Global) -> Mem<Vec<u8>> {
    let mut bytes = Vec::new(alloc);
    for word in root_words().split_whitespace() {
        let number = u32::from_str_radix(word, 16).unwrap_or(0);
        bytes.extend_from_slice(&number.to_be_bytes())?;
    }
    Ok(bytes)
}

// Why bytes are no image, and how many are left.
fn fault(alloc: Global, bytes: &[u8]) -> (Option<ImageFault>, usize) {
    let mut reader = Reader::new(bytes);
    let fault = read_image(alloc, &mut reader).err();
    (fault, reader.left_len())
}

// The number of the field that isn't whole where an image is cut to so many bytes.
fn cut_field(length: usize) -> u32 {
    match length {
        0..64 => (length / 4 + 1) as u32,
        64..88 => 16,
        _ => 17,
    }
}

#[test]
fn an_image_that_is_cut_is_bad_where_it_ends(rt: HostRuntime) -> Result<(), Fail> {
    let bytes = root(rt.alloc())?;
    assert_eq!(rt; bytes.len(), 96);
    for length in 0..96_usize {
        let found = fault(rt.alloc(), bytes.get(..length).unwrap_or(&[]));
        let want = ImageFault::Field(cut_field(length), XdrFault::Short);
        assert_eq!(rt; found, (Some(want), length));
    }
    Ok(())
}

// Why it is no image with this byte at this place.
fn fault_with(alloc: Global, place: usize, value: u8) -> Mem<(Option<ImageFault>, usize)> {
    let mut bytes = root(alloc)?;
    if let Some(byte) = bytes.get_mut(place) {
        *byte = value;
    }
    Ok(fault(alloc, &bytes))
}

#[test]
fn the_first_bad_field_is_told(rt: HostRuntime) -> Result<(), Fail> {
    for (at, byte, place, cause) in [
        (3, 2, 3, XdrFault::BadType),
        (11, 1, 3, XdrFault::BadType),
        (11, 7, 3, XdrFault::BadType),
        (62, 5, 16, XdrFault::TooLong),
        (63, 33, 16, XdrFault::Short),
        (87, 1, 16, XdrFault::BadPad),
        (89, 33, 17, XdrFault::TooLong),
        (91, 5, 17, XdrFault::Short),
    ] {
        let want = ImageFault::Field(place, cause);
        assert_eq!(rt; fault_with(rt.alloc(), at, byte)?, (Some(want), 96));
    }
    Ok(())
}
