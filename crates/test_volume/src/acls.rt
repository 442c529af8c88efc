//! Texts that are no access lists.

use afs_acl::acl::Acl;
use afs_acl::faults::AclFault;
use std::alloc::Global;

const ANYUSER: &[u8] = b"1\n0\nsystem:anyuser\t127\n";

// Why a text is no access list.
fn fault(alloc: Global, text: &[u8]) -> Option<AclFault> {
    Acl::parse(alloc, text).err()
}

#[test]
fn a_text_that_is_cut_is_bad_at_its_end(rt: HostRuntime) {
    for length in 0..23_usize {
        let bad = fault(rt.alloc(), &ANYUSER[..length]);
        assert_eq!(rt; bad, Some(AclFault::BadAcl(length as u32)));
    }
}

#[test]
fn the_first_bad_byte_is_told(rt: HostRuntime) {
    for (text, want) in [
        (
            b"2\n0\nsystem:anyuser\t127\n".as_slice(),
            AclFault::BadAcl(23),
        ),
        (b"1\n1\nsystem:anyuser\t127\n", AclFault::BadAcl(23)),
        (b"0\n0\nsystem:anyuser\t127\n", AclFault::BadAcl(4)),
        (b"01\n0\n", AclFault::BadAcl(1)),
        (b"4294967296\n0\n", AclFault::BadAcl(9)),
        (b"-1\n0\n", AclFault::BadAcl(0)),
        (b"1\n0\n\t8\n", AclFault::BadAcl(4)),
        (b"1\n0\na\t128\n", AclFault::BadAcl(8)),
        (b"1\n0\na\n", AclFault::BadAcl(5)),
        (b"2\n0\na\t8\na\t1\n", AclFault::BadAcl(9)),
        (b"20\n0\n", AclFault::BadAcl(5)),
        (b"21\n0\n", AclFault::TooMany(21)),
        (b"20\n1\n", AclFault::TooMany(21)),
        (
            b"4294967295\n4294967295\n",
            AclFault::TooMany(8_589_934_590),
        ),
    ] {
        assert_eq!(rt; fault(rt.alloc(), text), Some(want));
    }
}
