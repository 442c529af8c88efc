//! Messages of the file servers and clients as words; the samples and vectors were made by another program.

use crate::samples::{
    Interface, bytes_of_line, faults, faults_where_changed, keeps_all, refuses_all, sizes,
};
use afs_fsrpc::heads::read_head;
use afs_num::types::Half;
use std::alloc::Global;
use std::fmt::Write as _;
use std::test::Fail;

fn put_sizes(
    out: &mut String,
    alloc: Global,
    interface: Interface,
    half: Half,
) -> Result<(), Fail> {
    let [words, ends, pads, counts] = sizes(alloc, interface, half)?;
    writeln!(out, "{words} {ends} {pads} {counts}")?;
    Ok(())
}

fn put_sizes_of_both(out: &mut String, alloc: Global, interface: Interface) -> Result<(), Fail> {
    put_sizes(out, alloc, interface, Half::Call)?;
    put_sizes(out, alloc, interface, Half::Reply)
}

// What was counted in the tables by another program: the words, ends, pads and counts of the calls and of the replies.
#[test]
fn each_table_is_read_whole(rt: HostRuntime) -> Result<(), Fail> {
    let mut out = String::new(rt.alloc());
    put_sizes_of_both(&mut out, rt.alloc(), Interface::Files)?;
    put_sizes_of_both(&mut out, rt.alloc(), Interface::Volumes)?;
    put_sizes_of_both(&mut out, rt.alloc(), Interface::Locations)?;
    assert_eq!(rt;
        out.as_str(),
        "351 62 126 108\n725 70 6 15\n179 60 6 51\n157 31 2 6\n120 20 14 42\n141 17 18 24\n"
    );
    Ok(())
}

#[test]
fn each_call_is_read_and_written_again(rt: HostRuntime) -> Result<(), Fail> {
    keeps_all(&rt, rt.alloc(), Interface::Files, Half::Call, 20)
}

#[test]
fn each_reply_is_read_and_written_again(rt: HostRuntime) -> Result<(), Fail> {
    keeps_all(&rt, rt.alloc(), Interface::Files, Half::Reply, 20)
}

#[test]
fn a_changed_call_is_refused_with_its_fault(rt: HostRuntime) -> Result<(), Fail> {
    refuses_all(&rt, rt.alloc(), Interface::Files, Half::Call)
}

#[test]
fn a_changed_reply_is_refused_with_its_fault(rt: HostRuntime) -> Result<(), Fail> {
    refuses_all(&rt, rt.alloc(), Interface::Files, Half::Reply)
}

const OPEN: &str = "1 101 1 1 1 1 0 130 5 0x67756573 0x74000000 0x20000000 2 2 0 0x7fffffff";

#[test]
fn an_open_is_refused_with_its_fault(rt: HostRuntime) -> Result<(), Fail> {
    let changes = "7 161\n7 143\n10 0x74000001\n0 9\n1 117";
    let told = faults_where_changed(rt.alloc(), Interface::Files, Half::Call, OPEN, changes)?;
    assert_eq!(rt;
        told.as_str(),
        "NoRow(161)\nNoRow(143)\nField(0, BadPad)\nHead(BadHead)\nHead(BadHead)\n"
    );
    let as_reply = faults(rt.alloc(), Interface::Files, Half::Reply, OPEN)?;
    assert_eq!(rt; as_reply.as_str(), "Head(BadHead)\n");
    Ok(())
}

/// Tells why each of these messages has no head. Each is a line of words.
fn head_faults(alloc: Global, messages: &str) -> Result<String, Fail> {
    let mut out = String::new(alloc);
    for line in messages.lines() {
        let bytes = bytes_of_line(alloc, line)?;
        match read_head(&bytes) {
            Ok(_) => out.push_str("a head\n")?,
            Err(fault) => writeln!(out, "{fault:?}")?,
        }
    }
    Ok(out)
}

// Its half is none, or its sender.
#[test]
fn a_head_is_refused_with_its_fault(rt: HostRuntime) -> Result<(), Fail> {
    let told = head_faults(
        rt.alloc(),
        "9 101 1 1 1 1 0 130\n1 117 1 1 1 1 0 130\n1 101 1 1 1 1 0 130",
    )?;
    assert_eq!(rt; told.as_str(), "BadHead\nBadHead\na head\n");
    Ok(())
}

/// A reply with a code and a word behind it.
const REFUSAL: &str = "2 1 101 1 1 1 0 133 0xffffffff 0";

#[test]
fn a_refusal_with_fields_is_refused(rt: HostRuntime) -> Result<(), Fail> {
    let more = faults(rt.alloc(), Interface::Files, Half::Reply, REFUSAL)?;
    assert_eq!(rt; more.as_str(), "Field(1, Extra)\n");
    Ok(())
}

/// Calls that end behind a count: the breaks of a call three times, and the bytes of a store.
const COUNTED: &str = "\
1 1 101 1 1 1 0 204 0 51
1 1 101 1 1 1 0 204 0 0xffffffff
1 1 101 1 1 1 0 204 0 50
1 101 1 1 1 1 0 133 0 1 2 2 0 0 0 0 0 0 0 0xffffffff 4 2000000
";

/// A reply that ends behind the count of an access list's bytes.
const COUNTED_REPLY: &str = "2 1 101 1 1 1 0 131 0 1025";

#[test]
fn hostile_counts_are_refused(rt: HostRuntime) -> Result<(), Fail> {
    let calls = faults(rt.alloc(), Interface::Files, Half::Call, COUNTED)?;
    assert_eq!(rt;
        calls.as_str(),
        "Field(1, TooLong)\nField(1, TooLong)\nField(1, Short)\nField(6, Short)\n"
    );
    let reply = faults(rt.alloc(), Interface::Files, Half::Reply, COUNTED_REPLY)?;
    assert_eq!(rt; reply.as_str(), "Field(1, TooLong)\n");
    Ok(())
}
