//! Messages as words, with where their fields end, their pads and their counts stand; and what each is refused with
//! where it is changed.

use crate::tables::{
    file_calls, file_replies, location_calls, location_replies, volume_calls, volume_replies,
};
use afs_num::sequences::Octets;
use afs_num::types::{Half, Mem};
use afs_xdr::faults::XdrFault;
use spec_shape::faults::ShapeFault;
use std::alloc::Global;
use std::fmt::Write as _;
use std::process::Abort;
use std::test::Fail;

/// A line of a table: the words of a message, the byte behind each field from place 0 on, its pad bytes with their fields, and its
/// counts (the word, the field, the limit).
#[derive(Drop)]
pub struct Sample {
    words: Vec<u32>,
    ends: Vec<u32>,
    pads: Vec<u32>,
    counts: Vec<u32>,
}

fn number(word: &str) -> u32 {
    match word.strip_prefix("0x") {
        Some(digits) => u32::from_str_radix(digits, 16).unwrap_or(0),
        None => u32::from_str_radix(word, 10).unwrap_or(0),
    }
}

fn numbers(alloc: Global, text: Option<&str>) -> Mem<Vec<u32>> {
    let mut all = Vec::new(alloc);
    for word in text.unwrap_or("").split_whitespace() {
        all.push(number(word))?;
    }
    Ok(all)
}

fn sample_of(alloc: Global, line: &str) -> Mem<Sample> {
    let mut parts = line.split('|');
    let words = numbers(alloc, parts.next())?;
    let ends = numbers(alloc, parts.next())?;
    let pads = numbers(alloc, parts.next())?;
    let counts = numbers(alloc, parts.next())?;
    Ok(Sample {
        words,
        ends,
        pads,
        counts,
    })
}

/// An interface, by the functions of its crate.
#[derive(Clone, Copy)]
pub enum Interface {
    Files,
    Volumes,
    Locations,
}

/// The table of its calls or of its replies.
fn table(interface: Interface, half: Half) -> &'static str {
    match (interface, half) {
        (Interface::Files, Half::Call) => file_calls(),
        (Interface::Files, _) => file_replies(),
        (Interface::Volumes, Half::Call) => volume_calls(),
        (Interface::Volumes, _) => volume_replies(),
        (Interface::Locations, Half::Call) => location_calls(),
        (Interface::Locations, _) => location_replies(),
    }
}

/// The bytes of these words.
fn bytes_of(alloc: Global, words: &[u32]) -> Result<Vec<u8>, Fail> {
    let mut bytes = Vec::new(alloc);
    for word in words {
        bytes.extend_from_slice(&word.to_be_bytes())?;
    }
    Ok(bytes)
}

/// Why these bytes are no call, or no reply, of the interface.
fn fault_of(alloc: Global, interface: Interface, half: Half, bytes: &[u8]) -> Option<ShapeFault> {
    match (interface, half) {
        (Interface::Files, Half::Call) => afs_fsrpc::calls::decode_call(alloc, bytes).err(),
        (Interface::Files, _) => afs_fsrpc::replies::decode_reply(alloc, bytes).err(),
        (Interface::Volumes, Half::Call) => afs_volrpc::calls::decode_call(alloc, bytes).err(),
        (Interface::Volumes, _) => afs_volrpc::replies::decode_reply(alloc, bytes).err(),
        (Interface::Locations, Half::Call) => afs_vlrpc::calls::decode_call(alloc, bytes).err(),
        (Interface::Locations, _) => afs_vlrpc::replies::decode_reply(alloc, bytes).err(),
    }
}

/// What these words are refused with.
fn refused(
    alloc: Global,
    interface: Interface,
    half: Half,
    words: &[u32],
) -> Result<Option<ShapeFault>, Fail> {
    let bytes = bytes_of(alloc, words)?;
    Ok(fault_of(alloc, interface, half, &bytes))
}

// A message is let go by a call: where it went at the end of a scope, each such end would be proved for each kind of message.

/// The bytes of the call that is read in these, by the functions of an interface.
macro_rules! call_again {
    ($interface:ident, $alloc:expr, $bytes:expr) => {{
        let (head, user, call) = $interface::calls::decode_call($alloc, $bytes)?;
        let again = $interface::calls::encode_call($alloc, &head, user.as_slice(), &call);
        drop(call);
        Ok(again?)
    }};
}

/// The bytes of the reply that is read in these, by the functions of an interface.
macro_rules! reply_again {
    ($interface:ident, $alloc:expr, $bytes:expr) => {{
        let (head, code, reply) = $interface::replies::decode_reply($alloc, $bytes)?;
        let again = $interface::replies::encode_reply($alloc, &head, code, reply.as_ref());
        drop(reply);
        Ok(again?)
    }};
}

/// The bytes of what is read in these.
fn again(alloc: Global, interface: Interface, half: Half, bytes: &[u8]) -> Result<Octets, Fail> {
    match (interface, half) {
        (Interface::Files, Half::Call) => call_again!(afs_fsrpc, alloc, bytes),
        (Interface::Files, _) => reply_again!(afs_fsrpc, alloc, bytes),
        (Interface::Volumes, Half::Call) => call_again!(afs_volrpc, alloc, bytes),
        (Interface::Volumes, _) => reply_again!(afs_volrpc, alloc, bytes),
        (Interface::Locations, Half::Call) => call_again!(afs_vlrpc, alloc, bytes),
        (Interface::Locations, _) => reply_again!(afs_vlrpc, alloc, bytes),
    }
}

fn keeps_one(
    rt: &impl Abort,
    alloc: Global,
    interface: Interface,
    half: Half,
    line: &str,
) -> Result<(), Fail> {
    let sample = sample_of(alloc, line)?;
    let bytes = bytes_of(alloc, &sample.words)?;
    let again = again(alloc, interface, half, &bytes)?;
    assert_eq!(rt; again.as_slice(), bytes.as_slice());
    Ok(())
}

/// Reads each message of the table, of which there are so many, and writes it again.
pub fn keeps_all(
    rt: &impl Abort,
    alloc: Global,
    interface: Interface,
    half: Half,
    count: usize,
) -> Result<(), Fail> {
    let table = table(interface, half);
    assert_eq!(rt; table.lines().count(), count);
    for line in table.lines() {
        keeps_one(rt, alloc, interface, half, line)?;
    }
    Ok(())
}

/// The field that a message is cut in, where it keeps so many bytes.
fn place_of(ends: &[u32], kept: usize) -> u32 {
    let mut place = 0u32;
    for end in ends {
        if *end as usize <= kept {
            place = place.saturating_add(1);
        }
    }
    place
}

/// The words, with one of them changed.
fn changed(alloc: Global, words: &[u32], at: usize, word: u32) -> Result<Vec<u32>, Fail> {
    let mut all = Vec::from_slice(alloc, words)?;
    if at < all.len() {
        all[at] = word;
    }
    Ok(all)
}

fn put_fault(
    out: &mut String,
    alloc: Global,
    interface: Interface,
    half: Half,
    words: &[u32],
) -> Result<(), Fail> {
    match refused(alloc, interface, half, words)? {
        Some(fault) => writeln!(out, "{fault:?}")?,
        None => writeln!(out, "none")?,
    }
    Ok(())
}

fn put_fault_of_line(
    out: &mut String,
    alloc: Global,
    interface: Interface,
    half: Half,
    line: &str,
) -> Result<(), Fail> {
    let words = numbers(alloc, Some(line))?;
    put_fault(out, alloc, interface, half, &words)
}

/// What each of these messages is refused with. Each is a line of words.
pub fn faults(
    alloc: Global,
    interface: Interface,
    half: Half,
    messages: &str,
) -> Result<String, Fail> {
    let mut out = String::new(alloc);
    for line in messages.lines() {
        put_fault_of_line(&mut out, alloc, interface, half, line)?;
    }
    Ok(out)
}

fn put_fault_where_changed(
    out: &mut String,
    alloc: Global,
    interface: Interface,
    half: Half,
    words: &[u32],
    change: &str,
) -> Result<(), Fail> {
    let pair = numbers(alloc, Some(change))?;
    let [at, word] = pair.as_slice() else {
        return Err("a change has a place and a word".into());
    };
    let words = changed(alloc, words, *at as usize, *word)?;
    put_fault(out, alloc, interface, half, &words)
}

/// What a message is refused with where one of its words is changed: each line has the word's place, and what it becomes.
pub fn faults_where_changed(
    alloc: Global,
    interface: Interface,
    half: Half,
    message: &str,
    changes: &str,
) -> Result<String, Fail> {
    let words = numbers(alloc, Some(message))?;
    let mut out = String::new(alloc);
    for change in changes.lines() {
        put_fault_where_changed(&mut out, alloc, interface, half, &words, change)?;
    }
    Ok(out)
}

/// The bytes of a line of words.
pub fn bytes_of_line(alloc: Global, line: &str) -> Result<Vec<u8>, Fail> {
    let words = numbers(alloc, Some(line))?;
    bytes_of(alloc, &words)
}

/// What a message is refused with where it keeps so many bytes.
fn fault_where_cut(sample: &Sample, kept: usize) -> ShapeFault {
    if kept < 32 {
        ShapeFault::Head(XdrFault::Short)
    } else {
        ShapeFault::Field(place_of(&sample.ends, kept), XdrFault::Short)
    }
}

fn refuses_each_cut(
    rt: &impl Abort,
    alloc: Global,
    interface: Interface,
    half: Half,
    sample: &Sample,
) -> Result<(), Fail> {
    let bytes = bytes_of(alloc, &sample.words)?;
    for kept in 0..bytes.len() {
        let fault = fault_of(alloc, interface, half, &bytes[..kept]);
        assert_eq!(rt; fault, Some(fault_where_cut(sample, kept)));
    }
    Ok(())
}

fn refuses_pad(
    rt: &impl Abort,
    alloc: Global,
    interface: Interface,
    half: Half,
    sample: &Sample,
    pad: &[u32],
) -> Result<(), Fail> {
    let [at, place] = pad else {
        return Err("a pad byte has its place and its field".into());
    };
    let mut bytes = bytes_of(alloc, &sample.words)?;
    if let Some(byte) = bytes.get_mut(*at as usize) {
        *byte = 1;
    }
    let fault = fault_of(alloc, interface, half, &bytes);
    assert_eq!(rt; fault, Some(ShapeFault::Field(*place, XdrFault::BadPad)));
    Ok(())
}

fn refuses_each_pad(
    rt: &impl Abort,
    alloc: Global,
    interface: Interface,
    half: Half,
    sample: &Sample,
) -> Result<(), Fail> {
    for pad in sample.pads.chunks(2) {
        refuses_pad(rt, alloc, interface, half, sample, pad)?;
    }
    Ok(())
}

fn refuses_count(
    rt: &impl Abort,
    alloc: Global,
    interface: Interface,
    half: Half,
    sample: &Sample,
    count: &[u32],
) -> Result<(), Fail> {
    let [at, place, limit] = count else {
        return Err("a count has its word, its field and its limit".into());
    };
    let words = changed(alloc, &sample.words, *at as usize, limit.saturating_add(1))?;
    let fault = refused(alloc, interface, half, &words)?;
    assert_eq!(rt; fault, Some(ShapeFault::Field(*place, XdrFault::TooLong)));
    Ok(())
}

fn refuses_each_count(
    rt: &impl Abort,
    alloc: Global,
    interface: Interface,
    half: Half,
    sample: &Sample,
) -> Result<(), Fail> {
    for count in sample.counts.chunks(3) {
        refuses_count(rt, alloc, interface, half, sample, count)?;
    }
    Ok(())
}

fn refuses_more(
    rt: &impl Abort,
    alloc: Global,
    interface: Interface,
    half: Half,
    sample: &Sample,
) -> Result<(), Fail> {
    let mut bytes = bytes_of(alloc, &sample.words)?;
    let place = place_of(&sample.ends, bytes.len());
    bytes.extend_from_slice(&[0, 0, 0, 0])?;
    let fault = fault_of(alloc, interface, half, &bytes);
    assert_eq!(rt; fault, Some(ShapeFault::Field(place, XdrFault::Extra)));
    Ok(())
}

/// Refuses it where it is cut, where a pad byte is set, where a count is raised, and where more stands behind it.
fn refuses_one(
    rt: &impl Abort,
    alloc: Global,
    interface: Interface,
    half: Half,
    line: &str,
) -> Result<(), Fail> {
    let sample = sample_of(alloc, line)?;
    refuses_each_cut(rt, alloc, interface, half, &sample)?;
    refuses_each_pad(rt, alloc, interface, half, &sample)?;
    refuses_each_count(rt, alloc, interface, half, &sample)?;
    refuses_more(rt, alloc, interface, half, &sample)
}

/// Refuses each message of the table where it is changed.
pub fn refuses_all(
    rt: &impl Abort,
    alloc: Global,
    interface: Interface,
    half: Half,
) -> Result<(), Fail> {
    for line in table(interface, half).lines() {
        refuses_one(rt, alloc, interface, half, line)?;
    }
    Ok(())
}

fn has_no_row(rt: &impl Abort, alloc: Global, other: Interface, line: &str) -> Result<(), Fail> {
    let sample = sample_of(alloc, line)?;
    let opcode = sample.words.get(7).copied().unwrap_or(0);
    let fault = refused(alloc, other, Half::Call, &sample.words)?;
    assert_eq!(rt; fault, Some(ShapeFault::NoRow(opcode)));
    Ok(())
}

/// Checks that no call of an interface has a row in another one.
pub fn have_no_row(
    rt: &impl Abort,
    alloc: Global,
    interface: Interface,
    other: Interface,
) -> Result<(), Fail> {
    for line in table(interface, Half::Call).lines() {
        has_no_row(rt, alloc, other, line)?;
    }
    Ok(())
}

/// How many words, ends, numbers of pad bytes and numbers of counts the messages of a table have.
pub fn sizes(alloc: Global, interface: Interface, half: Half) -> Mem<[usize; 4]> {
    let mut sizes = [0usize; 4];
    for line in table(interface, half).lines() {
        let sample = sample_of(alloc, line)?;
        sizes[0] = sizes[0].saturating_add(sample.words.len());
        sizes[1] = sizes[1].saturating_add(sample.ends.len());
        sizes[2] = sizes[2].saturating_add(sample.pads.len());
        sizes[3] = sizes[3].saturating_add(sample.counts.len());
    }
    Ok(sizes)
}
