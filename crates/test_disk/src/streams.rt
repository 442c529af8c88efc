// Sources and sinks: those in memory, over the standard streams, and with a buffer.
use crate::streams::Put::{All, Bytes, Flush};
use afs_outside::buffered::BufferedSink;
use afs_outside::memory::{MemSink, MemSource};
use afs_outside::outside::{
    HostSink, HostSource, ReadError, Sink, Source, put_bytes, read_all, write_all,
};
use std::alloc::Global;
use std::fmt::Write as _;
use std::test::Fail;

// What a sink is given: bytes, bytes that are passed on at once, or nothing but to pass on.
#[derive(Clone, Copy)]
enum Put<'a> {
    Bytes(&'a [u8]),
    All(&'a [u8]),
    Flush,
}

fn is_taken<K: Sink>(sink: &mut K, put: Put) -> bool {
    match put {
        Bytes(bytes) => put_bytes(sink, bytes).is_ok(),
        All(bytes) => write_all(sink, bytes).is_ok(),
        Flush => sink.flush().is_ok(),
    }
}

fn put_taken<K: Sink>(out: &mut String, sink: &mut K, put: Put) {
    let word = if is_taken(sink, put) {
        "ok "
    } else {
        "failed "
    };
    let _ = out.push_str(word);
}

// Whether a sink takes each of these.
fn taken<K: Sink>(alloc: Global, sink: &mut K, puts: &[Put]) -> String {
    let mut out = String::new(alloc);
    for put in puts {
        put_taken(&mut out, sink, *put);
    }
    out
}

pub(crate) fn put_text(out: &mut String, bytes: &[u8]) {
    for byte in bytes {
        let _ = out.push(*byte as char);
    }
}

fn put_error(out: &mut String, error: &ReadError) {
    match error {
        ReadError::TooLong(bytes) => {
            let _ = out.push_str("too long: ");
            put_text(out, bytes.as_slice());
        }
        ReadError::Failed => {
            let _ = out.push_str("failed");
        }
        _ => {
            let _ = out.push_str("out of memory");
        }
    }
}

// What is read of a source.
fn read<S: Source>(alloc: Global, source: &mut S, limit: u32) -> String {
    let mut out = String::new(alloc);
    match read_all(alloc, source, limit) {
        Ok(bytes) => put_text(&mut out, bytes.as_slice()),
        Err(error) => put_error(&mut out, &error),
    }
    out
}

// So many letters.
fn letters(alloc: Global, count: u32) -> String {
    let mut out = String::new(alloc);
    for _ in 0..count {
        let _ = out.push('a');
    }
    out
}

// A short text, and of a long one its length and its end.
fn put_held(out: &mut String, bytes: &[u8]) {
    if bytes.len() > 100 {
        let _ = write!(out, "{} bytes: ", bytes.len());
    }
    let shown = bytes.len().min(100);
    put_text(out, bytes.get(bytes.len() - shown..).unwrap_or(b""));
    let _ = out.push('|');
}

// Whether a sink with a buffer before this one takes each of these, and what this one holds after each.
fn told_behind(alloc: Global, sink: MemSink, puts: &[Put]) -> String {
    let mut out = String::new(alloc);
    let mut buffered = BufferedSink::new(sink);
    for put in puts {
        put_taken(&mut out, &mut buffered, *put);
        put_held(&mut out, buffered.inner().as_slice());
    }
    out
}

#[test]
fn what_is_put_waits_until_it_is_passed_on(rt: HostRuntime) {
    let puts = [Bytes(b"entry 1 c1\n"), Bytes(b"answer c1 0\n"), Flush];
    let told = told_behind(rt.alloc(), MemSink::new(rt.alloc(), &[]), &puts);
    assert_eq!(rt; told.as_str(), "ok |ok |ok entry 1 c1\nanswer c1 0\n|");
}

#[test]
fn a_full_buffer_is_passed_on(rt: HostRuntime) {
    let many = letters(rt.alloc(), 20000);
    let puts = [Bytes(many.as_bytes()), All(b"end\n")];
    let told = told_behind(rt.alloc(), MemSink::new(rt.alloc(), &[]), &puts);
    assert!(rt; told.as_str().starts_with("ok 16384 bytes: aaaa"));
    assert!(rt;
        told.as_str().ends_with(
            "a|ok 20004 bytes: aaaaaaaaaaaaaaaaaaaaaaaaaaaaaaaaaaaaaaaaaaaaaaaaaaaaaaaaaaaaaaaaaaaaaaaaaaaaaaaaaaaaaaaaaaaaaaaaend\n|"
        )
    );
}

#[test]
fn a_full_sink_behind_holds_a_beginning(rt: HostRuntime) -> Result<(), Fail> {
    let puts = [All(b"entry 1 c1\nbegin"), Flush];
    let told = told_behind(rt.alloc(), MemSink::with_room(rt.alloc(), 10, &[])?, &puts);
    assert_eq!(rt; told.as_str(), "failed entry 1 c1|failed entry 1 c1|");
    Ok(())
}

#[test]
fn what_a_failure_leaves_is_passed_on_later(rt: HostRuntime) {
    let puts = [All(b"begin"), All(b" c1\n"), Flush];
    let told = told_behind(rt.alloc(), MemSink::new(rt.alloc(), &[1, 0, 1]), &puts);
    assert_eq!(rt; told.as_str(), "failed |failed begin c1\n|ok begin c1\n|");
}

#[test]
fn a_source_is_read_to_its_end(rt: HostRuntime) {
    let alloc = rt.alloc();
    let many = letters(alloc, 10000);
    assert_eq!(rt; many.as_bytes().len(), 10000);
    let found = read(alloc, &mut MemSource::new(many.as_bytes(), &[]), 10000);
    assert_eq!(rt; found.as_str(), many.as_str());
    let found = read(alloc, &mut HostSource::new(b"cell 1\n".as_slice()), 7);
    assert_eq!(rt; found.as_str(), "cell 1\n");
}

#[test]
fn one_byte_above_the_limit_is_too_long(rt: HostRuntime) {
    let mut source = MemSource::new(b"abcdef", &[]);
    let found = read(rt.alloc(), &mut source, 3);
    assert_eq!(rt; found.as_str(), "too long: abcd");
    let rest = read(rt.alloc(), &mut source, 3);
    assert_eq!(rt; rest.as_str(), "ef");
}

#[test]
fn a_read_fails_in_mid_stream(rt: HostRuntime) {
    let found = read(rt.alloc(), &mut MemSource::new(b"abc", &[0, 1]), 100);
    assert_eq!(rt; found.as_str(), "failed");
}

// Whether a sink takes each of these, and what it holds then.
fn told_of_sink(alloc: Global, sink: MemSink, puts: &[Put]) -> String {
    let mut sink = sink;
    let mut out = taken(alloc, &mut sink, puts);
    put_text(&mut out, sink.as_slice());
    out
}

#[test]
fn a_full_sink_holds_a_beginning(rt: HostRuntime) -> Result<(), Fail> {
    let full = MemSink::with_room(rt.alloc(), 10, &[])?;
    let told = told_of_sink(rt.alloc(), full, &[All(b"entry 1 c1\nbegin")]);
    assert_eq!(rt; told.as_str(), "failed entry 1 c1");
    Ok(())
}

#[test]
fn a_sink_that_cannot_flush_holds_all(rt: HostRuntime) {
    let unflushed = MemSink::new(rt.alloc(), &[0, 1]);
    let told = told_of_sink(rt.alloc(), unflushed, &[All(b"end\n")]);
    assert_eq!(rt; told.as_str(), "failed end\n");
}

// What a sink over a standard stream writes there.
fn told_of_host(alloc: Global, puts: &[Put]) -> String {
    let mut bytes = Vec::new(alloc);
    let mut out = taken(alloc, &mut HostSink::new(&mut bytes), puts);
    put_text(&mut out, &bytes);
    out
}

#[test]
fn a_standard_stream_gets_what_is_put(rt: HostRuntime) {
    let told = told_of_host(rt.alloc(), &[All(b"end\n")]);
    assert_eq!(rt; told.as_str(), "ok end\n");
}
