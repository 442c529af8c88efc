//! What the program reads from and writes to. Each source and sink counts its faults. A call fails only where that count rose, and it
//! rises only where a call fails: so neither a fault that didn't come nor one that did can be told otherwise by a caller. The sources and
//! sinks over a process's streams do the counting, and no contract says when a stream fails.

ghost use Rattle.std.specs.Prelude.{◌≡◌, ◌≢◌, ◌+◌, ◌<◌, ◌≤◌, [], Err, length, IfErr, IfOk, OnOk, OnErr, Option, List, ℕ};
ghost use Rattle.std.specs.Io.{ReadsAtMost, WritesAtMost};
ghost use Rattle.std.specs.Io.KnownBytes.{Appends, IsAtEnd, Keeps, ReadConsumes, WriteAppends};
ghost use Rattle.afs_outside.specs.Outside.{Rose, HasCause, HadAll, IfTooLong, UnlessFailed, TakesTooMuch, TakesAtMost, TakesPiece, AppendsFront, Puts};

use afs_num::sequences::Octets;
use std::alloc::Global;
use std::io::{ErrorKind, Read, Write};

/// A call to the outside failed.
#[derive(Clone, Copy, Debug, PartialEq, Eq)]
pub struct Failed;

/// Where bytes come from.
pub trait Source {
    /// The bytes that are left, where the source tells them.
    ghost left: { Self → Option (List ℕ) };

    /// How often it has failed. This never falls.
    ghost faults: { Self → ℕ };

    /// Takes the next bytes, as many as come at once and fit. 0 is the end.
    fn read(&mut self, buf: &mut [u8]) -> Result<usize, Failed>
        requires { 0 < length buf.old }
        ensures bound { ReadsAtMost result buf.new }
        ensures bytes { ReadConsumes (left self.old) (left self.new) result buf.new }
        ensures cause { HasCause (faults self.old) (faults self.new) result };
}

/// Where bytes go.
pub trait Sink {
    /// The bytes that were written, where the sink tells them.
    ghost held: { Self → Option (List ℕ) };

    /// Those of them that don't wait in the sink any more, where it tells them: they were passed on to where they belong.
    ghost passed: { Self → Option (List ℕ) };

    /// How often it has failed. This never falls.
    ghost faults: { Self → ℕ };

    /// Takes bytes from the front, at least one, and says how many.
    fn write(&mut self, bytes: &[u8]) -> Result<usize, Failed>
        requires { 0 < length bytes.now }
        ensures bound { WritesAtMost result bytes.now }
        ensures some { IfOk result (λ n. 0 < n) }
        ensures bytes { WriteAppends (held self.old) (held self.new) result bytes.now }
        ensures cause { HasCause (faults self.old) (faults self.new) result };

    /// Passes on what was written so far.
    fn flush(&mut self) -> Result<(), Failed>
        ensures bytes { Keeps (held self.old) (held self.new) }
        ensures all { OnOk result (passed self.new ≡ held self.new) }
        ensures cause { HasCause (faults self.old) (faults self.new) result };
}

/// Why a source was not read to its end.
#[derive(Debug, Drop)]
pub enum ReadError {
    Failed,
    /// It has more bytes than the limit. These are as many as the limit and one more.
    TooLong(Octets),
    OutOfMemory,
}

/// How many bytes are asked of a source at once.
const PIECE: usize = 4096;

/// Takes the next piece, of at most so many bytes, behind those that were taken before.
fn read_piece<S: Source>(
    source: &mut S,
    bytes: &mut Vec<u8>,
    most: usize,
) -> Result<usize, ReadError>
    requires { 0 < most }
    ensures piece { IfOk result (λ n. TakesPiece most n (S.left source.old) (S.left source.new) bytes.old.items bytes.new.items) }
    ensures stops { TakesAtMost most (S.left source.old) (S.left source.new) }
    ensures kept { S.faults source.old ≤ S.faults source.new }
    ensures fault { result ≡ Err ReadError.Failed → Rose (S.faults source.old) (S.faults source.new) }
    ensures never_too_long { IfTooLong result (λ _. ⊥) }
    ensures quiet { UnlessFailed result (S.faults source.new ≡ S.faults source.old) }
{
    let mut buffer = [0; PIECE];
    let room = most.min(PIECE);
    match source.read(&mut buffer[..room]) {
        Ok(n) => match bytes.extend_from_slice(&buffer[..n]) {
            Ok(()) => Ok(n),
            Err(_) => Err(ReadError::OutOfMemory),
        },
        Err(Failed) => Err(ReadError::Failed),
    }
}

/// The bytes that were taken.
fn as_octets(bytes: Vec<u8>) -> Result<Octets, ReadError>
    ensures ok { IfOk result (λ octets. octets ≡ bytes.items) }
    ensures err { IfErr result (λ e. e ≡ ReadError.OutOfMemory) }
{
    match Octets::from_vec(bytes) {
        Ok(bytes) => Ok(bytes),
        Err(_) => Err(ReadError::OutOfMemory),
    }
}

/// All that the source has left. It stops once one byte above the limit was taken.
pub fn read_all<S: Source>(alloc: Global, source: &mut S, limit: u32) -> Result<Octets, ReadError>
    ensures all { IfOk result (λ bytes. HadAll (S.left source.old) bytes) }
    ensures end { OnOk result (IsAtEnd (S.left source.new)) }
    ensures short { IfOk result (λ bytes. length bytes ≤ limit) }
    ensures too_long { IfTooLong result (λ bytes. TakesTooMuch limit (S.left source.old) (S.left source.new) bytes) }
    ensures stops { TakesAtMost (limit + 1) (S.left source.old) (S.left source.new) }
    ensures kept { S.faults source.old ≤ S.faults source.new }
    ensures fault { result ≡ Err ReadError.Failed → Rose (S.faults source.old) (S.faults source.new) }
    ensures quiet { UnlessFailed result (S.faults source.new ≡ S.faults source.old) }
{
    let limit = limit as usize;
    let mut bytes = Vec::new(alloc);
    while bytes.len() <= limit {
        let most = limit + 1 - bytes.len();
        if read_piece(source, &mut bytes, most)? == 0 {
            return as_octets(bytes);
        }
    }
    Err(ReadError::TooLong(as_octets(bytes)?))
}

/// Writes all of these bytes, piece by piece as the sink takes them.
fn put_rest<K: Sink>(sink: &mut K, bytes: &[u8]) -> Result<(), Failed>
    ensures { Puts bytes.now (K.held sink.old) (K.held sink.new) (K.faults sink.old) (K.faults sink.new) result }
{
    let mut at = 0;
    while at < bytes.len() {
        at += sink.write(bytes.split_at(at).1)?;
    }
    Ok(())
}

/// Writes all of these bytes. Most sinks take all of them at once.
#[inline(always)]
pub fn put_bytes<K: Sink>(sink: &mut K, bytes: &[u8]) -> Result<(), Failed>
    ensures { Puts bytes.now (K.held sink.old) (K.held sink.new) (K.faults sink.old) (K.faults sink.new) result }
{
    if bytes.is_empty() {
        return Ok(());
    }
    let n = sink.write(bytes)?;
    if n == bytes.len() {
        return Ok(());
    }
    put_rest(sink, bytes.split_at(n).1)
}

/// Passes on what was written so far, and writes no more.
pub fn pass_on<K: Sink>(sink: &mut K) -> Result<(), Failed>
    ensures puts { Puts [] (K.held sink.old) (K.held sink.new) (K.faults sink.old) (K.faults sink.new) result }
    ensures all { OnOk result (K.passed sink.new ≡ K.held sink.new) }
{
    sink.flush()
}

/// Writes all of these bytes and passes them on.
pub fn write_all<K: Sink>(sink: &mut K, bytes: &[u8]) -> Result<(), Failed>
    ensures ok { OnOk result (Appends (K.held sink.old) (K.held sink.new) bytes.now) }
    ensures err { OnErr result (AppendsFront (K.held sink.old) (K.held sink.new) bytes.now) }
    ensures all { OnOk result (K.passed sink.new ≡ K.held sink.new) }
    ensures cause { HasCause (K.faults sink.old) (K.faults sink.new) result }
{
    put_bytes(sink, bytes)?;
    sink.flush()?;
    Ok(())
}

/// One read, made again where a signal interrupted it.
fn read_through<R: Read>(reader: &mut R, buf: &mut [u8]) -> Result<usize, Failed>
    ensures bound { ReadsAtMost result buf.new }
    ensures bytes { ReadConsumes (R.remaining reader.old) (R.remaining reader.new) result buf.new }
{
    for _ in 0..u64::MAX {
        match reader.read(buf) {
            Ok(n) => return Ok(n),
            Err(error) if error.kind() == ErrorKind::Interrupted => {}
            Err(_) => return Err(Failed),
        }
    }
    Err(Failed)
}

/// One write, made again where a signal interrupted it.
fn write_through<W: Write>(writer: &mut W, bytes: &[u8]) -> Result<usize, Failed>
    ensures bound { WritesAtMost result bytes.now }
    ensures bytes { WriteAppends (W.contents writer.old) (W.contents writer.new) result bytes.now }
{
    for _ in 0..u64::MAX {
        match writer.write(bytes) {
            Ok(n) => return Ok(n),
            Err(error) if error.kind() == ErrorKind::Interrupted => {}
            Err(_) => return Err(Failed),
        }
    }
    Err(Failed)
}

/// The bytes of a reader, as a standard stream.
#[derive(Drop)]
pub struct HostSource<R> {
    inner: R,
    faults: u64,
}

impl<R: Read> HostSource<R> {
    pub fn new(inner: R) -> Self
        ensures left { ⟦<HostSource<R> as Source>⟧.left result ≡ R.remaining inner }
        ensures faults { ⟦<HostSource<R> as Source>⟧.faults result ≡ 0 }
    {
        HostSource { inner, faults: 0 }
    }
}

impl<R: Read> Source for HostSource<R> {
    ghost left = { λ s. R.remaining s.inner };

    ghost faults = { λ s. s.faults };

    fn read(&mut self, buf: &mut [u8]) -> Result<usize, Failed> {
        match read_through(&mut self.inner, buf) {
            Ok(n) => Ok(n),
            Err(_) => {
                self.faults = self.faults.saturating_add(1);
                Err(Failed)
            }
        }
    }
}

/// The bytes that a writer takes, as a standard stream. They count as passed on once the writer has them: no contract says what its flush
/// does.
#[derive(Drop)]
pub struct HostSink<W> {
    inner: W,
    faults: u64,
}

impl<W: Write> HostSink<W> {
    pub fn new(inner: W) -> Self
        ensures held { ⟦<HostSink<W> as Sink>⟧.held result ≡ W.contents inner }
        ensures faults { ⟦<HostSink<W> as Sink>⟧.faults result ≡ 0 }
    {
        HostSink { inner, faults: 0 }
    }
}

impl<W: Write> Sink for HostSink<W> {
    ghost held = { λ s. W.contents s.inner };

    ghost passed = { λ s. W.contents s.inner };

    ghost faults = { λ s. s.faults };

    fn write(&mut self, bytes: &[u8]) -> Result<usize, Failed> {
        match write_through(&mut self.inner, bytes) {
            Ok(n) if n > 0 => Ok(n),
            Ok(_) | Err(_) => {
                self.faults = self.faults.saturating_add(1);
                Err(Failed)
            }
        }
    }

    fn flush(&mut self) -> Result<(), Failed> {
        match self.inner.flush() {
            Ok(()) => Ok(()),
            Err(_) => {
                self.faults = self.faults.saturating_add(1);
                Err(Failed)
            }
        }
    }
}
