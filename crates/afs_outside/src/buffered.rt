//! A sink that gathers what it is given, so that not each small piece is a call of the sink behind it.

ghost use Rattle.std.specs.Prelude.{◌≡◌, ◌+◌, ◌-◌, ◌<◌, ◌≤◌, [], ◌++◌, length, take, drop, min, IfOk, OnOk, OnErr};
ghost use Rattle.std.specs.Io.{WritesAtMost};
ghost use Rattle.std.specs.Io.KnownBytes.{Appends, Keeps, WriteAppends};
ghost use Rattle.afs_outside.specs.Buffered.{given_to, Gathers, PassesAll, PassesSome};
ghost use Rattle.afs_outside.specs.Outside.{HasCause};

use crate::outside::{Failed, Sink};
use crate::piece::Piece;
use std::marker::Model;

/// How many bytes are gathered.
const ROOM: usize = 8192;

/// A sink before another one. It takes no memory, and passes on what it gathered once there is no room for more, or where it is
/// asked to. What the other sink didn't take waits for the next call.
#[derive(Drop)]
pub struct BufferedSink<K> {
    inner: K,
    waiting: Piece<ROOM>,
}

impl<K> Model for BufferedSink<K> {
    ghost use Rattle.afs_outside.specs.Buffered.{Gathered};

    ghost Value = { Gathered K };

    ghost view = { λ s. record { inner = s.inner; waiting = s.waiting } };
}

/// Puts these bytes as far as the sink takes them, and says how far that was.
fn put_front<K: Sink>(sink: &mut K, bytes: &[u8]) -> (usize, Result<(), Failed>)
    ensures within { result.0 ≤ length bytes.now }
    ensures front { Appends (K.held sink.old) (K.held sink.new) (take result.0 bytes.now) }
    ensures all { OnOk result.1 (result.0 ≡ length bytes.now) }
    ensures cause { HasCause (K.faults sink.old) (K.faults sink.new) result.1 }
{
    let mut written = 0;
    while written < bytes.len() {
        match sink.write(bytes.split_at(written).1) {
            Ok(n) => written += n,
            Err(failed) => return (written, Err(failed)),
        }
    }
    (written, Ok(()))
}

impl<K: Sink> BufferedSink<K> {
    pub fn new(inner: K) -> BufferedSink<K>
        ensures inner { result.inner ≡ inner }
        ensures waiting { result.waiting ≡ [] }
    {
        BufferedSink {
            inner,
            waiting: Piece::new(),
        }
    }

    /// The sink behind.
    pub fn inner(&self) -> &K
        ensures { result.now ≡ self.now.inner }
    {
        &self.inner
    }

    /// Passes on what waits.
    fn pass_waiting(&mut self) -> Result<(), Failed>
        ensures bytes { Keeps (given_to K.held self.old) (given_to K.held self.new) }
        ensures all { OnOk result (PassesAll K.held self.old self.new) }
        ensures none { OnOk result (self.new.waiting ≡ []) }
        ensures some { OnErr result (PassesSome K.held self.old self.new) }
        ensures cause { HasCause (K.faults self.old.inner) (K.faults self.new.inner) result }
    {
        let (passed, result) = put_front(&mut self.inner, self.waiting.as_slice());
        self.waiting.remove_front(passed);
        result
    }

    /// Takes bytes for which there was no room. It stands apart, so that the test for room is inlined.
    #[cold]
    #[inline(never)]
    fn write_behind(&mut self, bytes: &[u8]) -> Result<usize, Failed>
        ensures count { IfOk result (λ n. n ≡ min (length bytes.now) 8192) }
        ensures bytes { WriteAppends (given_to K.held self.old) (given_to K.held self.new) result bytes.now }
        ensures all { OnOk result (PassesAll K.held self.old self.new) }
        ensures waits { IfOk result (λ n. self.new.waiting ≡ take n bytes.now) }
        ensures some { OnErr result (PassesSome K.held self.old self.new) }
        ensures cause { HasCause (K.faults self.old.inner) (K.faults self.new.inner) result }
    {
        self.pass_waiting()?;
        let (front, _rest) = bytes.split_at(bytes.len().min(ROOM));
        self.waiting.push_bytes(front);
        Ok(front.len())
    }
}

impl<K: Sink> Sink for BufferedSink<K> {
    ghost held = { given_to K.held };

    ghost passed = { λ s. K.passed s.inner };

    ghost faults = { λ s. K.faults s.inner };

    #[inline(always)]
    fn write(&mut self, bytes: &[u8]) -> Result<usize, Failed>
        requires { 0 < length bytes.now }
        ensures bound { WritesAtMost result bytes.now }
        ensures some { IfOk result (λ n. 0 < n) }
        ensures bytes { WriteAppends (given_to K.held self.old) (given_to K.held self.new) result bytes.now }
        ensures cause { HasCause (K.faults self.old.inner) (K.faults self.new.inner) result }

        // Where there is room the bytes wait, and the sink behind isn't called.
        ensures gathers { length self.old.waiting + length bytes.now ≤ 8192 → Gathers self.old self.new bytes.now result }

        // Else what waited is passed on, and as many bytes as there is room for wait in its place.
        ensures count { IfOk result (λ n. n ≡ min (length bytes.now) 8192) }
        ensures all { 8192 < length self.old.waiting + length bytes.now → OnOk result (PassesAll K.held self.old self.new) }
        ensures waits { 8192 < length self.old.waiting + length bytes.now → IfOk result (λ n. self.new.waiting ≡ take n bytes.now) }

        // What the sink behind didn't take waits on, and none of the bytes were taken.
        ensures left { OnErr result (PassesSome K.held self.old self.new) }
    {
        if bytes.len() <= self.waiting.room() {
            self.waiting.push_bytes(bytes);
            return Ok(bytes.len());
        }
        self.write_behind(bytes)
    }

    fn flush(&mut self) -> Result<(), Failed>
        ensures bytes { Keeps (given_to K.held self.old) (given_to K.held self.new) }
        ensures cause { HasCause (K.faults self.old.inner) (K.faults self.new.inner) result }
        ensures none { OnOk result (self.new.waiting ≡ []) }
        ensures behind { OnOk result (PassesAll K.held self.old self.new) }
        ensures all { OnOk result (K.passed self.new.inner ≡ given_to K.held self.new) }
        ensures left { OnErr result (PassesSome K.held self.old self.new) }
    {
        self.pass_waiting()?;
        self.inner.flush()
    }
}
