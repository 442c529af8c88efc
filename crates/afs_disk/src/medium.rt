// Bytes in memory, which keep what they wrote over until the next sync.
ghost use Rattle.std.specs.Prelude.{◌≡◌, ◌≤◌, ◌<◌, ◌+◌, ◌-◌, ◌++◌, [], ◌∷◌, length, take, OnOk, IsOk};
ghost use Rattle.std.specs.Vec.{vec_capacity};
ghost use Rattle.afs_disk.specs.Disk.{overwritten, Holds, NoSmaller, Takes};
ghost use Rattle.afs_disk.specs.Images.{image, paint, painted};
ghost use Rattle.afs_disk.specs.Spans.{Fit, ranges, unwound};

use afs_num::types::Mem;
use std::alloc::{AllocError, Global};
use std::marker::Model;

// For how many writes `room` makes room.
const WRITES: usize = 8;

// A write since the last sync: its place, how many bytes it wrote, and how many it wrote over.
#[derive(Clone, Copy)]
pub(crate) struct Span {
    pub(crate) at: usize,
    pub(crate) len: usize,
    pub(crate) over: usize,
}

// Bytes of which a crash may leave some. `bytes` never gets shorter: what lies behind `len` was cut off, and may come back.
#[derive(Drop)]
pub(crate) struct Medium {
    bytes: Vec<u8>,
    len: usize,
    kept: usize,
    spans: Vec<Span>,
    saved: Vec<u8>,
}

impl Model for Medium {
    ghost use Rattle.std.specs.Prelude.{◌≡◌, ◌≤◌, ◌-◌, length, take};
    ghost use Rattle.std.specs.Vec.{vec_capacity};
    ghost use Rattle.afs_disk.specs.Images.{Held};
    ghost use Rattle.afs_disk.specs.Spans.{unwound, Fit, ranges};

    ghost Value = { Held };

    ghost view = { λ m. record {
      kept = take m.kept (unwound m.spans.items m.saved.items m.bytes.items);
      now = take m.len m.bytes.items;
      unsynced = ranges m.spans.items;
      room = record {
        calls = vec_capacity m.spans - length m.spans.items;
        bytes = vec_capacity m.saved - length m.saved.items;
        end = vec_capacity m.bytes;
      };
    } };

    ghost invariant = { λ m. (m.len ≤ length m.bytes.items) × (m.kept ≤ length m.bytes.items) × Fit m.spans.items (length m.saved.items) (length m.bytes.items) };
}

// Writes these bytes over what stands from this place on, and past the end. The memory is there.
fn overwrite(bytes: &mut Vec<u8>, at: usize, written: &[u8]) -> Result<(), AllocError>
    requires inside { at ≤ length bytes.old.items }
    requires room { at + length written.now ≤ vec_capacity bytes.old }
    ensures is { OnOk result (bytes.new.items ≡ overwritten at written.now bytes.old.items) }
    ensures done { IsOk result }
    ensures capacity { vec_capacity bytes.old ≤ vec_capacity bytes.new }
{
    let over = written.len().min(bytes.len() - at);
    let (front, back) = written.split_at(over);
    bytes[at..at + over].copy_from_slice(front);
    bytes.extend_from_slice(back)?;
    Ok(())
}

// Makes so many bytes from a place on all of one value.
fn paint_over(bytes: &mut [u8], at: usize, len: usize, value: u8)
    ensures { bytes.new ≡ paint value at len bytes.old }
{
    let size = bytes.len();
    if at < size {
        let end = at + len.min(size - at);
        bytes[at..end].fill(value);
    }
}

// Makes the ranges of these writes all of one value, as far as the bytes reach.
fn paint_all(bytes: &mut [u8], spans: &[Span], value: u8)
    ensures { bytes.new ≡ painted value (ranges spans.now) bytes.old }
{
    for span in spans {
        paint_over(bytes, span.at, span.len, value);
    }
}

// The same to the front of some bytes.
fn paint_front(bytes: &mut [u8], len: usize, spans: &[Span], value: u8)
    requires { len ≤ length bytes.old }
    ensures { take len bytes.new ≡ painted value (ranges spans.now) (take len bytes.old) }
{
    paint_all(&mut bytes[..len], spans, value);
}

// Puts back what a write wrote over.
fn put_back(bytes: &mut [u8], at: usize, saved: &[u8])
    requires { at + length saved.now ≤ length bytes.old }
    ensures { bytes.new ≡ overwritten at saved.now bytes.old }
{
    bytes[at..at + saved.len()].copy_from_slice(saved);
}

// Takes all these writes back, the newest first.
fn unwind(bytes: &mut [u8], spans: &mut Vec<Span>, saved: &mut Vec<u8>)
    requires { Fit spans.old.items (length saved.old.items) (length bytes.old) }
    ensures bytes { bytes.new ≡ unwound spans.old.items saved.old.items bytes.old }
    ensures spans { spans.new.items ≡ [] }
    ensures saved { saved.new.items ≡ [] }
{
    while let Some(span) = spans.pop() {
        let all = saved.as_slice();
        let front = all.len() - span.over;
        let (_, last) = all.split_at(front);
        put_back(bytes, span.at, last);
        saved.truncate(front);
    }
}

impl Medium {
    /// No bytes. It takes no memory.
    pub(crate) fn new(alloc: Global) -> Medium
        ensures kept { result.kept ≡ [] }
        ensures now { result.now ≡ [] }
        ensures unsynced { result.unsynced ≡ [] }
    {
        Medium {
            bytes: Vec::new(alloc),
            len: 0,
            kept: 0,
            spans: Vec::new(alloc),
            saved: Vec::new(alloc),
        }
    }

    /// The bytes that a read gives.
    pub(crate) fn now(&self) -> &[u8]
        ensures { result.now ≡ self.now.now }
    {
        &self.bytes[..self.len]
    }

    /// Makes room for eight writes of at most so many bytes in all, none past this end.
    pub(crate) fn reserve(&mut self, end: usize, bytes: usize) -> Mem<()>
        ensures ok { OnOk result (Holds 8 bytes end self.new.room) }
        ensures succeeds { Holds 8 bytes end self.old.room → IsOk result }
        ensures grows { NoSmaller self.old.room self.new.room }
        ensures same { (self.new.kept ≡ self.old.kept) × (self.new.now ≡ self.old.now) × (self.new.unsynced ≡ self.old.unsynced) }
    {
        let size = self.bytes.len();
        self.bytes.reserve(end.saturating_sub(size))?;
        self.saved.reserve(bytes)?;
        self.spans.reserve(WRITES)?;
        Ok(())
    }

    /// What a sync does: what is there now is kept.
    pub(crate) fn sync(&mut self)
        ensures kept { self.new.kept ≡ self.old.now }
        ensures now { self.new.now ≡ self.old.now }
        ensures unsynced { self.new.unsynced ≡ [] }
        ensures room { Takes 0 self.old.room self.new.room }
    {
        self.spans.clear();
        self.saved.clear();
        self.kept = self.len;
    }

    /// Writes over what stands from this place on, and past the end. The memory is there.
    pub(crate) fn write(&mut self, at: usize, written: &[u8]) -> Result<(), AllocError>
        requires inside { at ≤ length self.old.now }
        requires room { Holds 1 (length written.now) (at + length written.now) self.old.room }
        ensures done { IsOk result }
        ensures now { self.new.now ≡ overwritten at written.now self.old.now }
        ensures kept { self.new.kept ≡ self.old.kept }
        ensures unsynced { self.new.unsynced ≡ self.old.unsynced ++ (at, length written.now) ∷ [] }
        ensures room { Takes (length written.now) self.old.room self.new.room }
    {
        let over = written.len().min(self.bytes.len() - at);
        self.saved.extend_from_slice(&self.bytes[at..at + over])?;
        self.spans.push(Span {
            at,
            len: written.len(),
            over,
        })?;
        overwrite(&mut self.bytes, at, written)?;
        self.len = self.len.max(at + written.len());
        Ok(())
    }

    // Takes all writes since the last sync back.
    fn take_back(&mut self)
        ensures { self.new.now ≡ self.old.kept }
    {
        unwind(&mut self.bytes, &mut self.spans, &mut self.saved);
        self.len = self.kept;
    }

    // Makes each range that wasn't synced all of one value.
    fn paint(&mut self, value: u8)
        ensures { self.new.now ≡ painted value self.old.unsynced self.old.now }
    {
        paint_front(&mut self.bytes, self.len, &self.spans, value);
    }

    /// What a crash does: it leaves an image, and what is left is kept.
    pub(crate) fn settle(&mut self, pick: u8)
        ensures kept { self.new.kept ≡ image pick self.old }
        ensures now { self.new.now ≡ image pick self.old }
        ensures unsynced { self.new.unsynced ≡ [] }
    {
        match pick {
            0 => self.take_back(),
            1 => {}
            2 => self.paint(0),
            _ => self.paint(255),
        }
        self.sync();
    }

    /// Cuts what a read gives.
    pub(crate) fn cut(&mut self, len: usize)
        requires { len ≤ length self.old.now }
        ensures now { self.new.now ≡ take len self.old.now }
        ensures kept { self.new.kept ≡ self.old.kept }
        ensures unsynced { self.new.unsynced ≡ self.old.unsynced }
        ensures room { self.new.room ≡ self.old.room }
    {
        self.len = len;
    }
}
