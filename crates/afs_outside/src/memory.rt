//! Sources and sinks in memory, which fail where they are told to.

ghost use Rattle.std.specs.Prelude.{◌≡◌, ◌+◌, ◌<◌, ◌≤◌, [], drop, length, min, is_err, false, IfOk, OnOk, OnErr, Some};
ghost use Rattle.std.specs.Io.{ReadsAtMost, WritesAtMost};
ghost use Rattle.std.specs.Io.KnownBytes.{Keeps, ReadConsumes, WriteAppends};
ghost use Rattle.afs_outside.specs.Memory.{is_due, passed_of, Refuses, SameRoom};
ghost use Rattle.afs_outside.specs.Outside.{HasCause};

use crate::outside::{Failed, Sink, Source};
use afs_num::types::Mem;
use std::alloc::Global;
use std::marker::Model;

/// Whether the next call is to fail, by a plan from which that call is then gone.
fn is_due(failing: &mut &[u8]) -> bool
    ensures due { result ≡ is_due failing.old.now }
    ensures rest { failing.new.now ≡ drop 1 failing.old.now }
{
    match *failing {
        [first, rest @ ..] => {
            *failing = rest;
            *first == 1
        }
        [] => false,
    }
}

/// Bytes in memory. Its nth call fails where the nth byte of its plan is 1.
#[derive(Drop)]
pub struct MemSource<'a> {
    left: &'a [u8],
    failing: &'a [u8],
    faults: u64,
}

impl<'a> Model for MemSource<'a> {
    ghost use Rattle.afs_outside.specs.Memory.{Supply};

    ghost Value = { Supply };

    ghost view = { λ s. record { bytes = s.left.now; failing = s.failing.now; faults = s.faults } };
}

impl<'a> MemSource<'a> {
    pub fn new(bytes: &'a [u8], failing: &'a [u8]) -> MemSource<'a>
        ensures bytes { result.bytes ≡ bytes.entry.now }
        ensures failing { result.failing ≡ failing.entry.now }
        ensures faults { result.faults ≡ 0 }
    {
        MemSource {
            left: bytes,
            failing,
            faults: 0,
        }
    }
}

impl<'a> Source for MemSource<'a> {
    ghost left = { λ s. Some s.bytes };

    ghost faults = { λ s. s.faults };

    fn read(&mut self, buf: &mut [u8]) -> Result<usize, Failed>
        ensures bound { ReadsAtMost result buf.new }
        ensures bytes { ReadConsumes (Some self.old.bytes) (Some self.new.bytes) result buf.new }
        ensures cause { HasCause self.old.faults self.new.faults result }
        ensures plan { self.new.failing ≡ drop 1 self.old.failing }
        ensures due { is_err result ≡ is_due self.old.failing }
    {
        if is_due(&mut self.failing) {
            self.faults = self.faults.saturating_add(1);
            return Err(Failed);
        }
        let n = buf.len().min(self.left.len());
        let (taken, left) = self.left.split_at(n);
        buf[..n].copy_from_slice(taken);
        self.left = left;
        Ok(n)
    }
}

/// A sink in memory. Its nth call fails where the nth byte of its plan is 1, and it fails once its room is full.
#[derive(Drop)]
pub struct MemSink<'a> {
    bytes: Vec<u8>,
    room: usize,
    failing: &'a [u8],
    faults: u64,
}

impl<'a> Model for MemSink<'a> {
    ghost use Rattle.std.specs.Prelude.{◌-◌, vec_len, vec_capacity};
    ghost use Rattle.afs_outside.specs.Memory.{Store};

    ghost Value = { Store };

    ghost view = { λ s. record { bytes = s.bytes.items; room = s.room; spare = vec_capacity s.bytes - vec_len s.bytes; failing = s.failing.now; faults = s.faults } };
}

impl<'a> MemSink<'a> {
    /// It takes as many bytes as memory holds, and asks for that as it needs it.
    pub fn new(alloc: Global, failing: &'a [u8]) -> MemSink<'a>
        ensures bytes { result.bytes ≡ [] }
        ensures room { result.room ≡ usize.MAX }
        ensures failing { result.failing ≡ failing.entry.now }
        ensures faults { result.faults ≡ 0 }
    {
        MemSink {
            bytes: Vec::new(alloc),
            room: usize::MAX,
            failing,
            faults: 0,
        }
    }

    /// It takes so many bytes, and has the memory for them from the beginning.
    pub fn with_room(alloc: Global, room: usize, failing: &'a [u8]) -> Mem<MemSink<'a>>
        ensures bytes { IfOk result (λ s. s.bytes ≡ []) }
        ensures room { IfOk result (λ s. s.room ≡ room) }
        ensures spare { IfOk result (λ s. s.spare ≡ room) }
        ensures failing { IfOk result (λ s. s.failing ≡ failing.entry.now) }
        ensures faults { IfOk result (λ s. s.faults ≡ 0) }
    {
        Ok(MemSink {
            bytes: Vec::with_capacity(alloc, room)?,
            room,
            failing,
            faults: 0,
        })
    }

    /// What was written.
    pub fn as_slice(&self) -> &[u8]
        ensures { result.now ≡ self.now.bytes }
    {
        self.bytes.as_slice()
    }
}

impl<'a> Sink for MemSink<'a> {
    ghost held = { λ s. Some s.bytes };

    ghost passed = { passed_of };

    ghost faults = { λ s. s.faults };

    fn write(&mut self, bytes: &[u8]) -> Result<usize, Failed>
        requires { 0 < length bytes.now }
        ensures bound { WritesAtMost result bytes.now }
        ensures some { IfOk result (λ n. 0 < n) }
        ensures bytes { WriteAppends (Some self.old.bytes) (Some self.new.bytes) result bytes.now }
        ensures cause { HasCause self.old.faults self.new.faults result }
        ensures plan { self.new.failing ≡ drop 1 self.old.failing }
        ensures not_due { OnOk result (is_due self.old.failing ≡ false) }
        ensures refused { OnErr result (Refuses self.old (length bytes.now)) }
        ensures room_kept { OnErr result (SameRoom self.old self.new) }
        ensures count { IfOk result (λ n. n ≡ min (length bytes.now) self.old.room) }
        ensures room { IfOk result (λ n. self.new.room + n ≡ self.old.room) }
        ensures spare { IfOk result (λ n. self.old.spare ≤ self.new.spare + n) }
    {
        let room = bytes.len().min(self.room);
        if is_due(&mut self.failing) || room == 0 {
            self.faults = self.faults.saturating_add(1);
            return Err(Failed);
        }
        match self.bytes.extend_from_slice(bytes.split_at(room).0) {
            Ok(()) => {
                self.room -= room;
                Ok(room)
            }
            Err(_) => {
                self.faults = self.faults.saturating_add(1);
                Err(Failed)
            }
        }
    }

    fn flush(&mut self) -> Result<(), Failed>
        ensures bytes { Keeps (Some self.old.bytes) (Some self.new.bytes) }
        ensures all { OnOk result (passed_of self.new ≡ Some self.new.bytes) }
        ensures cause { HasCause self.old.faults self.new.faults result }
        ensures plan { self.new.failing ≡ drop 1 self.old.failing }
        ensures due { is_err result ≡ is_due self.old.failing }
        ensures room_kept { SameRoom self.old self.new }
    {
        if is_due(&mut self.failing) {
            self.faults = self.faults.saturating_add(1);
            return Err(Failed);
        }
        Ok(())
    }
}
