// A disk in memory.
ghost use Rattle.std.specs.Prelude.{◌≡◌, ◌<◌, ◌≤◌, ◌+◌, ◌-◌, [], ◌↔◌, List, ℕ, Some, None, length, min, max, take, drop, slice_get, IsOk, IsErr, IfOk, OnOk, OnErr};
ghost use Rattle.afs_disk.specs.Fuses.{last_of_counter};
ghost use Rattle.afs_disk.specs.Images.{MayLeave, image};
ghost use Rattle.afs_disk.specs.Past.{Planned, Since, measured, memory_room, only_now, picked_leaves, MomentPasses, RanUnset};
ghost use Rattle.std.proofs.Common.{inl, refl};
ghost use Rattle.afs_disk.specs.Disk.{overwritten, written_by, cut_by, ComesBy, CutShort, Holds, NoSmaller, Rose, Takes, Torn};

use crate::disk::Disk;
use crate::medium::Medium;
use crate::past::Past;
use afs_num::devices::Failed;
use afs_num::sequences::Octets;
use afs_num::types::Mem;
use std::alloc::{AllocError, Global};
use std::marker::Model;

// For how many device calls `room` makes room.
const ROOM: u64 = 8;

// What marks a device call that is to fail.
const FAILS: u8 = 1;

/// A disk in memory. It begins empty, and grows by `room`. Proofs know what a crash might have left of it at each moment
/// since it was made; that takes no memory.
#[derive(Drop)]
pub struct MemDisk {
    medium: Medium,
    past: Past,
    capacity: u64,
    failing: Octets,
    calls: u64,
    faults: u64,
}

impl Model for MemDisk {
    ghost use Rattle.afs_disk.specs.Moments.{moments};
    ghost use Rattle.afs_disk.specs.Past.{Memory};

    ghost Value = { Memory };

    ghost view = { λ m. record {
      held = m.medium;
      past = moments m.past;
      limit = m.capacity;
      failing = m.failing;
      calls = m.calls;
      faults = m.faults;
    } };
}

// Counts a device call, and says whether it may be made.
fn admits(calls: &mut u64, failing: &[u8], faults: &mut u64) -> Result<(), Failed>
    requires { calls.old < last_of_counter }
    ensures counted { calls.new ≡ calls.old + 1 }
    ensures fails { IsErr result ↔ (slice_get failing.now calls.old ≡ Some 1) }
    ensures ok { OnOk result (faults.new ≡ faults.old) }
    ensures err { OnErr result (Rose faults.old faults.new) }
    ensures never_falls { faults.old ≤ faults.new }
{
    let fails = failing.get(*calls as usize) == Some(&FAILS);
    *calls += 1;
    if fails {
        *faults = faults.saturating_add(1);
        return Err(Failed);
    }
    Ok(())
}

// What wanted no memory is done: the room is there.
fn made(outcome: Mem<()>) -> Result<(), Failed>
    requires { IsOk outcome }
    ensures { IsOk result }
{
    match outcome {
        Ok(()) => Ok(()),
        Err(_) => Err(Failed),
    }
}

// Copies from this place on as far as the content and the buffer reach.
fn copy_from(content: &[u8], at: u64, buf: &mut [u8]) -> usize
    ensures count { result ≡ min (length buf.old) (length content.now - at) }
    ensures bytes { take result buf.new ≡ take result (drop at content.now) }
    ensures rest { drop result buf.new ≡ drop result buf.old }
{
    let size = content.len();
    if size as u64 <= at {
        return 0;
    }
    let (_, left) = content.split_at(at as usize);
    let count = buf.len().min(left.len());
    let (front, _) = left.split_at(count);
    buf[..count].copy_from_slice(front);
    count
}

impl MemDisk {
    /// An empty disk of this capacity. Its device call n fails where byte n - 1 of `failing` is 1. It takes no memory.
    pub fn new(alloc: Global, capacity: u64, failing: Octets) -> MemDisk
        ensures held { (result.held.kept ≡ []) × (result.held.now ≡ []) × (result.held.unsynced ≡ []) }
        ensures past { result.past ≡ [] }
        ensures set { (result.limit ≡ capacity) × (result.failing ≡ failing) }
        ensures counts { (result.calls ≡ 0) × (result.faults ≡ 0) }
    {
        MemDisk {
            medium: Medium::new(alloc),
            past: Past::new(),
            capacity,
            failing,
            calls: 0,
            faults: 0,
        }
    }

    /// How many device calls were made, those that failed too.
    pub fn calls(&self) -> u64
        ensures { result ≡ self.now.calls }
    {
        self.calls
    }

    /// How often it has failed.
    pub fn faults(&self) -> u64
        ensures { result ≡ self.now.faults }
    {
        self.faults
    }

    /// The bytes that a read gives. It is no device call.
    pub fn bytes(&self) -> &[u8]
        ensures { result.now ≡ self.now.held.now }
    {
        self.medium.now()
    }
}

impl Disk for MemDisk {
    ghost seen = { λ m. Some m.held.now };

    ghost size = { λ m. length m.held.now };

    ghost left_by = { λ m pick. Some (image pick m.held) };

    ghost may_leave = { λ m c. MayLeave m.held c };

    ghost moment = { λ m. length m.past };

    ghost left_since = { λ m t c. Since m.past m.held t c };

    ghost faults = { λ m. m.faults };

    ghost own_faults = { λ m. m.faults };

    ghost calls = { λ m. m.calls };

    ghost made = { λ m. m.calls };

    ghost setting = { λ m. record { stop = None; fail = None } };

    ghost limit = { λ m. m.limit };

    ghost space = { λ m. memory_room m };

    ghost counts_now = { λ m t c le now. inl now };

    ghost just_now = { λ m c left. only_now m.past m.held c left };

    ghost leaves = { λ m pick bytes told. picked_leaves m.held pick bytes told };

    ghost shows = { λ m. refl };

    ghost measures = { λ m bytes told. measured m.held.now bytes told };

    fn len(&self) -> u64 {
        self.medium.now().len() as u64
    }

    fn capacity(&self) -> u64 {
        self.capacity
    }

    fn read(&mut self, at: u64, buf: &mut [u8]) -> Result<usize, Failed>
        requires { Holds 1 0 0 (memory_room self.old) }
        ensures planned { Planned self.old self.new result }
        ensures cause { RanUnset self.old self.new result }
        ensures same { (self.new.held ≡ self.old.held) × (self.new.past ≡ self.old.past) }
        ensures count { IfOk result (λ n. n ≡ min (length buf.old) (length self.old.held.now - at)) }
        ensures bytes { IfOk result (λ n. take n buf.new ≡ take n (drop at self.old.held.now)) }
        ensures rest { IfOk result (λ n. drop n buf.new ≡ drop n buf.old) }
        ensures room { Takes 0 (memory_room self.old) (memory_room self.new) }
    {
        admits(&mut self.calls, self.failing.as_slice(), &mut self.faults)?;
        Ok(copy_from(self.medium.now(), at, buf))
    }

    fn write_at(&mut self, at: u64, bytes: &[u8]) -> Result<(), Failed>
        requires inside { at ≤ length self.old.held.now }
        requires room { Holds 1 (length bytes.now) (at + length bytes.now) (memory_room self.old) }
        ensures planned { Planned self.old self.new result }
        ensures cause { RanUnset self.old self.new result }
        ensures written { OnOk result (self.new.held.now ≡ overwritten at bytes.now self.old.held.now) }
        ensures grown { OnOk result (length self.new.held.now ≡ max (length self.old.held.now) (at + length bytes.now)) }
        ensures picks { OnOk result ((pick : ℕ) → image pick self.new.held ≡ written_by pick at bytes.now (image pick self.old.held)) }
        ensures crash { ComesBy (Torn at (length bytes.now)) (MayLeave self.old.held) (MayLeave self.new.held) }
        ensures time { MomentPasses self.old self.new }
        ensures room { Takes (length bytes.now) (memory_room self.old) (memory_room self.new) }
    {
        admits(&mut self.calls, self.failing.as_slice(), &mut self.faults)?;
        self.past.remember(&self.medium);
        made(self.medium.write(at as usize, bytes))?;
        Ok(())
    }

    fn cut(&mut self, len: u64) -> Result<(), Failed>
        requires inside { len ≤ length self.old.held.now }
        requires room { Holds 1 0 0 (memory_room self.old) }
        ensures planned { Planned self.old self.new result }
        ensures cause { RanUnset self.old self.new result }
        ensures cut { OnOk result (self.new.held.now ≡ take len self.old.held.now) }
        ensures picks { OnOk result ((pick : ℕ) → image pick self.new.held ≡ cut_by pick len (image pick self.old.held)) }
        ensures crash { ComesBy (CutShort len) (MayLeave self.old.held) (MayLeave self.new.held) }
        ensures time { MomentPasses self.old self.new }
        ensures room { Takes 0 (memory_room self.old) (memory_room self.new) }
    {
        admits(&mut self.calls, self.failing.as_slice(), &mut self.faults)?;
        self.past.remember(&self.medium);
        self.medium.cut(len as usize);
        Ok(())
    }

    fn room(&mut self, end: u64, bytes: u64) -> Mem<()>
        ensures ok { OnOk result (Holds 8 bytes end (memory_room self.new)) }
        ensures succeeds { Holds 8 bytes end (memory_room self.old) → IsOk result }
        ensures grows { NoSmaller (memory_room self.old) (memory_room self.new) }
        ensures same { self.new ≡ record self.old { held = record self.old.held { room = self.new.held.room } } }
    {
        if u64::MAX - self.calls < ROOM {
            return Err(AllocError);
        }
        self.medium.reserve(end as usize, bytes as usize)
    }

    fn sync(&mut self) -> Result<(), Failed>
        requires { Holds 1 0 0 (memory_room self.old) }
        ensures planned { Planned self.old self.new result }
        ensures cause { RanUnset self.old self.new result }
        ensures same { self.new.held.now ≡ self.old.held.now }
        ensures picks { OnOk result ((pick : ℕ) → image pick self.new.held ≡ self.new.held.now) }
        ensures crash { (c : List ℕ) → MayLeave self.new.held c → MayLeave self.old.held c }
        ensures time { MomentPasses self.old self.new }
        ensures room { Takes 0 (memory_room self.old) (memory_room self.new) }
    {
        admits(&mut self.calls, self.failing.as_slice(), &mut self.faults)?;
        self.past.remember(&self.medium);
        self.medium.sync();
        Ok(())
    }

    fn crash(&mut self, pick: u8)
        ensures picked { self.new.held.now ≡ image pick self.old.held }
        ensures picks { (next : ℕ) → image next self.new.held ≡ self.new.held.now }
        ensures time { MomentPasses self.old self.new }
        ensures same { (self.new.failing ≡ self.old.failing) × (self.new.limit ≡ self.old.limit) × (self.new.calls ≡ self.old.calls) × (self.new.faults ≡ self.old.faults) }
    {
        self.past.remember(&self.medium);
        self.medium.settle(pick);
    }
}
