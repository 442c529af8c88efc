// A disk that can be set to stop or to fail at a device call.
ghost use Rattle.std.specs.Prelude.{◌≡◌, ◌<◌, ◌+◌, ◌-◌, ◌↔◌, None, min, IsTrue, OnOk, OnErr};
ghost use Rattle.afs_disk.specs.Fuses.{armed, failing, fused_room, last_of_counter};
ghost use Rattle.afs_disk.specs.Disk.{IsBeyond, Trips};

use crate::disk::Disk;
use afs_num::devices::Failed;
use afs_num::types::Mem;
use std::alloc::AllocError;
use std::marker::Model;

// For how many device calls `room` makes room.
const ROOM: u64 = 8;

/// A disk behind a fuse. An armed fuse passes so many device calls, and stops at each that follows: such a call isn't
/// made, and is answered as a failure.
#[derive(Drop)]
pub struct Fuse<D: Disk> {
    disk: D,
    calls: u64,
    stop: Option<u64>,
    fail: Option<u64>,
    tripped: u64,
}

impl<D: Disk> Model for Fuse<D> {
    ghost use Rattle.afs_disk.specs.Fuses.{Fused};

    ghost Value = { Fused D };

    ghost view = { λ f. record { disk = f.disk; calls = f.calls; stop = f.stop; fail = f.fail; tripped = f.tripped } };
}

// Counts a device call, and says whether it may be made.
fn admits(
    calls: &mut u64,
    stop: Option<u64>,
    fail: Option<u64>,
    tripped: &mut u64,
) -> Result<(), Failed>
    requires { calls.old < last_of_counter }
    ensures counted { calls.new ≡ calls.old + 1 }
    ensures ok { OnOk result (tripped.new ≡ tripped.old) }
    ensures err { OnErr result (tripped.new ≡ min (tripped.old + 1) last_of_counter) }
    ensures passed { OnOk result (Trips (record { stop = stop; fail = fail }) calls.new → ⊥) }
    ensures blame { OnErr result (Trips (record { stop = stop; fail = fail }) calls.new) }
{
    *calls += 1;
    let call = *calls;
    let is_beyond = matches!(stop, Some(last) if last < call);
    let is_at = matches!(fail, Some(failing) if failing == call);
    if is_beyond || is_at {
        *tripped = tripped.saturating_add(1);
        return Err(Failed);
    }
    Ok(())
}

impl<D: Disk> Fuse<D> {
    /// Puts a disk behind a fuse that isn't armed.
    pub fn new(disk: D) -> Fuse<D>
        ensures { result ≡ record { disk = disk; calls = 0; stop = None; fail = None; tripped = 0 } }
    {
        Fuse {
            disk,
            calls: 0,
            stop: None,
            fail: None,
            tripped: 0,
        }
    }

    /// Passes so many device calls from now on, and then stops at each. It takes the place of what was armed before.
    pub fn arm(&mut self, passes: u64)
        ensures { self.new ≡ armed passes self.old }
    {
        self.stop = Some(self.calls.saturating_add(passes));
    }

    /// Fails at the device call of this number from now on: 1 is the next. It takes the place of what was set before.
    pub fn fail_at(&mut self, call: u64)
        ensures { self.new ≡ failing call self.old }
    {
        self.fail = Some(self.calls.saturating_add(call));
    }

    /// Whether a device call came after the passes were spent.
    pub fn stopped(&self) -> bool
        ensures { IsTrue result ↔ IsBeyond self.now.stop self.now.calls }
    {
        match self.stop {
            Some(last) => last < self.calls,
            None => false,
        }
    }

    /// The disk.
    pub fn into_inner(self) -> D
        ensures { result ≡ self.disk }
    {
        let Fuse {
            disk,
            calls: _,
            stop: _,
            fail: _,
            tripped: _,
        } = self;
        disk
    }
}

impl<D: Disk> Disk for Fuse<D> {
    ghost seen = { λ f. D.seen f.disk };

    ghost size = { λ f. D.size f.disk };

    ghost left_by = { λ f pick. D.left_by f.disk pick };

    ghost may_leave = { λ f c. D.may_leave f.disk c };

    ghost moment = { λ f. D.moment f.disk };

    ghost left_since = { λ f t c. D.left_since f.disk t c };

    ghost faults = { λ f. min (D.faults f.disk + f.tripped) last_of_counter };

    ghost own_faults = { λ f. D.faults f.disk };

    ghost calls = { λ f. f.calls };

    ghost made = { λ f. D.calls f.disk };

    ghost setting = { λ f. record { stop = f.stop; fail = f.fail } };

    ghost limit = { λ f. D.limit f.disk };

    ghost space = { λ f. fused_room (D.space f.disk) f.calls };

    ghost counts_now = { λ f t c le now. D.counts_now f.disk t c le now };

    ghost just_now = { λ f c left. D.just_now f.disk c left };

    ghost leaves = { λ f pick bytes told. D.leaves f.disk pick bytes told };

    ghost shows = { λ f. D.shows f.disk };

    ghost measures = { λ f bytes told. D.measures f.disk bytes told };

    fn len(&self) -> u64 {
        self.disk.len()
    }

    fn capacity(&self) -> u64 {
        self.disk.capacity()
    }

    fn read(&mut self, at: u64, buf: &mut [u8]) -> Result<usize, Failed> {
        admits(&mut self.calls, self.stop, self.fail, &mut self.tripped)?;
        self.disk.read(at, buf)
    }

    fn write_at(&mut self, at: u64, bytes: &[u8]) -> Result<(), Failed> {
        admits(&mut self.calls, self.stop, self.fail, &mut self.tripped)?;
        self.disk.write_at(at, bytes)
    }

    fn cut(&mut self, len: u64) -> Result<(), Failed> {
        admits(&mut self.calls, self.stop, self.fail, &mut self.tripped)?;
        self.disk.cut(len)
    }

    fn room(&mut self, end: u64, bytes: u64) -> Mem<()> {
        if u64::MAX - self.calls < ROOM {
            return Err(AllocError);
        }
        self.disk.room(end, bytes)
    }

    fn sync(&mut self) -> Result<(), Failed> {
        admits(&mut self.calls, self.stop, self.fail, &mut self.tripped)?;
        self.disk.sync()
    }

    fn crash(&mut self, pick: u8) {
        self.disk.crash(pick);
    }
}
