// A disk over a file: the edge of what is proved.
ghost use Rattle.std.specs.Prelude.{◌≡◌, ◌<◌, ◌≤◌, ◌+◌, ◌-◌, ◌↔◌, None, length, min, drop, IsTrue, IfOk, IsErr, OnOk, OnErr};
ghost use Rattle.std.proofs.Common.{refl};
ghost use Rattle.afs_disk.specs.Files.{filed_room, untold};
ghost use Rattle.afs_disk.specs.Fuses.{last_of_counter};
ghost use Rattle.afs_disk.specs.Disk.{Rose};

use crate::disk::Disk;
use afs_num::devices::Failed;
use afs_num::types::Mem;
use std::alloc::AllocError;
use std::fs::File;
use std::marker::Model;
use std::os::unix::fs::{FileExt, MetadataExt};

// For how many device calls `room` makes room.
const ROOM: u64 = 8;

/// A disk over one file. What a file holds no contract can say, so this disk tells nothing but its length and its counts.
/// It has no crash of its own: a crash leaves what a read gives.
///
/// After a sync that failed it fails at each call, until the file is opened anew: a system may forget both the error and
/// what it couldn't write, and a later sync would then succeed over bytes that are lost. So it does once somebody else has
/// removed the file, or given it another length.
#[derive(Drop)]
pub struct FileDisk {
    file: File,
    len: u64,
    capacity: u64,
    calls: u64,
    faults: u64,
    is_lost: bool,
}

impl Model for FileDisk {
    ghost use Rattle.afs_disk.specs.Files.{Filed};

    ghost Value = { Filed };

    ghost view = { λ f. record { size = f.len; limit = f.capacity; calls = f.calls; faults = f.faults } };
}

// One fault more.
fn count(faults: &mut u64)
    ensures { Rose faults.old faults.new × (faults.old ≤ faults.new) }
{
    *faults = faults.saturating_add(1);
}

// Whether the file has a name still, and is as long as it was left. A file that was removed would take each write and sync, and
// be gone with the process.
fn is_whole(file: &File, len: u64) -> bool {
    match file.metadata() {
        Ok(metadata) => metadata.len() == len && metadata.nlink() > 0,
        Err(_) => false,
    }
}

// Counts a device call, and says whether it may be made.
fn admits(
    file: &File,
    len: u64,
    calls: &mut u64,
    is_lost: &mut bool,
    faults: &mut u64,
) -> Result<(), Failed>
    requires { calls.old < last_of_counter }
    ensures counted { calls.new ≡ calls.old + 1 }
    ensures fails { IsErr result ↔ IsTrue is_lost.new }
    ensures lost { IsTrue is_lost.old → IsTrue is_lost.new }
    ensures ok { OnOk result (faults.new ≡ faults.old) }
    ensures err { OnErr result (Rose faults.old faults.new) }
    ensures never_falls { faults.old ≤ faults.new }
{
    *calls += 1;
    *is_lost = *is_lost || !is_whole(file, len);
    if *is_lost {
        count(faults);
        return Err(Failed);
    }
    Ok(())
}

// How many bytes a read of so many gives at this place.
fn reach(len: u64, at: u64, wanted: usize) -> usize
    ensures { result ≡ min wanted (len - at) }
{
    let left = len.saturating_sub(at);
    if left < wanted as u64 {
        left as usize
    } else {
        wanted
    }
}

// Reads the front of a buffer full.
fn read_front(file: &File, at: u64, buf: &mut [u8], front: usize) -> Result<(), Failed>
    requires { front ≤ length buf.old }
    ensures { drop front buf.new ≡ drop front buf.old }
{
    match file.read_exact_at(&mut buf[..front], at) {
        Ok(()) => Ok(()),
        Err(_) => Err(Failed),
    }
}

// How long the file is, where the system says it.
fn measured(file: &File, or: u64) -> u64 {
    match file.metadata() {
        Ok(metadata) => metadata.len(),
        Err(_) => or,
    }
}

impl FileDisk {
    /// A disk over an open file, with what it holds.
    pub fn over(file: File, capacity: u64) -> Result<FileDisk, Failed>
        ensures set { IfOk result (λ d. d.limit ≡ capacity) }
        ensures counts { IfOk result (λ d. (d.calls ≡ 0) × (d.faults ≡ 0)) }
    {
        match file.metadata() {
            Ok(metadata) => Ok(FileDisk {
                len: metadata.len(),
                file,
                capacity,
                calls: 0,
                faults: 0,
                is_lost: false,
            }),
            Err(_) => Err(Failed),
        }
    }

    /// How often it has failed.
    pub fn faults(&self) -> u64
        ensures { result ≡ self.now.faults }
    {
        self.faults
    }

    // Counts a device call, and says whether it may be made.
    fn admits(&mut self) -> Result<(), Failed>
        requires { self.old.calls < last_of_counter }
        ensures counted { self.new.calls ≡ self.old.calls + 1 }
        ensures size { self.new.size ≡ self.old.size }
        ensures limit { self.new.limit ≡ self.old.limit }
        ensures ok { OnOk result (self.new.faults ≡ self.old.faults) }
        ensures err { OnErr result (Rose self.old.faults self.new.faults) }
        ensures never_falls { self.old.faults ≤ self.new.faults }
    {
        admits(
            &self.file,
            self.len,
            &mut self.calls,
            &mut self.is_lost,
            &mut self.faults,
        )
    }
}

impl Disk for FileDisk {
    ghost seen = { λ f. None };

    ghost size = { λ f. f.size };

    ghost left_by = { λ f pick. None };

    ghost may_leave = { λ f c. Unit {0} };

    ghost moment = { λ f. 0 };

    ghost left_since = { λ f t c. Unit {0} };

    ghost faults = { λ f. f.faults };

    ghost own_faults = { λ f. f.faults };

    ghost calls = { λ f. f.calls };

    ghost made = { λ f. f.calls };

    ghost setting = { λ f. record { stop = None; fail = None } };

    ghost limit = { λ f. f.limit };

    ghost space = { λ f. filed_room f };

    ghost counts_now = { λ f t c le now. tt };

    ghost just_now = { λ f c left. tt };

    ghost leaves = { λ f pick bytes told. tt };

    ghost shows = { λ f. refl };

    ghost measures = { λ f bytes told. untold bytes (length bytes ≡ f.size) told };

    fn len(&self) -> u64 {
        self.len
    }

    fn capacity(&self) -> u64 {
        self.capacity
    }

    fn read(&mut self, at: u64, buf: &mut [u8]) -> Result<usize, Failed> {
        self.admits()?;
        let front = reach(self.len, at, buf.len());
        match read_front(&self.file, at, buf, front) {
            Ok(()) => Ok(front),
            Err(failed) => {
                count(&mut self.faults);
                Err(failed)
            }
        }
    }

    fn write_at(&mut self, at: u64, bytes: &[u8]) -> Result<(), Failed> {
        self.admits()?;
        match self.file.write_all_at(bytes, at) {
            Ok(()) => {
                self.len = self.len.max(at + bytes.len() as u64);
                Ok(())
            }
            Err(_) => {
                self.len = measured(&self.file, self.len);
                count(&mut self.faults);
                Err(Failed)
            }
        }
    }

    fn cut(&mut self, len: u64) -> Result<(), Failed> {
        self.admits()?;
        match self.file.set_len(len) {
            Ok(()) => {
                self.len = len;
                Ok(())
            }
            Err(_) => {
                self.len = measured(&self.file, self.len);
                count(&mut self.faults);
                Err(Failed)
            }
        }
    }

    fn room(&mut self, _end: u64, _bytes: u64) -> Mem<()> {
        if u64::MAX - self.calls < ROOM {
            return Err(AllocError);
        }
        Ok(())
    }

    fn sync(&mut self) -> Result<(), Failed> {
        self.admits()?;
        match self.file.sync_all() {
            Ok(()) => Ok(()),
            Err(_) => {
                self.is_lost = true;
                count(&mut self.faults);
                Err(Failed)
            }
        }
    }

    fn crash(&mut self, _pick: u8)
        ensures same { self.new ≡ self.old }
    {}
}
