// The program's disks: in memory, or files of a folder.
ghost use Rattle.std.specs.Prelude.{◌≡◌, ◌≤◌, ◌+◌, ℕ, None, IfOk, OnOk, OnErr, IsOk, IsSome, IsErrOf, get_or, replicate};
ghost use Rattle.afs_disk.specs.Hosts.{IsLentAt, no_lends, none_given};
ghost use Rattle.afs_disk.specs.Banks.{IsTakenBack, counted};
ghost use Rattle.afs_disk.specs.Disk.{Rose};
ghost use Rattle.afs_disk.specs.Hosts.{host_calls, host_counts, host_faults, host_just, host_leaves, host_left_by, host_limit, host_measures, host_moment, host_picked, host_seen, host_setting, host_shows, host_since, host_size, host_space, host_tells};

use crate::bank::{Bank, LendFault, Place};
use crate::counts::{NODES, add_faults};
use crate::disk::Disk;
use crate::file::FileDisk;
use crate::memory::MemDisk;
use afs_num::devices::Failed;
use afs_num::sequences::Octets;
use afs_num::types::Mem;
use std::alloc::Global;
use std::fs;
use std::fs::{File, Metadata};
use std::io::ErrorKind;
use std::os::fd::{AsRawFd, RawFd};
use std::os::unix::fs::MetadataExt;
use std::rt::Files;

// The descriptor of the last standard stream.
const LAST_STREAM: RawFd = 2;

/// A disk that the program lends.
#[derive(Drop)]
pub enum HostDisk {
    Memory(MemDisk),
    File(FileDisk),
}

impl HostDisk {
    /// How often it has failed.
    pub fn faults(&self) -> u64
        ensures { result ≡ host_faults self.now }
    {
        match self {
            HostDisk::Memory(disk) => disk.faults(),
            HostDisk::File(disk) => disk.faults(),
        }
    }
}

impl Disk for HostDisk {
    ghost seen = { host_seen };

    ghost size = { host_size };

    ghost left_by = { host_left_by };

    ghost may_leave = { host_leaves };

    ghost moment = { host_moment };

    ghost left_since = { host_since };

    ghost faults = { host_faults };

    ghost own_faults = { host_faults };

    ghost calls = { host_calls };

    ghost made = { host_calls };

    ghost setting = { host_setting };

    ghost limit = { host_limit };

    ghost space = { host_space };

    ghost counts_now = { host_counts };

    ghost just_now = { host_just };

    ghost leaves = { host_picked };

    ghost shows = { host_shows };

    ghost measures = { host_measures };

    fn len(&self) -> u64 {
        match self {
            HostDisk::Memory(disk) => disk.len(),
            HostDisk::File(disk) => disk.len(),
        }
    }

    fn capacity(&self) -> u64 {
        match self {
            HostDisk::Memory(disk) => disk.capacity(),
            HostDisk::File(disk) => disk.capacity(),
        }
    }

    fn read(&mut self, at: u64, buf: &mut [u8]) -> Result<usize, Failed> {
        match self {
            HostDisk::Memory(disk) => disk.read(at, buf),
            HostDisk::File(disk) => disk.read(at, buf),
        }
    }

    fn write_at(&mut self, at: u64, bytes: &[u8]) -> Result<(), Failed> {
        match self {
            HostDisk::Memory(disk) => disk.write_at(at, bytes),
            HostDisk::File(disk) => disk.write_at(at, bytes),
        }
    }

    fn cut(&mut self, len: u64) -> Result<(), Failed> {
        match self {
            HostDisk::Memory(disk) => disk.cut(len),
            HostDisk::File(disk) => disk.cut(len),
        }
    }

    fn room(&mut self, end: u64, bytes: u64) -> Mem<()> {
        match self {
            HostDisk::Memory(disk) => disk.room(end, bytes),
            HostDisk::File(disk) => disk.room(end, bytes),
        }
    }

    fn sync(&mut self) -> Result<(), Failed> {
        match self {
            HostDisk::Memory(disk) => disk.sync(),
            HostDisk::File(disk) => disk.sync(),
        }
    }

    fn crash(&mut self, pick: u8) {
        match self {
            HostDisk::Memory(disk) => disk.crash(pick),
            HostDisk::File(disk) => disk.crash(pick),
        }
    }
}

/// Lends the program's disks: node n in a folder is the file `node-n` there. It lends none that is in use, here or in
/// another process, and none that stands elsewhere as well: neither a link nor a file that has another name. It tells neither
/// its lends nor what it was given back.
#[derive(Drop)]
pub struct HostBank<'a, R: Files<File = File>> {
    files: &'a R,
    alloc: Global,
    faults: u64,
    lent_faults: [u64; NODES],
}

// A file that was found is opened as it is: it is the file that was found, and it has no other name.
fn opened_there<R: Files<File = File>>(
    files: &R,
    path: &str,
    found: &Metadata,
) -> Result<File, Failed> {
    if !found.is_file() {
        return Err(Failed);
    }
    let file = match File::options().read(true).write(true).open(files, path) {
        Ok(file) => file,
        Err(_) => return Err(Failed),
    };
    match file.metadata() {
        Ok(opened) if is_own(found, &opened) => Ok(file),
        Ok(_) | Err(_) => Err(Failed),
    }
}

// Whether the file that was opened is the one that was found, under its only name.
fn is_own(found: &Metadata, opened: &Metadata) -> bool {
    opened.dev() == found.dev() && opened.ino() == found.ino() && opened.nlink() == 1
}

// A file where there is none. The system follows no link here.
fn made<R: Files<File = File>>(files: &R, path: &str) -> Result<File, Failed> {
    match File::options()
        .read(true)
        .write(true)
        .create_new(true)
        .open(files, path)
    {
        Ok(file) => Ok(file),
        Err(_) => Err(Failed),
    }
}

// The file of a node's disk in a folder. It is made where there is none, and keeps what it holds where there is one.
fn opened<R: Files<File = File>>(
    files: &R,
    alloc: Global,
    folder: &str,
    node: u8,
) -> Result<File, LendFault> {
    let path = format!(in alloc; "{folder}/node-{node}")?;
    let file = match fs::symlink_metadata(files, path.as_str()) {
        Ok(found) => opened_there(files, path.as_str(), &found)?,
        Err(error) if error.kind() == ErrorKind::NotFound => made(files, path.as_str())?,
        Err(_) => return Err(LendFault::Failed),
    };
    Ok(beside_the_streams(file)?)
}

// A file that took the place of a standard stream would be read and written as one.
fn beside_the_streams(file: File) -> Result<File, Failed> {
    if file.as_raw_fd() <= LAST_STREAM {
        return Err(Failed);
    }
    Ok(file)
}

// No other open of the file has it, here or in another process, until it is closed.
fn claimed(file: File) -> Result<File, Failed> {
    match file.try_lock() {
        Ok(()) => Ok(file),
        Err(_) => Err(Failed),
    }
}

// The names in the folder are on its disk: a file that was just made would else be lost with its bytes.
fn sync_names<R: Files<File = File>>(files: &R, folder: &str) -> Result<(), Failed> {
    let names = match File::open(files, folder) {
        Ok(names) => names,
        Err(_) => return Err(Failed),
    };
    match names.sync_all() {
        Ok(()) => Ok(()),
        Err(_) => Err(Failed),
    }
}

// A disk of this capacity in a folder.
fn disk_in<R: Files<File = File>>(
    files: &R,
    alloc: Global,
    folder: &[u8],
    node: u8,
    capacity: u64,
) -> Result<FileDisk, LendFault>
    ensures limit { IfOk result (λ disk. disk.limit ≡ capacity) }
    ensures unused { IfOk result (λ disk. disk.faults ≡ 0) }
{
    let folder = match str::from_utf8(folder) {
        Ok(folder) => folder,
        Err(_) => return Err(LendFault::Failed),
    };
    let file = claimed(opened(files, alloc, folder, node)?)?;
    sync_names(files, folder)?;
    Ok(FileDisk::over(file, capacity)?)
}

// Counts a fault.
fn counted(fault: LendFault, faults: &mut u64)
    ensures cause { fault ≡ LendFault.Failed → Rose faults.old faults.new }
    ensures quiet { ¬ (fault ≡ LendFault.Failed) → faults.new ≡ faults.old }
    ensures never_falls { faults.old ≤ faults.new }
{
    match fault {
        LendFault::Failed => *faults = faults.saturating_add(1),
        LendFault::OutOfMemory => {}
    }
}

impl<'a, R: Files<File = File>> HostBank<'a, R> {
    /// The bank of a program that may reach files.
    pub fn new(files: &'a R, alloc: Global) -> HostBank<'a, R>
        ensures { (result.faults ≡ 0) × (result.lent_faults ≡ replicate 256 0) }
    {
        HostBank {
            files,
            alloc,
            faults: 0,
            lent_faults: [0; NODES],
        }
    }
}

impl<'a, R: Files<File = File>> Bank for HostBank<'a, R> {
    type D = HostDisk;

    ghost lends = { λ b. None };

    ghost given = { λ b. None };

    ghost faults = { λ b. b.faults };

    ghost lent_faults = { λ b n. get_or b.lent_faults n 0 };

    ghost tells = { λ b at. host_tells at };

    fn lend(&mut self, place: &Place, node: u8, capacity: u64) -> Result<HostDisk, LendFault>
        ensures limit { IfOk result (λ disk. host_limit disk ≡ capacity) }
        ensures unused { IfOk result (λ disk. host_faults disk ≡ 0) }
        ensures lent { (n : ℕ) → get_or self.new.lent_faults n 0 ≡ get_or self.old.lent_faults n 0 }
        ensures told { IfOk result (λ disk. host_tells place.now → IsSome (host_seen disk)) }
        ensures never_falls { self.old.faults ≤ self.new.faults }
        ensures cause { IsErrOf result LendFault.Failed → Rose self.old.faults self.new.faults }
        ensures lends { OnOk result (no_lends ≡ no_lends) }
        ensures none { OnErr result (no_lends ≡ no_lends) }
        ensures kind { IfOk result (IsLentAt place.now) }
        ensures memory { host_tells place.now → IsOk result }
        ensures quiet { ¬ IsErrOf result LendFault.Failed → self.new.faults ≡ self.old.faults }
    {
        match place {
            Place::Memory => {
                let failing = Octets::new(self.alloc);
                Ok(HostDisk::Memory(MemDisk::new(self.alloc, capacity, failing)))
            }
            Place::Folder(folder) => {
                match disk_in(self.files, self.alloc, folder.as_slice(), node, capacity) {
                    Ok(disk) => Ok(HostDisk::File(disk)),
                    Err(fault) => {
                        counted(fault, &mut self.faults);
                        Err(fault)
                    }
                }
            }
        }
    }

    fn give_back(&mut self, node: u8, disk: HostDisk) -> Result<(), Failed>
        ensures lent { (n : ℕ) → get_or self.new.lent_faults n 0 ≡ counted node (host_faults disk) n (get_or self.old.lent_faults n 0) }
        ensures given { OnOk result (IsTakenBack node (host_seen disk) none_given none_given) }
        ensures kept { OnErr result (none_given ≡ none_given) }
        ensures never_falls { self.old.faults ≤ self.new.faults }
        ensures cause { OnErr result (Rose self.old.faults self.new.faults) }
        ensures taken { IsOk result }
        ensures quiet { OnOk result (self.new.faults ≡ self.old.faults) }
    {
        add_faults(&mut self.lent_faults, node, disk.faults());
        Ok(())
    }
}
