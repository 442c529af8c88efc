//! The names of the directories of a volume, by the numbers of their vnodes.

ghost use Rattle.std.specs.Prelude.{◌≡◌, ◌≤◌, ◌<◌, ◌+◌, ℕ, Some, None, Err, true, false, nat_eq, slice_get, take, IfOk, IsOk, OnOk, if◌then◌else◌};
ghost use Rattle.std.specs.Option.{option_copied};
ghost use Rattle.indexmap.specs.IndexMap as maps;
ghost use Rattle.spec_ideal.specs.Tables.{AscendsFrom};
ghost use Rattle.afs_volume.specs.Assembling.{are_read, passes_at, reads_pair, IsReadablePlace};
ghost use Rattle.afs_volume.specs.Given.{names_or_none};
ghost use Rattle.afs_volume.specs.Listed.{listed_as, Lists};
ghost use Rattle.afs_volume.specs.Seen.{all_seen, AreReadable};
ghost use Rattle.afs_volume.specs.declared.faults.AssembleFault.TheVariants.{NotSound};

use crate::faults::AssembleFault;
use crate::finding::names_of;
use crate::is_directory;
use crate::ready::read_vnode;
use afs_dir::Listing;
use afs_num::directories::Name;
use afs_num::types::Mem;
use afs_num::vnodes::Vnode;
use afs_vnode::store::VnodeStore;
use indexmap::IndexMap;
use std::alloc::{AllocError, Global};

/// The names of directories by the numbers of their vnodes.
#[derive(Drop)]
pub struct Directories {
    pub dirs: IndexMap<u32, Listing>,
}

/// The names of a vnode; it has some where it is a directory.
#[tactic(auto, unfolding(crate::specs::Seen::seen))]
pub fn listed_as(alloc: Global, x: &Vnode) -> Mem<Option<Listing>>
    ensures { IfOk result (λ names. names ≡ listed_as x.now) }
{
    if is_directory(x) {
        Ok(Some(names_of(alloc, x)?.into_listing()?))
    } else {
        Ok(None)
    }
}

impl Directories {
    /// None yet.
    fn new(alloc: Global) -> Directories
        ensures { (n : ℕ) → maps.get nat_eq result.dirs n ≡ None }
    {
        Directories {
            dirs: IndexMap::new(alloc),
        }
    }

    /// The names of the directory of this number.
    pub fn get(&self, number: u32) -> Option<&Listing>
        ensures { option_copied result ≡ maps.get nat_eq self.now.dirs number }
    {
        self.dirs.get(&number)
    }

    /// The names of the vnode of this number: what is no directory has none.
    pub fn names(&self, number: u32) -> &[Name]
        ensures { result.now ≡ names_or_none (maps.get nat_eq self.now.dirs number) }
    {
        match self.get(number) {
            Some(names) => names.names(),
            None => &[],
        }
    }

    /// Makes room for so many more.
    pub fn reserve(&mut self, count: usize) -> Mem<()>
        ensures room { OnOk result (count ≤ maps.spare self.new.dirs) }
        ensures kept { maps.spare self.old.dirs ≤ maps.spare self.new.dirs }
        ensures same { (n : ℕ) → maps.get nat_eq self.new.dirs n ≡ maps.get nat_eq self.old.dirs n }
    {
        self.dirs.reserve(count)
    }

    /// The names under a number, in place of those that were there. It takes no memory where there is room.
    fn put(&mut self, number: u32, names: Listing) -> Mem<()>
        ensures value { OnOk result ((n : ℕ) → maps.get nat_eq self.new.dirs n ≡ (if nat_eq number n then Some names else maps.get nat_eq self.old.dirs n)) }
        ensures succeeds { 0 < maps.spare self.old.dirs → IsOk result }
        ensures room { maps.spare self.old.dirs ≤ maps.spare self.new.dirs + 1 }
    {
        match self.dirs.insert(number, names) {
            Ok(_) => Ok(()),
            Err(_) => Err(AllocError),
        }
    }

    /// No names under a number. It takes no memory.
    pub fn remove(&mut self, number: u32)
        ensures room { maps.spare self.old.dirs ≤ maps.spare self.new.dirs }
        ensures value { (n : ℕ) → maps.get nat_eq self.new.dirs n ≡ (if nat_eq number n then None else maps.get nat_eq self.old.dirs n) }
    {
        self.dirs.swap_remove(&number);
    }

    /// These names under a number, or none. It takes no memory where there is room.
    fn set(&mut self, number: u32, names: Option<Listing>) -> Mem<()>
        ensures succeeds { 0 < maps.spare self.old.dirs → IsOk result }
        ensures room { maps.spare self.old.dirs ≤ maps.spare self.new.dirs + 1 }
        ensures value { OnOk result ((n : ℕ) → maps.get nat_eq self.new.dirs n ≡ (if nat_eq number n then names else maps.get nat_eq self.old.dirs n)) }
    {
        match names {
            Some(names) => self.put(number, names),
            None => {
                self.remove(number);
                Ok(())
            }
        }
    }

    /// These names under a number, or none, where there is room. It takes no memory.
    pub fn set_within(&mut self, number: u32, names: Option<Listing>)
        requires { 0 < maps.spare self.old.dirs }
        ensures room { maps.spare self.old.dirs ≤ maps.spare self.new.dirs + 1 }
        ensures value { (n : ℕ) → maps.get nat_eq self.new.dirs n ≡ (if nat_eq number n then names else maps.get nat_eq self.old.dirs n) }
    {
        match self.set(number, names) {
            Ok(()) => {}
            Err(_) => unreachable!(),
        }
    }

    /// The names of the vnode in a place besides, where it can be read.
    fn read_place(
        &mut self,
        alloc: Global,
        vnodes: &VnodeStore,
        place: u32,
    ) -> Result<(), AssembleFault>
        requires ordered { AscendsFrom 0 vnodes.now.table }
        requires listed { Lists (maps.get nat_eq self.old.dirs) (all_seen (take place vnodes.now.table)) }
        ensures listed { OnOk result (Lists (maps.get nat_eq self.new.dirs) (all_seen (take (place + 1) vnodes.now.table))) }
        ensures read { OnOk result (passes_at reads_pair (slice_get vnodes.now.table place) ≡ true) }
        ensures readable { OnOk result (IsReadablePlace (slice_get vnodes.now.table place)) }
        ensures not_sound { result ≡ Err NotSound → passes_at reads_pair (slice_get vnodes.now.table place) ≡ false }
    {
        match vnodes.at(place) {
            Some(x) => {
                let names = read_vnode(alloc, x)?;
                self.set(x.vnode, names)?;
                Ok(())
            }
            None => Ok(()),
        }
    }

    /// The names of the directory of this number, which are shared.
    fn shared(&self, number: u32) -> Mem<Option<Listing>>
        ensures { IfOk result (λ names. names ≡ maps.get nat_eq self.now.dirs number) }
    {
        match self.get(number) {
            Some(names) => Ok(Some(names.copy()?)),
            None => Ok(None),
        }
    }

    /// The names of the vnode in a place besides, shared with these directories.
    fn share_place(&mut self, dirs: &Directories, vnodes: &VnodeStore, place: u32) -> Mem<()>
        requires ordered { AscendsFrom 0 vnodes.now.table }
        requires all { Lists (maps.get nat_eq dirs.now.dirs) (all_seen vnodes.now.table) }
        requires listed { Lists (maps.get nat_eq self.old.dirs) (all_seen (take place vnodes.now.table)) }
        ensures { OnOk result (Lists (maps.get nat_eq self.new.dirs) (all_seen (take (place + 1) vnodes.now.table))) }
    {
        match vnodes.at(place) {
            Some(x) => {
                let names = dirs.shared(x.vnode)?;
                self.set(x.vnode, names)?;
                Ok(())
            }
            None => Ok(()),
        }
    }

    /// The names of all directories among these vnodes, which are shared with the copy. No directory is read.
    pub fn share(&self, alloc: Global, vnodes: &VnodeStore) -> Mem<Directories>
        requires { Lists (maps.get nat_eq self.now.dirs) (all_seen vnodes.now.table) }
        ensures { IfOk result (λ d. Lists (maps.get nat_eq d.dirs) (all_seen vnodes.now.table)) }
    {
        let mut dirs = Directories::new(alloc);
        for place in 0..vnodes.len() as u32 {
            dirs.share_place(self, vnodes, place)?;
        }
        Ok(dirs)
    }

    /// The names of all directories among vnodes, each of which is read once. `NotSound` where a vnode can't be read.
    pub fn read(alloc: Global, vnodes: &VnodeStore) -> Result<Directories, AssembleFault>
        ensures listed { IfOk result (λ d. Lists (maps.get nat_eq d.dirs) (all_seen vnodes.now.table)) }
        ensures read { OnOk result (are_read vnodes.now.table ≡ true) }
        ensures readable { OnOk result (AreReadable vnodes.now.table) }
        ensures ordered { AscendsFrom 0 vnodes.now.table }
        ensures not_sound { result ≡ Err NotSound → are_read vnodes.now.table ≡ false }
    {
        let mut dirs = Directories::new(alloc);
        for place in 0..vnodes.len() as u32 {
            dirs.read_place(alloc, vnodes, place)?;
        }
        Ok(dirs)
    }
}
