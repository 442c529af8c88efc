//! How often each vnode is named in each directory.

ghost use Rattle.std.specs.Prelude.{◌≡◌, ◌+◌, ◌<◌, ◌^◌, Some, nat_eq, take, if◌then◌else◌, IfOk, OnOk};
ghost use Rattle.indexmap.specs.IndexMap as maps;
ghost use Rattle.spec_ideal.specs.Tables.{AscendsFrom};
ghost use Rattle.afs_volume.specs.Listed.{Lists};
ghost use Rattle.afs_volume.specs.Naming.{names_for, same_naming, times, CountsNames};
ghost use Rattle.afs_volume.specs.Seen.{all_seen};
ghost use Rattle.afs_volume.specs.declared.naming.Naming.{Naming};

use crate::directories::Directories;
use afs_num::directories::Name;
use afs_num::types::Mem;
use afs_vnode::store::VnodeStore;
use indexmap::IndexMap;
use std::alloc::{AllocError, Global};

/// A directory, and a vnode that names in it may be of.
#[derive(Clone, Copy, PartialEq, Eq, Hash)]
pub struct Naming {
    pub directory: u32,
    pub vnode: u32,
    pub unique: u32,
}

/// How many names of each vnode each directory has. What isn't there has none.
#[derive(Drop)]
pub struct NameCounts {
    pub counts: IndexMap<Naming, usize>,
}

impl NameCounts {
    /// No names yet.
    fn new(alloc: Global) -> NameCounts
        ensures { (n : Naming) → times (maps.get same_naming result.counts n) ≡ 0 }
    {
        NameCounts {
            counts: IndexMap::new(alloc),
        }
    }

    /// How many names of the vnode the directory has.
    pub fn count(&self, naming: Naming) -> usize
        ensures { result ≡ times (maps.get same_naming self.now.counts naming) }
    {
        match self.counts.get(&naming) {
            Some(count) => *count,
            None => 0,
        }
    }

    /// One name more.
    fn add(&mut self, naming: Naming) -> Mem<()>
        requires { times (maps.get same_naming self.old.counts naming) + 1 < 2 ^ 64 }
        ensures { OnOk result ((n : Naming) → maps.get same_naming self.new.counts n ≡ (if same_naming naming n then Some (times (maps.get same_naming self.old.counts naming) + 1) else maps.get same_naming self.old.counts n)) }
    {
        let count = self.count(naming);
        match self.counts.insert(naming, count + 1) {
            Ok(_) => Ok(()),
            Err(_) => Err(AllocError),
        }
    }

    /// The names of a directory besides, of which none is counted yet.
    fn add_names(&mut self, directory: u32, names: &[Name]) -> Mem<()>
        requires { (n : Naming) → n.directory ≡ directory → times (maps.get same_naming self.old.counts n) ≡ 0 }
        ensures { OnOk result ((n : Naming) → times (maps.get same_naming self.new.counts n) ≡ times (maps.get same_naming self.old.counts n) + names_for n directory names.now) }
    {
        for name in names {
            self.add(Naming {
                directory,
                vnode: name.vnode,
                unique: name.unique,
            })?;
        }
        Ok(())
    }

    /// The names of the vnode in a place besides.
    fn add_place(&mut self, dirs: &Directories, vnodes: &VnodeStore, place: u32) -> Mem<()>
        requires ordered { AscendsFrom 0 vnodes.now.table }
        requires listed { Lists (maps.get nat_eq dirs.now.dirs) (all_seen vnodes.now.table) }
        requires counted { CountsNames (maps.get same_naming self.old.counts) (take place vnodes.now.table) }
        ensures { OnOk result (CountsNames (maps.get same_naming self.new.counts) (take (place + 1) vnodes.now.table)) }
    {
        match vnodes.at(place) {
            Some(x) => {
                self.add_names(x.vnode, dirs.names(x.vnode))?;
                Ok(())
            }
            None => Ok(()),
        }
    }

    /// The names of all directories among these vnodes. Each name is looked at once.
    pub fn of(alloc: Global, vnodes: &VnodeStore, dirs: &Directories) -> Mem<NameCounts>
        requires { Lists (maps.get nat_eq dirs.now.dirs) (all_seen vnodes.now.table) }
        ensures { IfOk result (λ c. CountsNames (maps.get same_naming c.counts) vnodes.now.table) }
    {
        let mut counts = NameCounts::new(alloc);
        for place in 0..vnodes.len() as u32 {
            counts.add_place(dirs, vnodes, place)?;
        }
        Ok(counts)
    }
}
