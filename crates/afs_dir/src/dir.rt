ghost use Rattle.std.specs.Prelude.{◌≡◌, ◌≤◌, ◌==◌, [], length, IfOk, None, Ok, OnOk, OnErr};
ghost use Rattle.std.specs.Option.{option_map};
ghost use Rattle.spec_ideal.specs.Directories.{named, with_name, without_name, add_refused, directory_bytes, directory_of};
ghost use Rattle.afs_dir.specs.Dirs.{Answers, Reads, removal, vnode_named};

use crate::MOST_NAMES;
use crate::faults::DirFault;
use crate::listing::Listing;
use crate::places::search;
use crate::reading::{Stop, read_whole};
use crate::spelling::write_names;
use afs_num::directories::{Name, Names};
use afs_num::names::name_ok;
use afs_num::sequences::Octets;
use afs_num::types::{Code, Mem};
use afs_xdr::reading::Reader;
use afs_xdr::writing::Writer;
use std::alloc::Global;
use std::marker::Model;

/// A directory: its names in byte order, each with the vnode that it names.
#[derive(Drop)]
pub struct Dir {
    alloc: Global,
    names: Vec<Name>,
}

impl Model for Dir {
    ghost use Rattle.std.specs.Prelude.{List};
    ghost use Rattle.afs_num.specs.declared.directories.Name.{Name};
    ghost use Rattle.spec_ideal.specs.Directories.{IsDirectory};

    ghost Value = { List Name };

    ghost view = { λ d. d.names.items };

    ghost invariant = { λ d. IsDirectory d.names.items };
}

impl Dir {
    /// A directory without names.
    pub fn new(alloc: Global) -> Mem<Dir>
        ensures { IfOk result (λ d. d ≡ []) }
    {
        Ok(Dir {
            alloc,
            names: Vec::new(alloc),
        })
    }

    /// How many names there are.
    pub fn len(&self) -> usize
        ensures { result ≡ length self.now }
    {
        self.names.len()
    }

    /// The names in order. It takes no memory.
    pub fn names(&self) -> &[Name]
        ensures { result.now ≡ self.now }
    {
        self.names.as_slice()
    }

    /// Whether there are no names.
    pub fn is_empty(&self) -> bool
        ensures { result ≡ (length self.now == 0) }
    {
        self.names.is_empty()
    }

    /// The number and the unique number of the vnode that a name names. It takes no memory.
    pub fn find(&self, name: &[u8]) -> Option<(u32, u32)>
        ensures { result ≡ option_map vnode_named (named name.now self.now) }
    {
        match search(&self.names, name) {
            Ok(place) => {
                let found = &self.names[place];
                Some((found.vnode, found.unique))
            }
            Err(_) => None,
        }
    }

    /// Adds a name: 22 where no directory may have it, else 17 where it is there, else 27 where 1,024 names are there.
    pub fn add(&mut self, name: &[u8], vnode: u32, unique: u32) -> Result<(), DirFault>
        ensures answer { Answers (add_refused name.now self.old) result }
        ensures ok { OnOk result (self.new ≡ with_name (record { name = name.now; vnode = vnode; unique = unique }) self.old) }
        ensures err { OnErr result (self.new ≡ self.old) }
    {
        if !name_ok(name) {
            return Err(DirFault::Code(Code(22)));
        }
        let Err(place) = search(&self.names, name) else {
            return Err(DirFault::Code(Code(17)));
        };
        if self.names.len() >= MOST_NAMES as usize {
            return Err(DirFault::Code(Code(27)));
        }
        let name = Octets::from_slice(self.alloc, name)?;
        self.names.insert(
            place,
            Name {
                name,
                vnode,
                unique,
            },
        )?;
        Ok(())
    }

    /// Removes a name, and answers what it named: 2 where it isn't there. It takes no memory.
    pub fn remove(&mut self, name: &[u8]) -> Result<(u32, u32), DirFault>
        ensures answer { result ≡ removal (named name.now self.old) }
        ensures ok { OnOk result (self.new ≡ without_name name.now self.old) }
        ensures err { OnErr result (self.new ≡ self.old) }
    {
        let Ok(place) = search(&self.names, name) else {
            return Err(DirFault::Code(Code(2)));
        };
        let removed = self.names.remove(place);
        Ok((removed.vnode, removed.unique))
    }

    /// The names in byte order, without a copy of them.
    pub fn into_names(self) -> Mem<Names>
        ensures { IfOk result (λ names. names ≡ self) }
    {
        let Dir { alloc: _, names } = self;
        Names::from_vec(names)
    }

    /// The names in byte order as they are kept where others share them, without a copy of them.
    pub fn into_listing(self) -> Mem<Listing>
        ensures { IfOk result (λ l. l ≡ self) }
    {
        let Dir { alloc: _, names } = self;
        Ok(Listing::of(Names::from_vec(names)?))
    }

    /// A copy of the names, in byte order.
    pub fn list(&self) -> Mem<Names>
        ensures { IfOk result (λ names. names ≡ self.now) }
    {
        let names = copies(self.alloc, &self.names)?;
        Names::from_vec(names)
    }

    /// The bytes that spell the directory.
    #[tactic(auto, unfolding(spec_ideal::specs::Directories::directory_bytes), using(crate::proofs::Lengths::names_fit))]
    pub fn to_bytes(&self) -> Mem<Octets>
        ensures spelled { IfOk result (λ bytes. bytes ≡ directory_bytes self.now) }
        ensures read { IfOk result (λ bytes. directory_of bytes ≡ Ok self.now) }
        ensures short { IfOk result (λ bytes. length bytes ≤ 276484) }
    {
        let mut bytes = Writer::new(self.alloc);
        bytes.word(self.names.len() as u32)?;
        write_names(&self.names, &mut bytes)?;
        let spelled = Octets::from_vec(bytes.into_vec()?)?;
        Ok(spelled)
    }

    /// The directory that the bytes spell. Memory is taken once the count is known to be within its limit.
    #[tactic(auto, unfolding(spec_ideal::specs::Directories::directory_of))]
    pub fn from_bytes(alloc: Global, bytes: &[u8]) -> Result<Dir, DirFault>
        ensures read { Reads (directory_of bytes.now) result }
        ensures spelled { IfOk result (λ d. directory_bytes d ≡ bytes.now) }
    {
        let mut reader = Reader::new(bytes);
        match read_whole(alloc, &mut reader) {
            Ok(names) => Ok(Dir { alloc, names }),
            Err(Stop::BadField) => Err(DirFault::BadDir(reader.at())),
            Err(Stop::OutOfMemory) => Err(DirFault::OutOfMemory),
        }
    }
}

fn copies(alloc: Global, names: &[Name]) -> Mem<Vec<Name>>
    ensures { IfOk result (λ v. v.items ≡ names.now) }
{
    let mut made = Vec::with_capacity(alloc, names.len())?;
    for name in names {
        made.push(name.copy(alloc)?)?;
    }
    Ok(made)
}
