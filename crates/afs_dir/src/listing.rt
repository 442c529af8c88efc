//! The names of a directory, shared by all who keep them.

ghost use Rattle.std.specs.Prelude.{◌≡◌, ◌≤◌, ◌==◌, [], true, length, is_some, IfOk, Ok, None};
ghost use Rattle.std.specs.Option.{option_map};
ghost use Rattle.spec_ideal.specs.Directories.{add_refused, directory_bytes, directory_of, named, with_name, without_name, IsDirectory};
ghost use Rattle.afs_dir.specs.Dirs.{vnode_named};

use crate::places::search;
use crate::splicing::{spelled_with, spelled_without};
use afs_num::directories::{Name, Names};
use afs_num::sequences::Octets;
use afs_num::types::Mem;
use std::alloc::Global;
use std::marker::Model;

/// The names of a directory in byte order, each with the vnode that it names. Others may share them.
#[derive(Drop)]
pub struct Listing {
    names: Names,
}

impl Model for Listing {
    ghost use Rattle.std.specs.Prelude.{List};
    ghost use Rattle.afs_num.specs.declared.directories.Name.{Name};
    ghost use Rattle.spec_ideal.specs.Directories.{IsDirectory};

    ghost Value = { List Name };

    ghost view = { λ l. l.names };

    ghost invariant = { λ l. IsDirectory l.names };
}

impl Listing {
    /// These names of a directory.
    pub(crate) fn of(names: Names) -> Listing
        requires { IsDirectory names }
        ensures { result ≡ names }
    {
        Listing { names }
    }

    /// The names, which are shared. It is refused where they have as many copies as can be counted.
    pub fn share(&self) -> Mem<Names>
        ensures { IfOk result (λ names. names ≡ self.now) }
    {
        self.names.copy()
    }

    /// A second listing of the same names, which are shared.
    pub fn copy(&self) -> Mem<Listing>
        ensures { IfOk result (λ l. l ≡ self.now) }
    {
        Ok(Listing {
            names: self.names.copy()?,
        })
    }

    /// The names in order. It takes no memory.
    pub fn names(&self) -> &[Name]
        ensures { result.now ≡ self.now }
    {
        self.names.as_slice()
    }

    /// How many names there are.
    pub fn len(&self) -> usize
        ensures { result ≡ length self.now }
    {
        self.names().len()
    }

    /// Whether there are no names.
    pub fn is_empty(&self) -> bool
        ensures { result ≡ (length self.now == 0) }
    {
        self.names().is_empty()
    }

    /// The number and the unique number of the vnode that a name names. It takes no memory.
    pub fn find(&self, name: &[u8]) -> Option<(u32, u32)>
        ensures { result ≡ option_map vnode_named (named name.now self.now) }
    {
        let names = self.names.as_slice();
        match search(names, name) {
            Ok(place) => {
                let found = &names[place];
                Some((found.vnode, found.unique))
            }
            Err(_) => None,
        }
    }

    /// The bytes that spell the directory with one more name, which it may have. What `bytes`, which spell the directory, have
    /// of its other names is copied as it is.
    pub fn bytes_with(
        &self,
        alloc: Global,
        bytes: &[u8],
        name: &[u8],
        vnode: u32,
        unique: u32,
    ) -> Mem<Octets>
        requires added { add_refused name.now self.now ≡ None }
        requires read { directory_of bytes.now ≡ Ok self.now }
        ensures spelled { IfOk result (λ b. b ≡ directory_bytes (with_name (record { name = name.now; vnode = vnode; unique = unique }) self.now)) }
        ensures read { IfOk result (λ b. directory_of b ≡ Ok (with_name (record { name = name.now; vnode = vnode; unique = unique }) self.now)) }
        ensures short { IfOk result (λ b. length b ≤ 276484) }
    {
        let names = self.names.as_slice();
        let Err(place) = search(names, name) else {
            unreachable!()
        };
        let spelled = spelled_with(alloc, names, bytes, place, name, vnode, unique)?;
        Ok(spelled)
    }

    /// The bytes that spell the directory without a name, which is there. What `bytes`, which spell the directory, have of its
    /// other names is copied as it is.
    pub fn bytes_without(&self, alloc: Global, bytes: &[u8], name: &[u8]) -> Mem<Octets>
        requires there { is_some (named name.now self.now) ≡ true }
        requires read { directory_of bytes.now ≡ Ok self.now }
        ensures spelled { IfOk result (λ b. b ≡ directory_bytes (without_name name.now self.now)) }
        ensures read { IfOk result (λ b. directory_of b ≡ Ok (without_name name.now self.now)) }
        ensures short { IfOk result (λ b. length b ≤ 276484) }
    {
        let names = self.names.as_slice();
        let Ok(place) = search(names, name) else {
            unreachable!()
        };
        let spelled = spelled_without(alloc, names, bytes, place)?;
        Ok(spelled)
    }
}
