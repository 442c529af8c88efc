//! The names of vnodes that are ready.

ghost use Rattle.std.specs.Prelude.{◌≡◌, ◌∷◌, ◌++◌, [], OnOk};

use afs_dir::Listing;
use afs_num::types::Mem;
use std::alloc::{AllocError, Global};
use std::marker::Model;

/// The names of vnodes, one after the other: each has some where it is a directory.
#[derive(Drop)]
pub struct ReadyNames {
    names: Vec<Option<Listing>>,
}

impl Model for ReadyNames {
    ghost use Rattle.std.specs.Prelude.{List, Option};
    ghost use Rattle.afs_num.specs.declared.directories.Name.{Name};

    ghost Value = { List (Option (List Name)) };

    ghost view = { λ n. n.names.items };
}

impl ReadyNames {
    /// Those of no vnode.
    pub fn new(alloc: Global) -> ReadyNames
        ensures { result ≡ [] }
    {
        ReadyNames {
            names: Vec::new(alloc),
        }
    }

    /// Those of one vnode more.
    pub fn push(&mut self, names: Option<Listing>) -> Mem<()>
        ensures { OnOk result (self.new ≡ self.old ++ names ∷ []) }
    {
        match self.names.push(names) {
            Ok(()) => Ok(()),
            Err(_) => Err(AllocError),
        }
    }

    /// The names of each. It takes no memory.
    pub fn as_slice(&self) -> &[Option<Listing>]
        ensures { result.now ≡ self.now }
    {
        self.names.as_slice()
    }

    /// The names of each. It takes no memory.
    pub fn into_vec(self) -> Vec<Option<Listing>>
        ensures { result.items ≡ self }
    {
        let ReadyNames { names } = self;
        names
    }
}
