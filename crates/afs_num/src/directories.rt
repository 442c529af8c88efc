ghost use Rattle.std.specs.Prelude.{◌≡◌, IfOk};

use crate::sequences::Octets;
use crate::types::Mem;
use std::alloc::Global;
use std::marker::Model;
use std::sync::ArcSlice;

/// A name in a directory, and what it names there: a vnode's number and its unique number.
#[derive(Drop)]
pub struct Name {
    pub name: Octets,
    pub vnode: u32,
    pub unique: u32,
}

impl Name {
    /// A copy.
    pub fn copy(&self, alloc: Global) -> Mem<Name>
        ensures { IfOk result (λ n. n ≡ self.now) }
    {
        Ok(Name {
            name: self.name.copy(alloc)?,
            vnode: self.vnode,
            unique: self.unique,
        })
    }
}

/// The names of a directory, in byte order. A copy shares them, so that it takes no memory.
#[derive(Drop)]
pub struct Names {
    names: ArcSlice<Name, Global>,
}

impl Model for Names {
    ghost use Rattle.std.specs.Prelude.{List};
    ghost use Rattle.std.specs.Arc.{arc_slice_items};
    ghost use Rattle.afs_num.specs.declared.directories.Name.{Name};

    ghost Value = { List Name };

    ghost view = { λ n. arc_slice_items n.names };
}

impl Names {
    /// The names of a `Vec`, without a copy of them.
    pub fn from_vec(names: Vec<Name>) -> Mem<Names>
        ensures { IfOk result (λ n. n ≡ names.items) }
    {
        Ok(Names {
            names: ArcSlice::from_vec(names)?,
        })
    }

    /// The names. It takes no memory.
    pub fn as_slice(&self) -> &[Name]
        ensures { result.now ≡ self.now }
    {
        self.names.as_slice()
    }

    /// A copy. It is refused where the names have as many copies as can be counted.
    pub fn copy(&self) -> Mem<Names>
        ensures { IfOk result (λ n. n ≡ self.now) }
    {
        Ok(Names {
            names: self.names.clone()?,
        })
    }
}
