//! The acts of clients: what a user asks of a cache manager.

ghost use Rattle.std.specs.Prelude.{◌≡◌, IfOk};

use afs_num::sequences::{Octets, Sequence};
use afs_num::types::{Fid, Mem};
use std::alloc::Global;
use std::marker::Model;
use std::sync::Arc;

/// A volume's name, as the script writes it, and names from the volume's root.
#[derive(Drop)]
pub struct Path {
    pub volume: Octets,
    pub names: Sequence<Octets>,
}

/// An object, by a path or by its fid.
pub enum Operand {
    Path(Path),
    Fid(Fid),
}

/// An operand ends by a drop of its own: what holds one has one drop to prove where it ends, and not one for each part of a path.
impl Drop for Operand {
    fn drop(self) {
        match self {
            Operand::Path(path) => drop(path),
            Operand::Fid(_) => {}
        }
    }
}

/// Bytes as a script writes them: digit by digit, or as one byte so many times. An act is told as it was written.
pub enum Written {
    Hex(Octets),
    Fill { count: u32, byte: u8 },
}

impl Drop for Written {
    fn drop(self) {
        match self {
            Written::Hex(bytes) => drop(bytes),
            Written::Fill { count: _, byte: _ } => {}
        }
    }
}

/// An act of a client.
pub enum Act {
    /// A file is shown.
    Open { operand: Operand },
    /// A directory's names are shown.
    ListNames { operand: Operand },
    /// A symbolic link's text is shown.
    ReadLink { operand: Operand },
    /// An object's status is shown.
    Stat { operand: Operand },
    /// The status of each of a directory's first names is shown.
    StatAll { operand: Operand },
    /// A file that was written is stored whole, with these bytes.
    Close { operand: Operand, contents: Written },
    /// A new file.
    Make { path: Path },
    /// A new directory.
    MakeDirectory { path: Path },
    /// A file's or a link's name is taken away.
    Remove { path: Path },
    /// An empty directory is taken away.
    RemoveDirectory { path: Path },
    /// What has the first path as its name gets the second one.
    Move { from: Path, to: Path },
    /// A file gets a further name.
    Link { target: Path, path: Path },
    /// A new symbolic link, with this text.
    Symlink { path: Path, target: Written },
    /// The mode of Unix is set.
    SetMode { operand: Operand, mode: u32 },
    /// A directory's access list is set to this text.
    SetAccessList { operand: Operand, text: Written },
    /// A directory's access list is shown.
    GetAccessList { operand: Operand },
    /// All that the client trusts is given up, and its servers are told so.
    GiveUp,
}

/// An act ends by a drop of its own, as its operands do.
impl Drop for Act {
    fn drop(self) {
        match self {
            Act::Open { operand }
            | Act::ListNames { operand }
            | Act::ReadLink { operand }
            | Act::Stat { operand }
            | Act::StatAll { operand }
            | Act::SetMode { operand, mode: _ }
            | Act::GetAccessList { operand } => drop(operand),
            Act::Close { operand, contents } => {
                drop(operand);
                drop(contents);
            }
            Act::Make { path }
            | Act::MakeDirectory { path }
            | Act::Remove { path }
            | Act::RemoveDirectory { path } => drop(path),
            Act::Move { from, to } => {
                drop(from);
                drop(to);
            }
            Act::Link { target, path } => {
                drop(target);
                drop(path);
            }
            Act::Symlink { path, target } => {
                drop(path);
                drop(target);
            }
            Act::SetAccessList { operand, text } => {
                drop(operand);
                drop(text);
            }
            Act::GiveUp => {}
        }
    }
}

/// An act that several hold. A copy shares it.
#[derive(Drop)]
pub struct SharedAct {
    act: Arc<Act>,
}

impl Model for SharedAct {
    ghost use Rattle.std.specs.Arc.{arc_value};
    ghost use Rattle.spec_history.specs.declared.acts.Act.{Act};

    ghost Value = { Act };

    ghost view = { λ s. arc_value s.act };
}

impl SharedAct {
    pub fn new(alloc: Global, act: Act) -> Mem<SharedAct>
        ensures { IfOk result (λ s. s ≡ act) }
    {
        Ok(SharedAct {
            act: Arc::new(alloc, act)?,
        })
    }

    /// The act. It takes no memory.
    pub fn get(&self) -> &Act
        ensures { result.now ≡ self.now }
    {
        &self.act
    }

    /// A copy. It is refused where the act has as many copies as can be counted.
    pub fn copy(&self) -> Mem<SharedAct>
        ensures { IfOk result (λ s. s ≡ self.now) }
    {
        Ok(SharedAct {
            act: self.act.clone()?,
        })
    }
}
