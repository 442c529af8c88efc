//! What one vnode has to be in a sound volume.

ghost use Rattle.std.specs.Prelude.{◌≡◌, ◌<◌, ◌^◌};
ghost use Rattle.std.specs.Option.{option_copied, option_map};
ghost use Rattle.spec_ideal.specs.Soundness.{names_of, subdirectories};
ghost use Rattle.spec_records.specs.Sound.{gives_held, has_by_kind, has_names, is_held_by, is_root, kind_is_right};
ghost use Rattle.afs_volume.specs.Seen.{seen};

use crate::is_directory;
use afs_num::directories::Name;
use afs_num::vnodes::Vnode;

/// How many names are those of directories, which have odd numbers.
fn subdirectories(names: &[Name]) -> usize
    ensures value { result ≡ subdirectories names.now }
    ensures small { result < 2 ^ 63 }
{
    names.iter().filter(|name| name.vnode % 2 == 1).count()
}

/// How many names are the vnode's.
pub fn names_of(vnode: u32, unique: u32, names: &[Name]) -> usize
    ensures { result ≡ names_of vnode unique names.now }
{
    names
        .iter()
        .filter(|name| name.vnode == vnode && name.unique == unique)
        .count()
}

/// The directory of this number and unique number holds the vnode.
#[tactic(auto, unfolding(crate::specs::Seen::seen))]
fn is_held_by(d: u32, unique: u32, x: &Vnode) -> bool
    ensures { result ≡ is_held_by d unique (seen x.now) }
{
    x.parent_vnode == d && x.parent_unique == unique
}

/// A name gives a vnode that this directory holds, never the root.
#[tactic(auto, unfolding(crate::specs::Seen::seen))]
pub fn gives_held(d: u32, unique: u32, x: Option<&Vnode>, name: &Name) -> bool
    ensures { result ≡ gives_held d unique name.now.vnode (option_map seen (option_copied x.entry)) name.now }
{
    match x {
        Some(x) => { name.vnode != 1 && x.unique == name.unique && is_held_by(d, unique, x) }
        None => false,
    }
}

/// Directories have odd numbers, files and links even ones.
pub fn kind_is_right(number: u32, x: &Vnode) -> bool
    ensures { result ≡ kind_is_right number (seen x.now).kind }
{
    is_directory(x) == (number % 2 == 1)
}

/// So many names a vnode has in its directory: a directory one, a file or link as many as it has links.
#[tactic(auto, unfolding(crate::specs::Seen::seen))]
pub fn has_names(x: &Vnode, count: usize) -> bool
    ensures { result ≡ has_names (seen x.now).kind (seen x.now).links count }
{
    if is_directory(x) {
        count == 1
    } else {
        count == x.link_count as usize && count != 0
    }
}

/// A directory has two links, and one for each directory in it; what a file or link has is its contents alone.
#[tactic(auto, unfolding(crate::specs::Seen::seen))]
pub fn has_links(x: &Vnode, names: &[Name]) -> bool
    requires { names.now ≡ (seen x.now).names }
    ensures { result ≡ has_by_kind (seen x.now).kind (seen x.now) }
{
    !is_directory(x) || x.link_count as usize == 2 + subdirectories(names)
}

/// The root is a directory with the unique number 1, and nothing holds it.
#[tactic(auto, unfolding(crate::specs::Seen::seen))]
pub fn is_root(x: Option<&Vnode>) -> bool
    ensures { result ≡ is_root (option_map seen (option_copied x.entry)) }
{
    match x {
        Some(x) => x.unique == 1 && is_directory(x) && is_held_by(0, 0, x),
        None => false,
    }
}
