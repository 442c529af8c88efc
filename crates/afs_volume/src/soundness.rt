//! Whether vnodes make a sound volume.

ghost use Rattle.std.specs.Prelude.{◌≡◌, nat_eq, slice_get, Some};
ghost use Rattle.std.specs.List.{list_all};
ghost use Rattle.std.specs.Option.{option_copied, option_map};
ghost use Rattle.indexmap.specs.IndexMap as maps;
ghost use Rattle.spec_ideal.specs.Operations.{is_below};
ghost use Rattle.spec_ideal.specs.Soundness.{names_of};
ghost use Rattle.spec_ideal.specs.Tables.{get, AscendsFrom};
ghost use Rattle.spec_records.specs.Sound.{ascends_from, gives_one, is_named_in, is_placed, is_sound, is_sound_vnode};
ghost use Rattle.afs_volume.specs.Assembling.{is_sound_pair, passes_at};
ghost use Rattle.afs_volume.specs.Listed.{names_in, Lists};
ghost use Rattle.afs_volume.specs.Naming.{same_naming, CountsNames};
ghost use Rattle.afs_volume.specs.Seen.{all_seen, seen, volume_seen};

use crate::directories::Directories;
use crate::is_directory;
use crate::naming::{NameCounts, Naming};
use crate::standing::{gives_held, has_links, has_names, is_root, kind_is_right};
use afs_num::directories::Name;
use afs_num::vnodes::Vnode;
use afs_num::volumes::VolumeHead;
use afs_vnode::store::VnodeStore;

/// What is to be a volume, with the names of its directories, and how many each vnode has in each of them.
#[derive(Clone, Copy)]
pub struct Parts<'a> {
    pub head: &'a VolumeHead,
    pub vnodes: &'a VnodeStore,
    pub dirs: &'a Directories,
    pub counts: &'a NameCounts,
    ghost listed: { Lists (maps.get nat_eq dirs.now.dirs) (all_seen vnodes.now.table) },
    ghost counted: { CountsNames (maps.get same_naming counts.now.counts) vnodes.now.table },
}

impl<'a> Parts<'a> {
    /// The vnode of a number.
    #[tactic(auto, using(crate::proofs::Tables::got))]
    fn get(&self, number: u32) -> Option<&Vnode>
        ensures value { option_copied result ≡ get number self.now.vnodes.now.table }
        ensures seen { option_map seen (option_copied result) ≡ get number (volume_seen self.now.head.now self.now.vnodes.now.table).vnodes }
    {
        self.vnodes.get(number)
    }

    /// The names of the directory of this number; what is no directory has none.
    fn names(&self, number: u32) -> &[Name]
        ensures { result.now ≡ names_in (get number self.now.vnodes.now.table) }
    {
        self.dirs.names(number)
    }

    /// How many names of this vnode the directory of this number has.
    fn names_of(&self, directory: u32, vnode: u32, unique: u32) -> usize
        ensures { result ≡ names_of vnode unique (names_in (get directory self.now.vnodes.now.table)) }
    {
        self.counts.count(Naming {
            directory,
            vnode,
            unique,
        })
    }

    fn gives_one(&self, d: &Vnode, name: &Name) -> bool
        ensures { result ≡ gives_one (volume_seen self.now.head.now self.now.vnodes.now.table) d.now.vnode d.now.unique name.now }
    {
        gives_held(d.vnode, d.unique, self.get(name.vnode), name)
    }

    fn gives_all(&self, d: &Vnode, names: &[Name]) -> bool
        ensures { result ≡ list_all (gives_one (volume_seen self.now.head.now self.now.vnodes.now.table) d.now.vnode d.now.unique) names.now }
    {
        names.iter().all(|name| self.gives_one(d, name))
    }

    /// A vnode has its names in its directory.
    #[tactic(auto, unfolding(crate::specs::Seen::seen))]
    fn is_named(&self, x: &Vnode) -> bool
        ensures { result ≡ is_named_in (get x.now.parent_vnode (volume_seen self.now.head.now self.now.vnodes.now.table).vnodes) x.now.vnode (seen x.now) }
    {
        match self.get(x.parent_vnode) {
            Some(d) if is_directory(d) && d.unique == x.parent_unique => {
                has_names(x, self.names_of(x.parent_vnode, x.vnode, x.unique))
            }
            _ => false,
        }
    }

    /// The names of a vnode lead to it, and its parents to the root.
    #[tactic(auto, unfolding(crate::specs::Seen::seen))]
    fn is_placed(&self, x: &Vnode) -> bool
        ensures { result ≡ is_placed (volume_seen self.now.head.now self.now.vnodes.now.table) x.now.vnode (seen x.now) }
    {
        self.is_named(x) && self.reaches_root(x.vnode)
    }

    /// The way up leads to the root; it has no more steps than there are vnodes.
    #[tactic(auto, unfolding(crate::specs::Seen::seen))]
    fn reaches_root(&self, number: u32) -> bool
        ensures { result ≡ is_below number 1 (volume_seen self.now.head.now self.now.vnodes.now.table) }
    {
        let mut at = number;
        for _ in 0..self.vnodes.len() {
            match self.get(at) {
                None => return false,
                Some(_) if at == 1 => return true,
                Some(x) => at = x.parent_vnode,
            }
        }
        false
    }

    #[tactic(auto, unfolding(crate::specs::Seen::seen))]
    fn is_sound_vnode(&self, x: &Vnode) -> bool
        requires { get x.now.vnode self.now.vnodes.now.table ≡ Some x.now }
        ensures { result ≡ is_sound_vnode (volume_seen self.now.head.now self.now.vnodes.now.table) x.now.vnode (seen x.now) }
    {
        let names = self.names(x.vnode);
        kind_is_right(x.vnode, x)
            && x.unique < self.head.unique
            && has_links(x, names)
            && self.gives_all(x, names)
            && (x.vnode == 1 || self.is_placed(x))
    }

    /// The vnode in a place is one of a sound volume, where there is one.
    #[tactic(auto, using(crate::proofs::Listing::place_gets))]
    fn is_sound_at(&self, place: u32) -> bool
        requires { AscendsFrom 0 self.now.vnodes.now.table }
        ensures { result ≡ passes_at (is_sound_pair self.now.head.now self.now.vnodes.now.table) (slice_get self.now.vnodes.now.table place) }
    {
        match self.vnodes.at(place) {
            Some(x) => self.is_sound_vnode(x),
            None => true,
        }
    }

    /// No vnode has the number 0.
    #[tactic(auto, using(crate::proofs::Walked::from_one))]
    fn starts_at_one(&self) -> bool
        ensures { result ≡ ascends_from 1 (all_seen self.now.vnodes.now.table) }
    {
        self.vnodes.get(0).is_none()
    }

    /// Every vnode is one of a sound volume.
    fn are_sound(&self) -> bool
        ensures { result ≡ list_all (is_sound_pair self.now.head.now self.now.vnodes.now.table) self.now.vnodes.now.table }
    {
        for place in 0..self.vnodes.len() as u32 {
            if !self.is_sound_at(place) {
                return false;
            }
        }
        true
    }

    /// They make a sound volume.
    #[tactic(auto, unfolding(spec_records::specs::Sound::is_sound), using(crate::proofs::Walked::all_seen_pass))]
    pub fn is_sound(&self) -> bool
        ensures { result ≡ is_sound (volume_seen self.now.head.now self.now.vnodes.now.table) }
    {
        is_root(self.get(1)) && self.starts_at_one() && self.are_sound()
    }
}
