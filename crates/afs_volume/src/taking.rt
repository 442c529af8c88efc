//! A change that a volume takes in.

ghost use Rattle.std.specs.Prelude.{◌≡◌, ◌≤◌, ◌<◌, ◌+◌, ◌∷◌, ℕ, true, false, length, map, nat_eq, Some, is_some, OnOk};
ghost use Rattle.std.specs.List.{AllByRecursion};
ghost use Rattle.std.specs.Vec.Iter.{into_iter_items};
ghost use Rattle.indexmap.specs.IndexMap as maps;
ghost use Rattle.spec_ideal.specs.Tables.{get, set, unset};
ghost use Rattle.spec_ideal.specs.VnodeImage.{FitsImage};
ghost use Rattle.spec_ideal.specs.VnodeMaps.{most_vnodes, is_full_for};
ghost use Rattle.spec_ideal.specs.Volumes.{blocks_in};
ghost use Rattle.spec_records.specs.Durable.{changed_stored};
ghost use Rattle.afs_vnode.specs.Stores.{AreVnodes};
ghost use Rattle.afs_volume.specs.Counting.{blocks_at};
ghost use Rattle.afs_volume.specs.Listed.{listed_as, Lists};
ghost use Rattle.afs_volume.specs.Seen.{all_seen, AreReadable, IsReadable};
ghost use Rattle.afs_volume.specs.Taking.{is_among, put_but, stored_of, without_all, CanTakeIn, HasRoom, HasRoomFor};

use crate::bodies::blocks_of;
use crate::directories::Directories;
use crate::{ReadyChange, Volume};
use afs_dir::Listing;
use afs_num::types::Mem;
use afs_num::vnodes::{Vnode, VnodeNumbers, Vnodes};
use afs_num::volumes::Change;
use afs_vnode::store::VnodeStore;
use std::vec::IntoIter;

fn is_among(number: u32, numbers: &[u32]) -> bool
    ensures { result ≡ is_among number numbers.now }
{
    numbers.contains(&number)
}

/// How many blocks the vnode of a number takes.
fn blocks_at(vnodes: &VnodeStore, number: u32) -> u64
    requires { AreReadable vnodes.now.table }
    ensures value { result ≡ blocks_at (get number (all_seen vnodes.now.table)) }
    ensures vnodes { AreVnodes vnodes.now.table }
{
    match vnodes.get(number) {
        Some(x) => blocks_of(x),
        None => 0,
    }
}

/// One vnode as it stands after a change, and the blocks that all then take.
fn put(
    vnodes: &mut VnodeStore,
    dirs: &mut Directories,
    blocks: u32,
    x: Vnode,
    names: Option<Listing>,
) -> u32
    requires readable { AreReadable vnodes.old.table }
    requires counted { blocks ≡ blocks_in (all_seen vnodes.old.table) }
    requires read { IsReadable x }
    requires fits { FitsImage x }
    requires few { is_full_for x.vnode vnodes.old.table ≡ false }
    requires room { 0 < vnodes.old.room }
    requires listed { Lists (maps.get nat_eq dirs.old.dirs) (all_seen vnodes.old.table) }
    requires names { names ≡ listed_as x }
    requires dirs_room { 0 < maps.spare dirs.old.dirs }
    ensures table { vnodes.new.table ≡ set x.vnode x vnodes.old.table }
    ensures readable { AreReadable vnodes.new.table }
    ensures counted { result ≡ blocks_in (all_seen vnodes.new.table) }
    ensures room { vnodes.old.room ≤ vnodes.new.room + 1 }
    ensures listed { Lists (maps.get nat_eq dirs.new.dirs) (all_seen vnodes.new.table) }
    ensures dirs_room { maps.spare dirs.old.dirs ≤ maps.spare dirs.new.dirs + 1 }
{
    dirs.set_within(x.vnode, names);
    let before = blocks_at(vnodes, x.vnode);
    let after = blocks_of(&x);
    match vnodes.put(x) {
        Ok(()) => {}
        Err(_) => unreachable!(),
    }
    (u64::from(blocks) + after - before) as u32
}

/// The next of the names that are ready.
fn next_ready(ready: &mut IntoIter<Option<Listing>>) -> Option<Listing>
    requires { 0 < length (into_iter_items ready.old) }
    ensures { into_iter_items ready.old ≡ result ∷ into_iter_items ready.new }
{
    match ready.next() {
        Some(names) => names,
        None => unreachable!(),
    }
}

/// The vnodes that a change gives, but for those that it removes, with the names of each that is a directory.
fn put_all(
    vnodes: &mut VnodeStore,
    dirs: &mut Directories,
    before: u32,
    changed: Vnodes,
    names: Vec<Option<Listing>>,
    removed: &[u32],
) -> u32
    requires readable { AreReadable vnodes.old.table }
    requires counted { before ≡ blocks_in (all_seen vnodes.old.table) }
    requires read { AllByRecursion IsReadable changed }
    requires fits { AllByRecursion FitsImage changed }
    requires few { length (put_but removed.now changed vnodes.old.table) ≤ most_vnodes }
    requires room { length changed ≤ vnodes.old.room }
    requires listed { Lists (maps.get nat_eq dirs.old.dirs) (all_seen vnodes.old.table) }
    requires names { names.items ≡ map listed_as changed }
    requires dirs_room { length changed ≤ maps.spare dirs.old.dirs }
    ensures table { vnodes.new.table ≡ put_but removed.now changed vnodes.old.table }
    ensures readable { AreReadable vnodes.new.table }
    ensures counted { result ≡ blocks_in (all_seen vnodes.new.table) }
    ensures listed { Lists (maps.get nat_eq dirs.new.dirs) (all_seen vnodes.new.table) }
{
    let mut blocks = before;
    let mut ready = names.into_iter();
    for x in changed.into_vec() {
        let names = next_ready(&mut ready);
        if !is_among(x.vnode, removed) {
            blocks = put(vnodes, dirs, blocks, x, names);
        }
    }
    blocks
}

/// One vnode goes; the blocks that the others take.
fn remove(vnodes: &mut VnodeStore, dirs: &mut Directories, blocks: u32, number: u32) -> u32
    requires listed { Lists (maps.get nat_eq dirs.old.dirs) (all_seen vnodes.old.table) }
    requires readable { AreReadable vnodes.old.table }
    requires counted { blocks ≡ blocks_in (all_seen vnodes.old.table) }
    ensures table { vnodes.new.table ≡ unset number vnodes.old.table }
    ensures readable { AreReadable vnodes.new.table }
    ensures counted { result ≡ blocks_in (all_seen vnodes.new.table) }
    ensures room { vnodes.old.room ≤ vnodes.new.room }
    ensures listed { Lists (maps.get nat_eq dirs.new.dirs) (all_seen vnodes.new.table) }
    ensures dirs_room { maps.spare dirs.old.dirs ≤ maps.spare dirs.new.dirs }
{
    let before = blocks_at(vnodes, number);
    vnodes.remove(number);
    dirs.remove(number);
    (u64::from(blocks) - before) as u32
}

/// The vnodes that a change removes.
fn remove_all(vnodes: &mut VnodeStore, dirs: &mut Directories, before: u32, removed: &[u32]) -> u32
    requires listed { Lists (maps.get nat_eq dirs.old.dirs) (all_seen vnodes.old.table) }
    requires readable { AreReadable vnodes.old.table }
    requires counted { before ≡ blocks_in (all_seen vnodes.old.table) }
    ensures table { vnodes.new.table ≡ without_all removed.now vnodes.old.table }
    ensures readable { AreReadable vnodes.new.table }
    ensures counted { result ≡ blocks_in (all_seen vnodes.new.table) }
    ensures room { vnodes.old.room ≤ vnodes.new.room }
    ensures listed { Lists (maps.get nat_eq dirs.new.dirs) (all_seen vnodes.new.table) }
    ensures dirs_room { maps.spare dirs.old.dirs ≤ maps.spare dirs.new.dirs }
{
    let mut blocks = before;
    for number in removed {
        blocks = remove(vnodes, dirs, blocks, *number);
    }
    blocks
}

/// Makes room for so many more vnodes, and for the names of as many directories.
fn room_for(vnodes: &mut VnodeStore, dirs: &mut Directories, count: usize) -> Mem<()>
    ensures room { OnOk result (count ≤ vnodes.new.room) }
    ensures dirs_room { OnOk result (count ≤ maps.spare dirs.new.dirs) }
    ensures table { vnodes.new.table ≡ vnodes.old.table }
    ensures same { (n : ℕ) → maps.get nat_eq dirs.new.dirs n ≡ maps.get nat_eq dirs.old.dirs n }
    ensures kept { vnodes.old.room ≤ vnodes.new.room }
    ensures dirs_kept { maps.spare dirs.old.dirs ≤ maps.spare dirs.new.dirs }
{
    dirs.reserve(count)?;
    vnodes.reserve(count)
}

impl Volume {
    /// Makes room for one `take_in` of this change.
    pub fn reserve(&mut self, c: &ReadyChange) -> Mem<()>
        ensures room { OnOk result (HasRoom self.new c.now) }
        ensures head { self.new.head ≡ self.old.head }
        ensures vnodes { self.new.vnodes.table ≡ self.old.vnodes.table }
        ensures can { CanTakeIn self.old c.now → CanTakeIn self.new c.now }
        ensures keeps { (d : Change) → HasRoom self.old d → HasRoom self.new d }
    {
        self.make_room(c.change().vnodes.len())
    }

    /// Makes room for so many more vnodes, and for the names of as many directories.
    pub fn make_room(&mut self, count: usize) -> Mem<()>
        ensures room { OnOk result (HasRoomFor self.new count) }
        ensures head { self.new.head ≡ self.old.head }
        ensures vnodes { self.new.vnodes.table ≡ self.old.vnodes.table }
        ensures kept { (n : ℕ) → HasRoomFor self.old n → HasRoomFor self.new n }
    {
        room_for(&mut self.vnodes, &mut self.dirs, count)
    }

    /// The volume with these vnodes and without those of these numbers, where there is room. With each vnode come its names,
    /// where it is a directory.
    pub fn take(
        &mut self,
        vnodes: Vnodes,
        names: Vec<Option<Listing>>,
        removed: VnodeNumbers,
        counter: u32,
        unique: u32,
    )
        requires taken { is_some (changed_stored counter unique vnodes removed (stored_of self.old)) ≡ true }
        requires read { AllByRecursion IsReadable vnodes }
        requires fits { AllByRecursion FitsImage vnodes }
        requires room { HasRoomFor self.old (length vnodes) }
        requires names { names.items ≡ map listed_as vnodes }
        ensures head { self.new.head ≡ record self.old.head { counter = counter; unique = unique } }
        ensures stored { changed_stored counter unique vnodes removed (stored_of self.old) ≡ Some (stored_of self.new) }
    {
        let gone = removed.as_slice();
        let left = remove_all(&mut self.vnodes, &mut self.dirs, self.blocks, gone);
        self.blocks = put_all(&mut self.vnodes, &mut self.dirs, left, vnodes, names, gone);
        self.head.counter = counter;
        self.head.unique = unique;
    }

    /// The volume after a change for which there is room. It takes no memory.
    pub fn take_in(&mut self, c: ReadyChange)
        requires can { CanTakeIn self.old c }
        requires room { HasRoom self.old c }
        ensures head { self.new.head ≡ record self.old.head { counter = c.counter; unique = c.unique } }
        ensures stored { changed_stored c.counter c.unique c.vnodes c.removed (stored_of self.old) ≡ Some (stored_of self.new) }
    {
        let (change, names) = c.into_parts();
        let Change {
            vnodes,
            removed,
            counter,
            unique,
            ..
        } = change;
        self.take(vnodes, names.into_vec(), removed, counter, unique);
    }
}
