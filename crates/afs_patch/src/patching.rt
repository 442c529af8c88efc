//! Changes that a volume can take in, found out by what they touch: in a time that is that of the change, and not that of
//! the volume. A change that doesn't pass may still be one that the volume can take in.

ghost use Rattle.std.specs.Prelude.{◌≡◌, ◌≤◌, ◌+◌, ◌&&◌, ◌||◌, ◌<◌, ◌^◌, if◌then◌else◌, [], None, Some, true, nat_eq, length, IfOk};
ghost use Rattle.std.specs.List.{list_all, AllByRecursion};
ghost use Rattle.std.specs.Option.{option_copied, option_map};
ghost use Rattle.spec_ideal.specs.Operations.{is_kind, leads_up};
ghost use Rattle.spec_ideal.specs.Tables.{get};
ghost use Rattle.spec_ideal.specs.VnodeImage.{FitsImage};
ghost use Rattle.spec_ideal.specs.VnodeMaps.{most_vnodes};
ghost use Rattle.spec_ideal.specs.Volumes.{a_directory};
ghost use Rattle.spec_records.specs.Sound.{gives_one, is_named_in, is_root};
ghost use Rattle.afs_volume.specs.Seen.{seen, IsReadable};
ghost use Rattle.afs_volume.specs.Taking.{is_among, CanTakeIn};
ghost use Rattle.afs_patch.specs.Changing.{is_in};
ghost use Rattle.afs_patch.specs.Patching.{after, before, behind_same, gives_touched, image_left, is_right, is_unmoved, keeps_place, may_stand, new_among, others_named, passes, passes_by, reaches, same_others, same_parent, table_left, AreTouched, BeginsWithOther, IsPatch, KeepsOthers, StaysNamed};

use afs_num::directories::Name;
use afs_num::types::Mem;
use afs_num::vnodes::Vnode;
use afs_num::volumes::Change;
use afs_volume::standing::{gives_held, has_links, has_names, is_root, kind_is_right, names_of};
use afs_volume::{ReadyChange, Volume, is_directory};
use std::alloc::Global;

/// How many vnodes a volume has at most.
const MOST_VNODES: usize = 4096;

/// How many vnodes a change touches at most that is tested by what it touches. Those of the operations are fewer.
const MOST_TOUCHED: usize = 64;

/// A volume and a change of it, with the numbers of the vnodes that it touches: those that it changes or removes, and those
/// whose names it changes.
#[derive(Clone, Copy)]
struct Patch<'a> {
    volume: &'a Volume,
    change: &'a Change,
    // The change with the names that it gives.
    ready: &'a ReadyChange,
    touched: &'a [u32],
    ghost same: { ready.now ≡ change.now },
}

fn is_among(number: u32, numbers: &[u32]) -> bool
    ensures { result ≡ is_among number numbers.now }
{
    numbers.contains(&number)
}

/// The last of these images that has the number, or what is there.
fn image_left<'b>(number: u32, changed: &'b [Vnode], there: Option<&'b Vnode>) -> Option<&'b Vnode>
    ensures { option_copied result ≡ image_left number changed.entry.now (option_copied there.entry) }
{
    let mut left = there;
    for x in changed {
        if x.vnode == number {
            left = Some(x);
        }
    }
    left
}

/// Both are there, and in the same directory.
#[tactic(auto, unfolding(afs_volume::specs::Seen::seen))]
fn same_parent(x: Option<&Vnode>, y: Option<&Vnode>) -> bool
    ensures { result ≡ same_parent (option_map seen (option_copied x.entry)) (option_map seen (option_copied y.entry)) }
{
    match (x, y) {
        (Some(x), Some(y)) => x.parent_vnode == y.parent_vnode,
        _ => false,
    }
}

/// Both names name the same vnode.
fn is_of_same(name: &Name, other: &Name) -> bool
    ensures { result ≡ (nat_eq name.now.vnode other.now.vnode && nat_eq name.now.unique other.now.unique) }
{
    name.vnode == other.vnode && name.unique == other.unique
}

/// The names from the first on whose vnode isn't touched.
fn others_from<'b>(touched: &[u32], names: &'b [Name]) -> &'b [Name]
    ensures same { others_named touched.now result.now ≡ others_named touched.now names.entry.now }
    ensures first { BeginsWithOther touched.now result.now }
{
    let mut rest = names;
    while let Some((name, behind)) = rest.split_first() {
        if !is_among(name.vnode, touched) {
            return rest;
        }
        rest = behind;
    }
    rest
}

/// What follows the first of these names, where that names the same vnode as this one.
fn behind_same<'b>(name: &Name, others: &'b [Name]) -> Option<&'b [Name]>
    ensures { option_copied result ≡ behind_same name.now others.entry.now }
{
    match others.split_first() {
        Some((other, rest)) if is_of_same(name, other) => Some(rest),
        _ => None,
    }
}

/// Names and names name the same, but for what is touched. Both are gone through side by side.
fn same_others(touched: &[u32], names: &[Name], others: &[Name]) -> bool
    ensures { result ≡ same_others touched.now names.now others.now }
{
    let mut left = others;
    for name in names {
        if !is_among(name.vnode, touched) {
            match behind_same(name, others_from(touched, left)) {
                Some(rest) => left = rest,
                None => return false,
            }
        }
    }
    others_from(touched, left).is_empty()
}

impl<'a> Patch<'a> {
    /// The vnode of a number as it is.
    #[tactic(auto, using(afs_volume::proofs::Tables::got))]
    fn before(&self, number: u32) -> Option<&Vnode>
        ensures value { option_copied result ≡ get number self.now.volume.now.vnodes.table }
        ensures seen { option_map seen (option_copied result) ≡ get number (before self.now.volume.now).vnodes }
    {
        self.volume.vnodes().get(number)
    }

    /// The vnode of a number as the change leaves it.
    fn after(&self, number: u32) -> Option<&Vnode>
        ensures value { option_copied result ≡ get number (table_left self.now.volume.now self.now.change.now) }
        ensures seen { option_map seen (option_copied result) ≡ get number (after self.now.volume.now self.now.change.now).vnodes }
    {
        if is_among(number, self.change.removed.as_slice()) {
            return None;
        }
        image_left(number, self.change.vnodes.as_slice(), self.before(number))
    }

    /// The names of a vnode as it is; what is no directory has none.
    fn names_before(&self, number: u32, x: &Vnode) -> &[Name]
        requires { get number self.now.volume.now.vnodes.table ≡ Some x.now }
        ensures { result.now ≡ (seen x.now).names }
    {
        self.volume.names_at(number)
    }

    /// The names of a vnode as the change leaves it; what is no directory has none.
    fn names_after(&self, number: u32, y: &Vnode) -> &[Name]
        requires { get number (table_left self.now.volume.now self.now.change.now) ≡ Some y.now }
        ensures { result.now ≡ (seen y.now).names }
    {
        match self.ready.names_given(number) {
            Some(names) => names,
            None => self.volume.names_at(number),
        }
    }

    fn is_touched(&self, number: u32) -> bool
        ensures { result ≡ is_among number self.now.touched.now }
    {
        is_among(number, self.touched)
    }

    /// A vnode keeps its names, but for what is touched.
    fn keeps_names(&self, number: u32, x: &Vnode, y: &Vnode) -> bool
        requires there { get number self.now.volume.now.vnodes.table ≡ Some x.now }
        requires left { get number (table_left self.now.volume.now self.now.change.now) ≡ Some y.now }
        ensures { result ≡ same_others self.now.touched.now (seen x.now).names (seen y.now).names }
    {
        same_others(
            self.touched,
            self.names_before(number, x),
            self.names_after(number, y),
        )
    }

    /// A vnode may go that only touched vnodes see.
    #[tactic(auto, unfolding(afs_volume::specs::Seen::seen))]
    fn may_go(&self, number: u32, x: &Vnode) -> bool
        requires { get number self.now.volume.now.vnodes.table ≡ Some x.now }
        ensures { result ≡ (is_among (seen x.now).parent self.now.touched.now && same_others self.now.touched.now (seen x.now).names []) }
    {
        let names = self.names_before(number, x);
        self.is_touched(x.parent_vnode) && same_others(self.touched, names, &[])
    }

    /// A vnode stays where it is, as far as a directory that isn't touched can tell.
    #[tactic(auto, unfolding(afs_volume::specs::Seen::seen))]
    fn keeps_place(&self, x: &Vnode, y: &Vnode) -> bool
        ensures { result ≡ keeps_place self.now.touched.now (seen x.now) (seen y.now) }
    {
        x.unique == y.unique
            && (self.is_touched(x.parent_vnode)
                || (x.parent_vnode == y.parent_vnode && x.parent_unique == y.parent_unique))
    }

    /// The vnode of this number was there before, and in the same directory.
    fn is_unmoved(&self, number: u32) -> bool
        ensures { result ≡ is_unmoved (before self.now.volume.now) (after self.now.volume.now self.now.change.now) number }
    {
        same_parent(self.before(number), self.after(number))
    }

    /// The way up from a vnode leads to the root in so many steps.
    #[tactic(auto, unfolding(afs_volume::specs::Seen::seen))]
    fn leads_up(&self, number: u32, steps: usize) -> bool
        ensures { result ≡ leads_up steps number 1 (after self.now.volume.now self.now.change.now) (get number (after self.now.volume.now self.now.change.now).vnodes) }
    {
        let mut at = number;
        for _ in 0..steps {
            match self.after(at) {
                None => return false,
                Some(_) if at == 1 => return true,
                Some(x) => at = x.parent_vnode,
            }
        }
        false
    }

    /// The way up from a vnode leads to the root.
    #[tactic(auto, unfolding(crate::specs::Patching::reaches))]
    fn reaches_root(&self, number: u32) -> bool
        ensures { result ≡ reaches (after self.now.volume.now self.now.change.now) number }
    {
        self.leads_up(number, MOST_VNODES)
    }

    /// A vnode may move from one directory to another.
    #[tactic(auto, unfolding(afs_volume::specs::Seen::seen))]
    fn may_move(&self, number: u32, x: &Vnode, y: &Vnode) -> bool
        ensures { result ≡ (if is_kind (seen x.now).kind a_directory then reaches (after self.now.volume.now self.now.change.now) number else is_unmoved (before self.now.volume.now) (after self.now.volume.now self.now.change.now) (seen y.now).parent) }
    {
        if is_directory(x) {
            self.reaches_root(number)
        } else {
            self.is_unmoved(y.parent_vnode)
        }
    }

    /// A directory that moves still leads up to the root; a file moves below a directory that doesn't move.
    #[tactic(auto, unfolding(afs_volume::specs::Seen::seen))]
    fn may_stand(&self, number: u32, x: &Vnode, y: &Vnode) -> bool
        ensures { result ≡ may_stand (before self.now.volume.now) (after self.now.volume.now self.now.change.now) number (seen x.now) (seen y.now) }
    {
        x.parent_vnode == y.parent_vnode || self.may_move(number, x, y)
    }

    #[tactic(auto, unfolding(afs_volume::specs::Seen::seen))]
    fn gives_one(&self, number: u32, d: &Vnode, name: &Name) -> bool
        ensures { result ≡ gives_one (after self.now.volume.now self.now.change.now) number (seen d.now).unique name.now }
    {
        gives_held(number, d.unique, self.after(name.vnode), name)
    }

    /// Every name of a directory gives a vnode that it holds.
    fn gives_all(&self, number: u32, d: &Vnode, names: &[Name]) -> bool
        ensures { result ≡ list_all (gives_one (after self.now.volume.now self.now.change.now) number (seen d.now).unique) names.now }
    {
        names.iter().all(|name| self.gives_one(number, d, name))
    }

    /// A name of what is touched gives a vnode that the directory holds.
    fn gives_where_touched(&self, number: u32, d: &Vnode, name: &Name) -> bool
        ensures { result ≡ gives_touched self.now.touched.now (after self.now.volume.now self.now.change.now) number (seen d.now).unique name.now }
    {
        !self.is_touched(name.vnode) || self.gives_one(number, d, name)
    }

    /// Every name of what is touched gives a vnode that the directory holds.
    fn gives_all_touched(&self, number: u32, d: &Vnode, names: &[Name]) -> bool
        ensures { result ≡ list_all (gives_touched self.now.touched.now (after self.now.volume.now self.now.change.now) number (seen d.now).unique) names.now }
    {
        names
            .iter()
            .all(|name| self.gives_where_touched(number, d, name))
    }

    /// Every name of a directory gives a vnode that it holds. Where others are named as before, names of what is touched
    /// alone are looked up.
    fn gives_still(&self, number: u32, x: Option<&Vnode>, d: &Vnode, names: &[Name]) -> bool
        requires touched { AreTouched self.now.touched.now self.now.change.now }
        requires there { option_map seen (option_copied x) ≡ get number (before self.now.volume.now).vnodes }
        requires kept { KeepsOthers self.now.touched.now (option_map seen (option_copied x)) (seen d.now) }
        requires names { names.now ≡ (seen d.now).names }
        ensures { result ≡ true → list_all (gives_one (after self.now.volume.now self.now.change.now) number (seen d.now).unique) names.now ≡ true }
    {
        match x {
            Some(_) => self.gives_all_touched(number, d, names),
            None => self.gives_all(number, d, names),
        }
    }

    /// A vnode has its names in its directory.
    #[tactic(auto, unfolding(afs_volume::specs::Seen::seen))]
    fn is_named(&self, number: u32, y: &Vnode) -> bool
        ensures { result ≡ is_named_in (get (seen y.now).parent (after self.now.volume.now self.now.change.now).vnodes) number (seen y.now) }
    {
        match self.after(y.parent_vnode) {
            Some(d) if is_directory(d) && d.unique == y.parent_unique => {
                let names = self.names_after(y.parent_vnode, d);
                has_names(y, names_of(number, y.unique, names))
            }
            _ => false,
        }
    }

    /// A vnode is named as before in a directory that isn't touched.
    #[tactic(auto, unfolding(afs_volume::specs::Seen::seen))]
    fn is_named_as_before(&self, x: Option<&Vnode>, y: &Vnode) -> bool
        ensures { result ≡ true → StaysNamed self.now.touched.now (option_map seen (option_copied x.entry)) (seen y.now) }
    {
        match x {
            Some(x) => {
                !self.is_touched(y.parent_vnode)
                    && x.unique == y.unique
                    && x.kind == y.kind
                    && (x.link_count == y.link_count || is_directory(y))
                    && x.parent_vnode == y.parent_vnode
                    && x.parent_unique == y.parent_unique
            }
            None => false,
        }
    }

    /// A vnode other than the root has its names. Where it has them as before, its directory isn't looked through.
    fn is_placed(&self, number: u32, x: Option<&Vnode>, y: &Vnode) -> bool
        requires touched { AreTouched self.now.touched.now self.now.change.now }
        requires there { option_map seen (option_copied x) ≡ get number (before self.now.volume.now).vnodes }
        ensures { result ≡ true → (nat_eq number 1 || is_named_in (get (seen y.now).parent (after self.now.volume.now self.now.change.now).vnodes) number (seen y.now)) ≡ true }
    {
        if number == 1 {
            return true;
        }
        if self.is_named_as_before(x, y) {
            return true;
        }
        self.is_named(number, y)
    }

    /// A vnode is all that one of a sound volume is, but for the way up.
    #[tactic(auto, unfolding(afs_volume::specs::Seen::seen))]
    fn is_right(&self, number: u32, x: Option<&Vnode>, y: &Vnode) -> bool
        requires touched { AreTouched self.now.touched.now self.now.change.now }
        requires there { option_map seen (option_copied x) ≡ get number (before self.now.volume.now).vnodes }
        requires kept { KeepsOthers self.now.touched.now (option_map seen (option_copied x)) (seen y.now) }
        requires left { get number (table_left self.now.volume.now self.now.change.now) ≡ Some y.now }
        ensures { result ≡ true → is_right (after self.now.volume.now self.now.change.now) number (seen y.now) ≡ true }
    {
        let names = self.names_after(number, y);
        kind_is_right(number, y)
            && y.unique < self.change.unique
            && has_links(y, names)
            && self.gives_still(number, x, y, names)
            && self.is_placed(number, x, y)
    }

    /// A new vnode.
    fn may_come(&self, number: u32, y: &Vnode) -> bool
        requires touched { AreTouched self.now.touched.now self.now.change.now }
        requires new { get number (before self.now.volume.now).vnodes ≡ None }
        requires left { get number (table_left self.now.volume.now self.now.change.now) ≡ Some y.now }
        ensures { result ≡ true → passes_by self.now.touched.now (before self.now.volume.now) (after self.now.volume.now self.now.change.now) number None (Some (seen y.now)) ≡ true }
    {
        self.is_right(number, None, y) && self.is_unmoved(y.parent_vnode)
    }

    /// A vnode that becomes another.
    fn may_become(&self, number: u32, x: &Vnode, y: &Vnode) -> bool
        requires touched { AreTouched self.now.touched.now self.now.change.now }
        requires there { get number self.now.volume.now.vnodes.table ≡ Some x.now }
        requires left { get number (table_left self.now.volume.now self.now.change.now) ≡ Some y.now }
        ensures { result ≡ true → passes_by self.now.touched.now (before self.now.volume.now) (after self.now.volume.now self.now.change.now) number (Some (seen x.now)) (Some (seen y.now)) ≡ true }
    {
        self.keeps_place(x, y)
            && self.keeps_names(number, x, y)
            && self.is_right(number, Some(x), y)
            && self.may_stand(number, x, y)
    }

    /// The vnode of this number passes the test.
    fn passes(&self, number: u32) -> bool
        requires touched { AreTouched self.now.touched.now self.now.change.now }
        ensures { result ≡ true → passes self.now.touched.now (before self.now.volume.now) (after self.now.volume.now self.now.change.now) number ≡ true }
    {
        match (self.before(number), self.after(number)) {
            (None, None) => true,
            (Some(x), None) => self.may_go(number, x),
            (None, Some(y)) => self.may_come(number, y),
            (Some(x), Some(y)) => self.may_become(number, x, y),
        }
    }

    /// All vnodes that are touched pass.
    fn all_pass(&self) -> bool
        requires touched { AreTouched self.now.touched.now self.now.change.now }
        ensures { result ≡ true → list_all (passes self.now.touched.now (before self.now.volume.now) (after self.now.volume.now self.now.change.now)) self.now.touched.now ≡ true }
    {
        for number in self.touched {
            if !self.passes(*number) {
                return false;
            }
        }
        true
    }

    /// All that go are touched.
    fn are_touched_that_go(&self) -> bool
        ensures { result ≡ list_all (λ n. is_among n self.now.touched.now) self.now.change.now.removed }
    {
        let removed = self.change.removed.as_slice();
        removed.iter().all(|number| self.is_touched(*number))
    }

    /// All that are changed are touched.
    fn are_touched_that_change(&self) -> bool
        ensures { result ≡ list_all (λ x. is_among x.vnode self.now.touched.now) self.now.change.now.vnodes }
    {
        let changed = self.change.vnodes.as_slice();
        changed.iter().all(|x| self.is_touched(x.vnode))
    }

    /// No others are changed or removed.
    fn are_touched(&self) -> bool
        ensures { result ≡ true → AreTouched self.now.touched.now self.now.change.now }
    {
        self.are_touched_that_go() && self.are_touched_that_change()
    }

    fn is_in(&self, number: u32) -> bool
        ensures { result ≡ is_in self.now.volume.now.vnodes.table number }
    {
        self.before(number).is_some()
    }

    /// Those that go are there.
    fn are_there(&self) -> bool
        ensures { result ≡ list_all (is_in self.now.volume.now.vnodes.table) self.now.change.now.removed }
    {
        let removed = self.change.removed.as_slice();
        removed.iter().all(|number| self.is_in(*number))
    }

    /// How many of the images are new.
    fn new_among(&self) -> usize
        ensures value { result ≡ new_among self.now.volume.now.vnodes.table self.now.change.now.vnodes }
        ensures small { result < 2 ^ 63 }
    {
        let changed = self.change.vnodes.as_slice();
        changed.iter().filter(|x| !self.is_in(x.vnode)).count()
    }

    /// There are not too many with those that are new.
    fn are_few(&self) -> bool
        ensures { result ≡ true → length self.now.volume.now.vnodes.table + new_among self.now.volume.now.vnodes.table self.now.change.now.vnodes ≤ most_vnodes }
    {
        self.volume.vnodes().len() + self.new_among() <= MOST_VNODES
    }

    /// The root is one, no vnode has the number 0, and unique numbers go on.
    fn is_rooted(&self) -> bool
        ensures root { result ≡ true → is_root (get 1 (after self.now.volume.now self.now.change.now).vnodes) ≡ true }
        ensures above { result ≡ true → get 0 (table_left self.now.volume.now self.now.change.now) ≡ None }
        ensures next { result ≡ true → self.now.volume.now.head.unique ≤ self.now.change.now.unique }
    {
        is_root(self.after(1))
            && self.after(0).is_none()
            && self.volume.head().unique <= self.change.unique
    }

    /// The change leaves a sound volume.
    fn leaves_sound(&self) -> bool
        ensures { result ≡ true → IsPatch self.now.touched.now self.now.volume.now self.now.change.now }
    {
        self.are_touched()
            && self.all_pass()
            && self.are_there()
            && self.are_few()
            && self.is_rooted()
    }
}

/// The vnodes that these names name.
fn add_all(touched: &mut Vec<u32>, names: &[Name]) -> Mem<()> {
    for name in names {
        touched.push(name.vnode)?;
    }
    Ok(())
}

/// How many names are below this one.
fn count_below(names: &[Name], name: &Name) -> usize
    ensures { result ≤ length names.now }
{
    names
        .iter()
        .take_while(|other| other.name.as_slice() < name.name.as_slice())
        .count()
}

/// The vnodes that the names below this one name, and what it names, if it isn't among them; the names above it.
fn add_up_to<'a>(touched: &mut Vec<u32>, names: &'a [Name], name: &Name) -> Mem<&'a [Name]> {
    let (below, above) = names.split_at(count_below(names, name));
    add_all(touched, below)?;
    match above.split_first() {
        Some((other, rest)) if is_of_same(name, other) => Ok(rest),
        _ => {
            touched.push(name.vnode)?;
            Ok(above)
        }
    }
}

/// The vnodes that names name and others don't, and those that others name and they don't. Both stand in byte order, so each
/// is gone through once. What is missed here is found by the test.
fn add_renamed(touched: &mut Vec<u32>, names: &[Name], others: &[Name]) -> Mem<()> {
    let mut left = others;
    for name in names {
        left = match left.split_first() {
            Some((other, rest)) if is_of_same(name, other) => rest,
            _ => add_up_to(touched, left, name)?,
        };
    }
    add_all(touched, left)
}

/// The vnodes that an image of a change touches.
fn add_touched(touched: &mut Vec<u32>, volume: &Volume, ready: &ReadyChange, y: &Vnode) -> Mem<()> {
    touched.push(y.vnode)?;
    match (volume.vnodes().get(y.vnode), ready.names_given(y.vnode)) {
        (Some(_), Some(names)) => add_renamed(touched, volume.names_at(y.vnode), names),
        _ => Ok(()),
    }
}

/// The vnodes that a change touches. Nothing is promised of them: `leaves_sound` tests that the change touches no others, and
/// that these are left sound.
fn all_touched(alloc: Global, volume: &Volume, ready: &ReadyChange) -> Mem<Vec<u32>> {
    let change = ready.change();
    let mut touched = Vec::from_slice(alloc, change.removed.as_slice())?;
    for y in change.vnodes.as_slice() {
        add_touched(&mut touched, volume, ready, y)?;
    }
    Ok(touched)
}

/// Whether a change passes the test of what it touches: then the volume can take it in.
pub(crate) fn can_take(alloc: Global, volume: &Volume, ready: &ReadyChange) -> Mem<bool>
    requires read { AllByRecursion IsReadable ready.now.vnodes }
    requires fits { AllByRecursion FitsImage ready.now.vnodes }
    ensures { IfOk result (λ can. can ≡ true → CanTakeIn volume.now ready.now) }
{
    let touched = all_touched(alloc, volume, ready)?;
    if touched.len() > MOST_TOUCHED {
        return Ok(false);
    }
    let patch = Patch {
        volume,
        change: ready.change(),
        ready,
        touched: touched.as_slice(),
    };
    Ok(patch.leaves_sound())
}
