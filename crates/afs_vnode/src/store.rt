//! The vnodes of a volume by their numbers.

ghost use Rattle.std.specs.Prelude.{◌≡◌, ◌≤◌, ◌<◌, ◌%◌, ◌↔◌, ℕ, true, false, [], Err, None, is_some, length, slice_get, IfOk, IfSome, IsOk, OnOk, OnErr};
ghost use Rattle.std.specs.Option.{option_copied, option_map};
ghost use Rattle.afs_num.specs.Keyed.{KeepsRoom};
ghost use Rattle.spec_ideal.specs.Tables.{get, set, unset, AscendsFrom, lowest_free};
ghost use Rattle.spec_ideal.specs.VnodeImage.{FitsImage};
ghost use Rattle.spec_ideal.specs.VnodeMaps.{most_vnodes, AllFit, is_full_for, first_number, allocated, changed_since};
ghost use Rattle.afs_vnode.specs.Stores.{raised, lowered, table_of, AreVnodes};
ghost use Rattle.afs_vnode.specs.declared.faults.VnodeFault.TheVariants.{TooMany};

use crate::copying::copy_vnodes;
use crate::faults::VnodeFault;
use crate::sorted;
use afs_num::types::Mem;
use afs_num::vnodes::{Vnode, VnodeNumbers, Vnodes};
use std::alloc::Global;
use std::marker::Model;

/// The vnodes of a volume, at most 4,096, by ascending numbers, and for how many more memory is there. Finding, putting
/// and removing one takes as many comparisons as the logarithm of their number; a free number is looked for from one below
/// which none is free.
#[derive(Drop)]
pub struct VnodeStore {
    vnodes: Vec<Vnode>,
    even: u32,
    odd: u32,
}

impl Model for VnodeStore {
    ghost use Rattle.std.specs.Prelude.{◌-◌, length};
    ghost use Rattle.std.specs.Vec.{vec_capacity};
    ghost use Rattle.afs_vnode.specs.Stores.{table_of, Held, IsStore};

    ghost Value = { Held };

    ghost view = { λ s. record { table = table_of s.vnodes.items; room = vec_capacity s.vnodes - length s.vnodes.items } };

    ghost invariant = { λ s. IsStore s.vnodes.items s.even s.odd };
}

/// The hint after a vnode of this number was put.
fn raised(hint: u32, number: u32) -> u32
    requires { hint ≤ 10000 }
    ensures { result ≡ raised hint number }
{
    if hint == number { hint + 2 } else { hint }
}

/// The hint after a vnode of this number was removed.
fn lowered(first: u32, hint: u32, number: u32) -> u32
    ensures { result ≡ lowered first hint number }
{
    if first <= number && number < hint && number % 2 == hint % 2 {
        number
    } else {
        hint
    }
}

impl VnodeStore {
    /// No vnodes. It takes no memory.
    pub fn new(alloc: Global) -> VnodeStore
        ensures { result.table ≡ [] }
    {
        VnodeStore {
            vnodes: Vec::new(alloc),
            even: 2,
            odd: 3,
        }
    }

    /// These vnodes, which stand by ascending numbers. It takes no memory.
    pub fn of(vnodes: Vnodes) -> VnodeStore
        requires ascends { AscendsFrom 0 (table_of vnodes) }
        requires few { length vnodes ≤ most_vnodes }
        requires fits { AllFit (table_of vnodes) }
        ensures { result.table ≡ table_of vnodes }
    {
        VnodeStore {
            vnodes: vnodes.into_vec(),
            even: 2,
            odd: 3,
        }
    }

    /// How many vnodes there are.
    pub fn len(&self) -> usize
        ensures value { result ≡ length self.now.table }
        ensures few { length self.now.table ≤ most_vnodes }
        ensures ascends { AscendsFrom 0 self.now.table }
    {
        self.vnodes.len()
    }

    /// The vnode of a number. It takes no memory.
    pub fn get(&self, vnode: u32) -> Option<&Vnode>
        ensures value { option_copied result ≡ get vnode self.now.table }
        ensures number { IfSome result (λ v. v.now.vnode ≡ vnode) }
        ensures fits { IfSome result (λ v. FitsImage v.now) }
        ensures vnodes { AreVnodes self.now.table }
    {
        sorted::find(&self.vnodes, vnode)
    }

    /// The vnode at a place in ascending order, from 0. It takes no memory.
    pub fn at(&self, place: u32) -> Option<&Vnode>
        ensures value { option_copied result ≡ option_map (λ p. p.1) (slice_get self.now.table place) }
        ensures pair { option_map (λ v. (v.vnode, v)) (option_copied result) ≡ slice_get self.now.table place }
        ensures fits { IfSome result (λ v. FitsImage v.now) }
    {
        sorted::nth(&self.vnodes, place as usize)
    }

    /// A copy, which shares the access lists and contents of the vnodes.
    pub fn copy(&self, alloc: Global) -> Mem<VnodeStore>
        ensures { IfOk result (λ s. s.table ≡ self.now.table) }
    {
        let vnodes = copy_vnodes(alloc, &self.vnodes)?;
        Ok(VnodeStore {
            vnodes: vnodes.into_vec(),
            even: self.even,
            odd: self.odd,
        })
    }

    /// The vnodes, by ascending numbers. It takes no memory.
    pub fn into_vnodes(self) -> Vnodes
        ensures table { table_of result ≡ self.table }
        ensures vnodes { AreVnodes self.table }
    {
        let VnodeStore {
            vnodes,
            even: _,
            odd: _,
        } = self;
        Vnodes::from_vec(vnodes)
    }

    /// Makes room for so many more vnodes.
    pub fn reserve(&mut self, count: usize) -> Mem<()>
        ensures room { OnOk result (count ≤ self.new.room) }
        ensures table { self.new.table ≡ self.old.table }
        ensures kept { self.old.room ≤ self.new.room }
    {
        self.vnodes.reserve(count)?;
        Ok(())
    }

    /// Puts a vnode in the place of the one with its number, if there is one. `TooMany` where there are 4,096 others.
    /// One that takes another's place takes no memory, nor does one for which there is room.
    pub fn put(&mut self, v: Vnode) -> Result<(), VnodeFault>
        requires { FitsImage v }
        ensures ok { OnOk result (self.new.table ≡ set v.vnode v self.old.table) }
        ensures err { OnErr result (self.new.table ≡ self.old.table) }
        ensures many { (result ≡ Err TooMany) ↔ (is_full_for v.vnode self.old.table ≡ true) }
        ensures replaces { is_some (get v.vnode self.old.table) ≡ true → IsOk result }
        ensures succeeds { is_full_for v.vnode self.old.table ≡ false → 0 < self.old.room → IsOk result }
        ensures vnodes { AreVnodes self.new.table }
        ensures room { KeepsRoom (get v.vnode self.old.table) self.old.room self.new.room }
    {
        let number = v.vnode;
        sorted::put(&mut self.vnodes, v)?;
        self.even = raised(self.even, number);
        self.odd = raised(self.odd, number);
        Ok(())
    }

    /// Removes the vnode of a number, and tells whether there was one. It takes no memory.
    pub fn remove(&mut self, vnode: u32) -> bool
        ensures was { result ≡ is_some (get vnode self.old.table) }
        ensures removed { self.new.table ≡ unset vnode self.old.table }
        ensures vnodes { AreVnodes self.new.table }
        ensures room { self.old.room ≤ self.new.room }
    {
        let was = sorted::remove(&mut self.vnodes, vnode);
        self.even = lowered(2, self.even, vnode);
        self.odd = lowered(3, self.odd, vnode);
        was
    }

    /// The lowest number that no directory, or no file or link, has, from 3 or 2 on. It takes no memory.
    pub fn lowest_free(&self, dir: bool) -> u32
        ensures value { result ≡ lowest_free (first_number dir) self.now.table }
        ensures free { get result self.now.table ≡ None }
    {
        let hint = if dir { self.odd } else { self.even };
        sorted::lowest_free(&self.vnodes, dir, hint)
    }

    /// The lowest number that a new directory, or a new file or link, may have; none where there are 4,096 vnodes.
    /// It takes no memory.
    pub fn allocate(&self, dir: bool) -> Option<u32>
        ensures value { result ≡ allocated dir self.now.table }
        ensures free { IfSome result (λ n. get n self.now.table ≡ None) }
        ensures lowest { IfSome result (λ n. (k : ℕ) → first_number dir ≤ k → k < n → k % 2 ≡ first_number dir % 2 → is_some (get k self.now.table) ≡ true) }
    {
        let hint = if dir { self.odd } else { self.even };
        sorted::allocate(&self.vnodes, dir, hint)
    }

    /// The numbers of the vnodes that were changed after the volume's counter stood so, in ascending order.
    pub fn changed_since(&self, alloc: Global, counter: u32) -> Mem<VnodeNumbers>
        ensures { IfOk result (λ ns. ns ≡ changed_since counter self.now.table) }
    {
        sorted::changed_since(alloc, &self.vnodes, counter)
    }
}
