//! Vnodes in a vector by ascending numbers.

ghost use Rattle.std.specs.Prelude.{◌≡◌, ◌≤◌, ◌<◌, ◌+◌, ◌%◌, ◌↔◌, ℕ, true, false, Err, None, length, is_some, slice_get, OnOk, OnErr, IfOk, IfSome, IsOk};
ghost use Rattle.std.specs.Option.{option_copied};
ghost use Rattle.std.specs.Vec.{vec_capacity};
ghost use Rattle.spec_ideal.specs.Tables.{get, set, unset, AscendsFrom, lowest_free};
ghost use Rattle.spec_ideal.specs.VnodeMaps.{most_vnodes, is_full_for, first_number, allocated, changed_since};
ghost use Rattle.afs_vnode.specs.Stores.{table_of, place_of, has_number, IsHint};
ghost use Rattle.afs_vnode.specs.declared.faults.VnodeFault.TheVariants.{TooMany};

use crate::faults::VnodeFault;
use afs_num::types::Mem;
use afs_num::vnodes::{Vnode, VnodeNumbers};
use std::alloc::{AllocError, Global};

/// The most vnodes of a volume.
pub const MOST_VNODES: usize = 4_096;

/// Where the vnode of a number stands, or would stand.
fn place(vnodes: &[Vnode], number: u32) -> usize
    requires { AscendsFrom 0 (table_of vnodes.now) }
    ensures value { result ≡ place_of number vnodes.now }
    ensures bound { result ≤ length vnodes.now }
{
    vnodes.partition_point(|v| v.vnode < number)
}

/// The vnode in this place, from 0.
pub fn nth(vnodes: &[Vnode], place: usize) -> Option<&Vnode>
    ensures { option_copied result ≡ slice_get vnodes.now place }
{
    vnodes.get(place)
}

/// Whether the vnode in this place has the number.
fn is_at(vnodes: &[Vnode], place: usize, number: u32) -> bool
    ensures value { result ≡ has_number number (slice_get vnodes.now place) }
    ensures within { result ≡ true → place < length vnodes.now }
{
    match vnodes.get(place) {
        Some(v) => v.vnode == number,
        None => false,
    }
}

/// The vnode of a number.
#[tactic(auto, using(crate::proofs::Places::present, crate::proofs::Places::missing))]
pub fn find(vnodes: &[Vnode], number: u32) -> Option<&Vnode>
    requires { AscendsFrom 0 (table_of vnodes.now) }
    ensures { option_copied result ≡ get number (table_of vnodes.now) }
{
    let place = place(vnodes, number);
    if is_at(vnodes, place, number) {
        nth(vnodes, place)
    } else {
        None
    }
}

/// Whether there is no room for one more vnode, and this number would be one.
fn is_full_for(vnodes: &[Vnode], number: u32) -> bool
    requires { AscendsFrom 0 (table_of vnodes.now) }
    ensures { result ≡ is_full_for number (table_of vnodes.now) }
{
    vnodes.len() == MOST_VNODES && find(vnodes, number).is_none()
}

/// Puts a vnode in the place of the one with its number, or, where there is none, between its neighbours.
#[tactic(auto, using(crate::proofs::Places::is_found, crate::proofs::Places::replaced, crate::proofs::Places::inserted))]
fn put_in_place(vnodes: &mut Vec<Vnode>, v: Vnode) -> Mem<()>
    requires { AscendsFrom 0 (table_of vnodes.old.items) }
    ensures ok { OnOk result (table_of vnodes.new.items ≡ set v.vnode v (table_of vnodes.old.items)) }
    ensures err { OnErr result (vnodes.new.items ≡ vnodes.old.items) }
    ensures grows { length vnodes.new.items ≤ length vnodes.old.items + 1 }
    ensures replaces { is_some (get v.vnode (table_of vnodes.old.items)) ≡ true → length vnodes.new.items ≡ length vnodes.old.items }
    ensures succeeds { is_some (get v.vnode (table_of vnodes.old.items)) ≡ true → IsOk result }
    ensures in_room { length vnodes.old.items < vec_capacity vnodes.old → IsOk result }
    ensures capacity { vec_capacity vnodes.old ≤ vec_capacity vnodes.new }
{
    let place = place(vnodes, v.vnode);
    if is_at(vnodes, place, v.vnode) {
        vnodes[place] = v;
        Ok(())
    } else {
        match vnodes.insert(place, v) {
            Ok(()) => Ok(()),
            Err(_) => Err(AllocError),
        }
    }
}

/// Puts a vnode, where there is room.
pub fn put(vnodes: &mut Vec<Vnode>, v: Vnode) -> Result<(), VnodeFault>
    requires ascends { AscendsFrom 0 (table_of vnodes.old.items) }
    requires few { length vnodes.old.items ≤ most_vnodes }
    ensures ok { OnOk result (table_of vnodes.new.items ≡ set v.vnode v (table_of vnodes.old.items)) }
    ensures err { OnErr result (vnodes.new.items ≡ vnodes.old.items) }
    ensures few { length vnodes.new.items ≤ most_vnodes }
    ensures many { (result ≡ Err TooMany) ↔ (is_full_for v.vnode (table_of vnodes.old.items) ≡ true) }
    ensures replaces { is_some (get v.vnode (table_of vnodes.old.items)) ≡ true → IsOk result }
    ensures succeeds { is_full_for v.vnode (table_of vnodes.old.items) ≡ false → length vnodes.old.items < vec_capacity vnodes.old → IsOk result }
    ensures grows { length vnodes.new.items ≤ length vnodes.old.items + 1 }
    ensures same_length { is_some (get v.vnode (table_of vnodes.old.items)) ≡ true → length vnodes.new.items ≡ length vnodes.old.items }
    ensures capacity { vec_capacity vnodes.old ≤ vec_capacity vnodes.new }
{
    if is_full_for(vnodes, v.vnode) {
        return Err(VnodeFault::TooMany);
    }
    match put_in_place(vnodes, v) {
        Ok(()) => Ok(()),
        Err(_) => Err(VnodeFault::OutOfMemory),
    }
}

/// Removes the vnode of a number, where there is one.
#[tactic(auto, using(crate::proofs::Places::is_found, crate::proofs::Places::removed, crate::proofs::Places::absent))]
pub fn remove(vnodes: &mut Vec<Vnode>, number: u32) -> bool
    requires { AscendsFrom 0 (table_of vnodes.old.items) }
    ensures was { result ≡ is_some (get number (table_of vnodes.old.items)) }
    ensures removed { table_of vnodes.new.items ≡ unset number (table_of vnodes.old.items) }
    ensures few { length vnodes.new.items ≤ length vnodes.old.items }
    ensures capacity { vec_capacity vnodes.old ≤ vec_capacity vnodes.new }
{
    let place = place(vnodes, number);
    if is_at(vnodes, place, number) {
        vnodes.remove(place);
        true
    } else {
        false
    }
}

/// The lowest of this number and the next ones of its parity that none of these vnodes has.
fn first_free(vnodes: &[Vnode], from: u32) -> u32
    requires few { length vnodes.now ≤ most_vnodes }
    requires low { from ≤ 10000 }
    ensures { result ≡ lowest_free from (table_of vnodes.now) }
{
    let mut number = from;
    for v in vnodes {
        if number < v.vnode {
            return number;
        }
        if v.vnode == number {
            number += 2;
        }
    }
    number
}

/// The lowest of this number and the next ones of its parity that no vnode has. It looks at no vnode of a lower number.
#[tactic(auto, using(crate::proofs::Lowest::from_place))]
pub fn free_number(vnodes: &[Vnode], from: u32) -> u32
    requires ascends { AscendsFrom 0 (table_of vnodes.now) }
    requires few { length vnodes.now ≤ most_vnodes }
    requires low { from ≤ 10000 }
    ensures { result ≡ lowest_free from (table_of vnodes.now) }
{
    let (_, behind) = vnodes.split_at(place(vnodes, from));
    first_free(behind, from)
}

/// The lowest number that no directory, or no file or link, has, where none below the hint is free.
pub fn lowest_free(vnodes: &[Vnode], dir: bool, hint: u32) -> u32
    requires ascends { AscendsFrom 0 (table_of vnodes.now) }
    requires few { length vnodes.now ≤ most_vnodes }
    requires hint { IsHint (first_number dir) hint (table_of vnodes.now) }
    ensures value { result ≡ lowest_free (first_number dir) (table_of vnodes.now) }
    ensures free { get result (table_of vnodes.now) ≡ None }
    ensures lowest { (k : ℕ) → first_number dir ≤ k → k < result → k % 2 ≡ first_number dir % 2 → is_some (get k (table_of vnodes.now)) ≡ true }
{
    free_number(vnodes, hint)
}

/// The lowest number that a new directory, or a new file or link, may have, where none below the hint is free.
pub fn allocate(vnodes: &[Vnode], dir: bool, hint: u32) -> Option<u32>
    requires ascends { AscendsFrom 0 (table_of vnodes.now) }
    requires few { length vnodes.now ≤ most_vnodes }
    requires hint { IsHint (first_number dir) hint (table_of vnodes.now) }
    ensures value { result ≡ allocated dir (table_of vnodes.now) }
    ensures free { IfSome result (λ n. get n (table_of vnodes.now) ≡ None) }
    ensures lowest { IfSome result (λ n. (k : ℕ) → first_number dir ≤ k → k < n → k % 2 ≡ first_number dir % 2 → is_some (get k (table_of vnodes.now)) ≡ true) }
{
    if vnodes.len() == MOST_VNODES {
        return None;
    }
    Some(lowest_free(vnodes, dir, hint))
}

/// The numbers of the vnodes that were changed after the counter stood so.
#[tactic(auto, unfolding(spec_ideal::specs::VnodeMaps::changed_since))]
pub fn changed_since(alloc: Global, vnodes: &[Vnode], counter: u32) -> Mem<VnodeNumbers>
    ensures { IfOk result (λ ns. ns ≡ changed_since counter (table_of vnodes.now)) }
{
    let mut numbers = VnodeNumbers::new(alloc);
    for v in vnodes {
        if counter < v.change_counter {
            numbers.push(v.vnode)?;
        }
    }
    Ok(numbers)
}
