//! Items by ascending numbers.

ghost use Rattle.std.specs.Prelude.{◌≡◌, ◌≤◌, ◌<◌, ◌+◌, ℕ, Some, None, [], true, false, length, is_some, slice_get, OnOk, OnErr, IfNone, IsOk, IsSome};
ghost use Rattle.std.specs.Vec.{vec_capacity};
ghost use Rattle.std.specs.Option.{option_copied, option_map};
ghost use Rattle.spec_ideal.specs.Tables.{get, set, unset, AscendsFrom};
ghost use Rattle.afs_seats.specs.Seated.{has_number, item_of, place_of};

use afs_num::types::Mem;
use std::alloc::{AllocError, Global};
use std::marker::Model;

/// Items by ascending numbers, and for how many more memory is there. Finding one takes as many comparisons as the
/// logarithm of their number.
#[derive(Drop)]
pub struct Seats<T> {
    items: Vec<(u32, T)>,
}

impl<T> Model for Seats<T> {
    ghost use Rattle.std.specs.Prelude.{◌-◌, length};
    ghost use Rattle.std.specs.Vec.{vec_capacity};
    ghost use Rattle.spec_ideal.specs.Tables.{AscendsFrom};
    ghost use Rattle.afs_seats.specs.Seated.{Seated};

    ghost Value = { Seated T };

    ghost view = { λ s. record { table = s.items.items; room = vec_capacity s.items - length s.items.items } };

    ghost invariant = { λ s. AscendsFrom 0 s.items.items };
}

/// Where the item of a number stands, or would stand.
fn place<T>(items: &[(u32, T)], number: u32) -> usize
    requires { AscendsFrom 0 items.now }
    ensures value { result ≡ place_of number items.now }
    ensures bound { result ≤ length items.now }
{
    items.partition_point(|item| item.0 < number)
}

/// Whether the item in this place has the number.
fn is_at<T>(items: &[(u32, T)], place: usize, number: u32) -> bool
    ensures value { result ≡ has_number number (slice_get items.now place) }
    ensures within { result ≡ true → place < length items.now }
{
    match items.get(place) {
        Some(item) => item.0 == number,
        None => false,
    }
}

/// The item in this place.
fn nth<T>(items: &[(u32, T)], place: usize) -> Option<&T>
    ensures { option_copied result ≡ item_of (slice_get items.now place) }
{
    match items.get(place) {
        Some(item) => Some(&item.1),
        None => None,
    }
}

/// The item of a number.
#[tactic(auto, using(crate::proofs::Places::present, crate::proofs::Places::missing))]
fn find<T>(items: &[(u32, T)], number: u32) -> Option<&T>
    requires { AscendsFrom 0 items.now }
    ensures { option_copied result ≡ get number items.now }
{
    let place = place(items, number);
    if is_at(items, place, number) {
        nth(items, place)
    } else {
        None
    }
}

/// Puts an item in the place of the one with its number, or between its neighbours.
#[tactic(auto, using(crate::proofs::Places::replaced, crate::proofs::Places::inserted))]
fn put<T: Drop>(items: &mut Vec<(u32, T)>, number: u32, item: T) -> Mem<()>
    requires { AscendsFrom 0 items.old.items }
    ensures ok { OnOk result (items.new.items ≡ set number item items.old.items) }
    ensures err { OnErr result (items.new.items ≡ items.old.items) }
    ensures succeeds { length items.old.items < vec_capacity items.old → IsOk result }
    ensures grows { length items.new.items ≤ length items.old.items + 1 }
    ensures capacity { vec_capacity items.old ≤ vec_capacity items.new }
{
    let place = place(items, number);
    if is_at(items, place, number) {
        items[place] = (number, item);
        Ok(())
    } else {
        match items.insert(place, (number, item)) {
            Ok(()) => Ok(()),
            Err(_) => Err(AllocError),
        }
    }
}

/// Takes the item of a number out of its place.
#[tactic(auto, using(crate::proofs::Places::present, crate::proofs::Places::missing, crate::proofs::Places::removed, crate::proofs::Places::absent))]
fn take<T>(items: &mut Vec<(u32, T)>, number: u32) -> Option<T>
    requires { AscendsFrom 0 items.old.items }
    ensures value { result ≡ get number items.old.items }
    ensures table { items.new.items ≡ unset number items.old.items }
    ensures fewer { IsSome result → length items.new.items < length items.old.items }
    ensures no_more { length items.new.items ≤ length items.old.items }
    ensures untouched { IfNone result (items.new ≡ items.old) }
    ensures capacity { vec_capacity items.old ≤ vec_capacity items.new }
{
    let place = place(items, number);
    if is_at(items, place, number) {
        Some(items.remove(place).1)
    } else {
        None
    }
}

impl<T> Seats<T> {
    /// No items. It takes no memory.
    pub fn new(alloc: Global) -> Seats<T>
        ensures { result.table ≡ [] }
    {
        Seats {
            items: Vec::new(alloc),
        }
    }

    /// How many items there are.
    pub fn len(&self) -> usize
        ensures value { result ≡ length self.now.table }
        ensures ascends { AscendsFrom 0 self.now.table }
    {
        self.items.len()
    }

    /// The item of a number. It takes no memory.
    pub fn get(&self, number: u32) -> Option<&T>
        ensures { option_copied result ≡ get number self.now.table }
    {
        find(&self.items, number)
    }

    /// The number and the item at a place, from 0. It takes no memory.
    pub fn at(&self, place: usize) -> Option<&(u32, T)>
        ensures value { option_copied result ≡ slice_get self.now.table place }
        ensures ascends { AscendsFrom 0 self.now.table }
    {
        self.items.get(place)
    }
}

impl<T> Seats<T> {
    /// These items, which ascend. It takes no memory.
    pub fn from_items(items: Vec<(u32, T)>) -> Seats<T>
        requires { AscendsFrom 0 items.items }
        ensures { result.table ≡ items.items }
    {
        Seats { items }
    }

    /// Takes the item of a number out, if there is one. It takes no memory, and leaves room for it.
    #[tactic(auto, using(crate::proofs::Places::less_ascends))]
    pub fn take(&mut self, number: u32) -> Option<T>
        ensures value { result ≡ get number self.old.table }
        ensures table { self.new.table ≡ unset number self.old.table }
        ensures room { IsSome result → self.old.room < self.new.room }
        ensures kept { self.old.room ≤ self.new.room }
        ensures ascends { AscendsFrom 0 self.old.table }
        ensures untouched { IfNone result (self.new ≡ self.old) }
    {
        take(&mut self.items, number)
    }

    /// The items. It takes no memory.
    pub fn into_items(self) -> Vec<(u32, T)>
        ensures items { result.items ≡ self.table }
        ensures ascends { AscendsFrom 0 result.items }
    {
        let Seats { items } = self;
        items
    }
}

impl<T: Drop> Seats<T> {
    /// Makes room for so many more items.
    pub fn reserve(&mut self, count: usize) -> Mem<()>
        ensures room { OnOk result (count ≤ self.new.room) }
        ensures kept { self.old.room ≤ self.new.room }
        ensures table { self.new.table ≡ self.old.table }
    {
        self.items.reserve(count)?;
        Ok(())
    }

    /// Puts an item in the place of the one with its number, or between its neighbours. One for which there is room takes
    /// no memory.
    #[tactic(auto, using(crate::proofs::Places::still_ascends))]
    pub fn put(&mut self, number: u32, item: T) -> Mem<()>
        ensures ok { OnOk result (self.new.table ≡ set number item self.old.table) }
        ensures err { OnErr result (self.new.table ≡ self.old.table) }
        ensures succeeds { 0 < self.old.room → IsOk result }
        ensures room { self.old.room ≤ self.new.room + 1 }
    {
        put(&mut self.items, number, item)?;
        Ok(())
    }
}
