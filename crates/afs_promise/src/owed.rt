//! The breaks that are owed, in the order of their numbers.

ghost use Rattle.std.specs.Prelude.{◌≡◌, ◌+◌, ◌<◌, ◌≤◌, ◌++◌, [], ◌∷◌, ℕ, length, true, nat_eq, if◌then◌else◌, IsOk, OnOk, IfNone, IfSome};
ghost use Rattle.std.specs.Iterator.{YieldsFirst, item_count};
ghost use Rattle.std.specs.List.{AllByRecursion};
ghost use Rattle.std.specs.List.Sorted.{IsPermutation};
ghost use Rattle.std.specs.BinaryHeap.{heap_items, heap_len, heap_capacity, IsHeap};
ghost use Rattle.std.specs.declared.cmp.Reverse.{Reverse};
ghost use Rattle.indexmap.specs.IndexMap.{get, spare};
ghost use Rattle.spec_breaks.specs.Promises.{has_break, without_break, lasting_breaks};
ghost use Rattle.afs_promise.specs.Owing.{has_some, is_due, struck, due_order};

use afs_num::types::{Fid, Mem, Node};
use indexmap::IndexMap;
use indexmap::map::Iter;
use spec_breaks::types::OwedBreak;
use std::alloc::Global;
use std::cmp::Reverse;
use std::collections::BinaryHeap;
use std::marker::Model;

/// Breaks that are owed, by ascending number.
#[derive(Drop)]
pub struct OwedList {
    // By number. A break that ends is struck out; those go once they are more than half.
    breaks: IndexMap<u32, Option<OwedBreak>>,
    // Expiries and numbers, those of ended breaks among them.
    due: BinaryHeap<Reverse<(u32, u32)>>,
    last: u32,
    // So many aren't struck out.
    count: usize,
    // So many breaks can become owed without memory.
    room: usize,
}

impl Model for OwedList {
    ghost use Rattle.std.specs.Prelude.{◌≡◌, ◌≤◌, ◌+◌, map, length};
    ghost use Rattle.std.specs.BinaryHeap.{heap_items, heap_len, heap_capacity, IsHeap};
    ghost use Rattle.indexmap.specs.IndexMap.{spare};
    ghost use Rattle.afs_promise.specs.Owing.{Owing, breaks_in, due_order, IsOwing};

    ghost Value = { Owing };

    ghost view = { λ o. record { breaks = breaks_in o.breaks.entries; last = o.last; room = o.room } };

    ghost invariant = { λ o. IsOwing o.breaks.entries (heap_items o.due) o.last o.count × IsHeap due_order (heap_items o.due) × (o.room ≤ spare o.breaks) × (heap_len o.due + o.room ≤ heap_capacity o.due) };
}

/// Whether a break of this number is owed.
fn is_owed(breaks: &IndexMap<u32, Option<OwedBreak>>, number: u32) -> bool
    ensures { result ≡ has_some (get nat_eq breaks.now number) }
{
    match breaks.get(&number) {
        Some(owed) => owed.is_some(),
        None => false,
    }
}

/// Whether the break of this number is owed and its expiry isn't above the clock.
fn is_due(breaks: &IndexMap<u32, Option<OwedBreak>>, number: u32, now: u32) -> bool
    ensures { result ≡ is_due now (get nat_eq breaks.now number) }
{
    match breaks.get(&number) {
        Some(Some(owed)) => owed.expiry <= now,
        _ => false,
    }
}

/// Strikes out the break of this number. Says whether it was owed.
fn strike(breaks: &mut IndexMap<u32, Option<OwedBreak>>, number: u32) -> bool
    ensures was { result ≡ has_some (get nat_eq breaks.old number) }
    ensures entries { breaks.new.entries ≡ struck number breaks.old.entries }
    ensures spare { spare breaks.new ≡ spare breaks.old }
{
    match breaks.get_mut(&number) {
        Some(owed) => owed.take().is_some(),
        None => false,
    }
}

/// Ends the break of this number, where it is owed, and counts it off.
fn end(breaks: &mut IndexMap<u32, Option<OwedBreak>>, count: &mut usize, number: u32)
    requires { has_some (get nat_eq breaks.old number) ≡ true → 0 < count.old }
    ensures entries { breaks.new.entries ≡ struck number breaks.old.entries }
    ensures spare { spare breaks.new ≡ spare breaks.old }
    ensures count { count.new + (if has_some (get nat_eq breaks.old number) then 1 else 0) ≡ count.old }
{
    if strike(breaks, number) {
        *count -= 1;
    }
}

/// Ends the break of this number, where its expiry isn't above the clock.
fn end_due(breaks: &mut IndexMap<u32, Option<OwedBreak>>, count: &mut usize, number: u32, now: u32)
    requires { has_some (get nat_eq breaks.old number) ≡ true → 0 < count.old }
    ensures entries { breaks.new.entries ≡ (if is_due now (get nat_eq breaks.old number) then struck number breaks.old.entries else breaks.old.entries) }
    ensures spare { spare breaks.new ≡ spare breaks.old }
    ensures count { count.new + (if is_due now (get nat_eq breaks.old number) then 1 else 0) ≡ count.old }
{
    if is_due(breaks, number, now) {
        end(breaks, count, number);
    }
}

/// Takes the first number off the heap, where its expiry isn't above the clock.
fn next_due(due: &mut BinaryHeap<Reverse<(u32, u32)>>, now: u32) -> Option<u32>
    requires { IsHeap due_order (heap_items due.old) }
    ensures heap { IsHeap due_order (heap_items due.new) }
    ensures none { IfNone result (AllByRecursion (λ d. now < d.0.0) (heap_items due.old)) }
    ensures same { IfNone result (heap_items due.new ≡ heap_items due.old) }
    ensures some { IfSome result (λ number. (d : Reverse (ℕ × ℕ)) × (d.0.1 ≡ number) × (d.0.0 ≤ now) × IsPermutation (heap_items due.old) (d ∷ heap_items due.new)) }
    ensures len { heap_len due.new ≤ heap_len due.old }
    ensures fewer { IfSome result (λ number. heap_len due.new + 1 ≡ heap_len due.old) }
    ensures capacity { heap_capacity due.new ≡ heap_capacity due.old }
{
    if due.peek()?.0.0 > now {
        return None;
    }
    let Reverse((_, number)) = due.pop()?;
    Some(number)
}

impl OwedList {
    /// Nothing owed. It takes no memory.
    pub fn new(alloc: Global) -> OwedList
        ensures breaks { result.breaks ≡ [] }
        ensures last { result.last ≡ 0 }
    {
        OwedList {
            breaks: IndexMap::new(alloc),
            due: BinaryHeap::new(alloc),
            last: 0,
            count: 0,
            room: 0,
        }
    }

    /// How many breaks are owed.
    pub fn len(&self) -> usize
        ensures { result ≡ length self.now.breaks }
    {
        self.count
    }

    /// Whether a break of this number is owed.
    pub fn has(&self, number: u32) -> bool
        ensures { result ≡ has_break number self.now.breaks }
    {
        is_owed(&self.breaks, number)
    }

    /// The number of the last break that became owed, 0 where none did. It takes no memory.
    pub fn last(&self) -> u32
        ensures { result ≡ self.now.last }
    {
        self.last
    }

    /// The breaks, by ascending number.
    pub fn iter(&self) -> OwedBreaks<'_>
        ensures { result ≡ self.now.breaks }
    {
        OwedBreaks {
            entries: self.breaks.iter(),
        }
    }

    /// Leaves out of the map what is struck out, once that is more than half of it.
    fn tidy_breaks(&mut self)
        ensures { self.new ≡ self.old }
    {
        if self.breaks.len() / 2 > self.count {
            self.breaks.retain(|_, owed| owed.is_some());
        }
    }

    /// Leaves out of the heap what is owed no more, once that is more than half of it.
    fn tidy_due(&mut self)
        ensures { self.new ≡ self.old }
    {
        if self.due.len() / 2 > self.count {
            let breaks = &self.breaks;
            self.due.retain(|d| is_owed(breaks, d.0.1));
        }
    }

    /// Makes room for so many breaks to become owed without memory.
    pub(crate) fn reserve(&mut self, additional: usize) -> Mem<()>
        ensures ok { OnOk result (additional ≤ self.new.room) }
        ensures room { self.old.room ≤ self.new.room }
        ensures breaks { self.new.breaks ≡ self.old.breaks }
        ensures last { self.new.last ≡ self.old.last }
    {
        if additional <= self.room {
            return Ok(());
        }
        self.tidy_breaks();
        self.tidy_due();
        self.breaks.reserve(additional)?;
        self.due.reserve(additional)?;
        self.room = additional;
        Ok(())
    }

    /// Owes a break in the room that was made for it.
    pub(crate) fn owe(&mut self, client: Node, what: Option<Fid>, expiry: u32) -> Mem<()>
        requires room { 0 < self.old.room }
        requires number { self.old.last < 4294967295 }
        ensures ok { IsOk result }
        ensures breaks { self.new.breaks ≡ self.old.breaks ++ record { number = self.old.last + 1; client = client; what = what; expiry = expiry } ∷ [] }
        ensures last { self.new.last ≡ self.old.last + 1 }
        ensures room { self.new.room + 1 ≡ self.old.room }
    {
        let number = self.last + 1;
        let owed = OwedBreak {
            number,
            client,
            what,
            expiry,
        };
        self.due.push(Reverse((expiry, number)))?;
        self.breaks.insert(number, Some(owed))?;
        self.last = number;
        self.count += 1;
        self.room -= 1;
        Ok(())
    }

    /// Ends the break of this number, where it is owed.
    pub(crate) fn end(&mut self, number: u32)
        ensures breaks { self.new.breaks ≡ without_break number self.old.breaks }
        ensures last { self.new.last ≡ self.old.last }
        ensures room { self.new.room ≡ self.old.room }
    {
        end(&mut self.breaks, &mut self.count, number);
    }

    /// Ends each break whose expiry isn't above the clock. No other is looked at.
    pub(crate) fn expire(&mut self, now: u32)
        ensures breaks { self.new.breaks ≡ lasting_breaks now self.old.breaks }
        ensures last { self.new.last ≡ self.old.last }
        ensures room { self.new.room ≡ self.old.room }
    {
        while let Some(number) = next_due(&mut self.due, now) {
            end_due(&mut self.breaks, &mut self.count, number, now);
        }
    }
}

/// Owed breaks, one after the other.
#[derive(Drop)]
pub struct OwedBreaks<'a> {
    entries: Iter<'a, u32, Option<OwedBreak>>,
}

impl<'a> Model for OwedBreaks<'a> {
    ghost use Rattle.std.specs.Prelude.{List};
    ghost use Rattle.spec_breaks.specs.declared.types.OwedBreak.{OwedBreak};
    ghost use Rattle.afs_promise.specs.Owing.{breaks_in};

    ghost Value = { List OwedBreak };

    ghost view = { λ b. breaks_in b.entries };
}

impl<'a> Iterator for OwedBreaks<'a> {
    type Item = OwedBreak;

    ghost next_gives = { YieldsFirst (λ s. s) };

    ghost remaining = { item_count (λ s. s) };

    fn next(&mut self) -> Option<OwedBreak> {
        loop {
            let (_, owed) = self.entries.next()?;
            if owed.is_some() {
                return *owed;
            }
        }
    }
}
