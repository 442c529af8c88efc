//! The entries in memory. Each is found by a search, by its read-write number, by any of its numbers, or by its name.

ghost use Rattle.std.specs.Prelude.{◌≡◌, ◌≤◌, ◌<◌, ◌+◌, ◌||◌, [], None, nat_eq, IfSome, OnOk, length};
ghost use Rattle.std.specs.Option.{option_copied, option_map};
ghost use Rattle.spec_ideal.specs.Tables.{get, unset, AscendsFrom};
ghost use Rattle.spec_records.specs.LocDurable.{entries_set, entry_set};
ghost use Rattle.spec_records.specs.LocRecords.{listed_form};
ghost use Rattle.spec_rows.specs.LocRow.{all_listed, any_other, found_id, found_name, is_named, nth, shares_id};
ghost use Rattle.afs_locstore.specs.Indexed.{another_under, first_under, with_pair, Ascend};
ghost use Rattle.afs_locstore.specs.Listings.{are_placed, entry_of, get_under, names_without, numbers_with, numbers_without, with_number, CanBeAllPut, CanBePut, HasRoomOf, KeepsRooms, StandByNumber, TakesRoomOfOne};

use crate::index::{Index, Ordered};
use crate::placed::Placed;
use afs_locrecord::types::Listed;
use afs_num::location_calls::LocEntry;
use afs_num::sequences::{Octets, Sequence};
use afs_num::types::Mem;
use afs_seats::Seats;
use std::alloc::{AllocError, Global};
use std::marker::Model;

/// An entry has so many numbers.
const NUMBERS: usize = 3;

/// The entries by their read-write numbers; these under each number of their entries, and under their names.
#[derive(Drop)]
pub struct Entries {
    listed: Seats<Listed>,
    numbers: Index<u32>,
    names: Index<Octets>,
}

impl Model for Entries {
    ghost use Rattle.afs_locstore.specs.Listings.{AreIndexed, Listings};

    ghost Value = { Listings };

    ghost view = { λ e. record { table = e.listed.table; rooms = record { entries = e.listed.room; numbers = e.numbers.room; names = e.names.room } } };

    ghost invariant = { λ e. AreIndexed e.listed.table e.numbers.pairs e.names.pairs };
}

/// The entry of the lowest number under a mark.
fn first_found<'a, K: Ordered>(
    index: &Index<K>,
    listed: &'a Seats<Listed>,
    mark: &K,
) -> Option<&'a Listed>
    ensures value { option_copied result ≡ get_under (first_under K.same mark.now index.now.pairs) listed.now.table }
    ensures ascend { Ascend K.below K.same index.now.pairs }
{
    let number = index.first(mark)?;
    listed.get(number)
}

/// The read-write number of an entry.
fn number_of(listed: &Listed) -> u32
    ensures { result ≡ listed.now.entry.read_write }
{
    listed.entry.read_write
}

/// The read-write number of an entry, if there is one.
fn read_write_of(listed: Option<&Listed>) -> Option<u32>
    ensures { result ≡ option_map (λ e. e.read_write) (entry_of (option_copied listed.entry)) }
{
    match listed {
        Some(listed) => Some(number_of(listed)),
        None => None,
    }
}

/// Whether another number than this one stands under one of an entry's numbers.
fn shares(numbers: &Index<u32>, new: &LocEntry, but: Option<u32>) -> bool
    ensures { result ≡ (another_under nat_eq new.now.read_write but numbers.now.pairs || (another_under nat_eq new.now.read_only but numbers.now.pairs || another_under nat_eq new.now.backup but numbers.now.pairs)) }
{
    numbers.has_another(&new.read_write, but)
        || numbers.has_another(&new.read_only, but)
        || numbers.has_another(&new.backup, but)
}

/// Puts a pair for which there is room.
fn put<K: Ordered>(index: &mut Index<K>, mark: K, number: u32)
    requires { 0 < index.old.room }
    ensures pairs { index.new.pairs ≡ with_pair K.below K.same mark number index.old.pairs }
    ensures room { index.old.room ≤ index.new.room + 1 }
{
    match index.put(mark, number) {
        Ok(()) => {}
        Err(_) => unreachable!(),
    }
}

/// Puts an entry's read-write number under one of its numbers, unless that is 0.
fn put_number(numbers: &mut Index<u32>, id: u32, number: u32)
    requires { 0 < numbers.old.room }
    ensures pairs { numbers.new.pairs ≡ with_number id number numbers.old.pairs }
    ensures room { numbers.old.room ≤ numbers.new.room + 1 }
{
    if id != 0 {
        put(numbers, id, number);
    }
}

/// Puts an entry's read-write number under each of its numbers.
fn put_numbers(numbers: &mut Index<u32>, listed: &Listed)
    requires { 3 ≤ numbers.old.room }
    ensures pairs { numbers.new.pairs ≡ numbers_with listed.now.entry numbers.old.pairs }
    ensures room { numbers.old.room ≤ numbers.new.room + 3 }
{
    let entry = &listed.entry;
    put_number(numbers, entry.read_write, entry.read_write);
    put_number(numbers, entry.read_only, entry.read_write);
    put_number(numbers, entry.backup, entry.read_write);
}

/// Takes an entry's read-write number out from under each of its numbers.
fn take_numbers(numbers: &mut Index<u32>, listed: &Listed)
    ensures pairs { numbers.new.pairs ≡ numbers_without listed.now.entry numbers.old.pairs }
    ensures room { numbers.old.room ≤ numbers.new.room }
{
    let entry = &listed.entry;
    numbers.take(&entry.read_write, entry.read_write);
    numbers.take(&entry.read_only, entry.read_write);
    numbers.take(&entry.backup, entry.read_write);
}

/// Takes an entry's read-write number out from under its name.
fn take_name(names: &mut Index<Octets>, listed: &Listed)
    ensures pairs { names.new.pairs ≡ names_without listed.now.entry names.old.pairs }
    ensures room { names.old.room ≤ names.new.room }
{
    names.take(&listed.entry.name, listed.entry.read_write);
}

impl Entries {
    /// No entries. It takes no memory.
    pub fn new(alloc: Global) -> Entries
        ensures { result.table ≡ [] }
    {
        Entries {
            listed: Seats::new(alloc),
            numbers: Index::new(alloc),
            names: Index::new(alloc),
        }
    }

    /// Each entry stands under its read-write number, and these ascend. Nothing is done.
    pub fn are_keyed(&self)
        ensures keyed { StandByNumber self.now.table }
        ensures ordered { AscendsFrom 0 self.now.table }
    {
        let _ = &self.listed;
    }

    /// The entry of this read-write number. It takes no memory.
    pub fn get(&self, number: u32) -> Option<&Listed>
        ensures { option_copied result ≡ get number self.now.table }
    {
        self.listed.get(number)
    }

    /// The entry that has this number among its three: where several have it, that of the lowest read-write number. It takes no
    /// memory.
    pub fn find(&self, id: u32) -> Option<&Listed>
        ensures value { option_copied result ≡ found_id id self.now.table }
        ensures fits { IfSome result (λ l. listed_form.Fits l.now) }
    {
        first_found(&self.numbers, &self.listed, &id)
    }

    /// The entry of this name, likewise. It takes no memory.
    pub fn named(&self, name: &Octets) -> Option<&Listed>
        ensures value { option_copied result ≡ found_name name.now self.now.table }
        ensures fits { IfSome result (λ l. listed_form.Fits l.now) }
    {
        first_found(&self.names, &self.listed, name)
    }

    /// The entry at this place in order of the read-write numbers, from 0. It takes no memory.
    pub fn at(&self, place: u32) -> Option<&Listed>
        ensures value { option_copied result ≡ nth place (all_listed self.now.table) }
        ensures fits { IfSome result (λ l. listed_form.Fits l.now) }
    {
        match self.listed.at(place as usize) {
            Some(item) => Some(&item.1),
            None => None,
        }
    }

    /// Whether another entry than this one, if there is one, has one of a new entry's numbers. It takes no memory.
    pub fn shares_number(&self, old: Option<&Listed>, new: &LocEntry) -> bool
        ensures { result ≡ any_other (entry_of (option_copied old.entry)) (shares_id new.now) self.now.table }
    {
        shares(&self.numbers, new, read_write_of(old))
    }

    /// Whether another entry than this one, if there is one, has a new entry's name. It takes no memory.
    pub fn shares_name(&self, old: Option<&Listed>, new: &LocEntry) -> bool
        ensures { result ≡ any_other (entry_of (option_copied old.entry)) (is_named new.now.name) self.now.table }
    {
        self.names.has_another(&new.name, read_write_of(old))
    }

    /// Makes room for so many more entries.
    pub fn reserve(&mut self, count: usize) -> Mem<()>
        ensures room { OnOk result (HasRoomOf count self.new.rooms) }
        ensures table { self.new.table ≡ self.old.table }
        ensures keeps { KeepsRooms self.old.rooms self.new.rooms }
    {
        let Some(numbers) = count.checked_mul(NUMBERS) else {
            return Err(AllocError);
        };
        self.listed.reserve(count)?;
        self.numbers.reserve(numbers)?;
        self.names.reserve(count)
    }

    /// Removes the entry of this read-write number, if there is one. It takes no memory.
    pub fn remove(&mut self, number: u32)
        ensures table { self.new.table ≡ unset number self.old.table }
        ensures keeps { KeepsRooms self.old.rooms self.new.rooms }
        ensures ordered { AscendsFrom 0 self.old.table }
    {
        if let Some(listed) = self.listed.take(number) {
            take_numbers(&mut self.numbers, &listed);
            take_name(&mut self.names, &listed);
        }
    }

    /// Adds an entry whose read-write number none has. It takes no memory.
    fn add(&mut self, placed: Placed)
        requires can { CanBePut placed }
        requires absent { get placed.listed.entry.read_write self.old.table ≡ None }
        requires room { HasRoomOf 1 self.old.rooms }
        ensures table { self.new.table ≡ entry_set placed.listed self.old.table }
        ensures room { TakesRoomOfOne self.old.rooms self.new.rooms }
    {
        let Placed { listed, name } = placed;
        let number = number_of(&listed);
        put_numbers(&mut self.numbers, &listed);
        put(&mut self.names, name, number);
        match self.listed.put(number, listed) {
            Ok(()) => {}
            Err(_) => unreachable!(),
        }
    }

    /// Sets an entry, in the place of the one of its number or as a new one. It takes no memory.
    pub fn put(&mut self, placed: Placed)
        requires can { CanBePut placed }
        requires room { HasRoomOf 1 self.old.rooms }
        ensures table { self.new.table ≡ entry_set placed.listed self.old.table }
        ensures room { TakesRoomOfOne self.old.rooms self.new.rooms }
    {
        self.remove(number_of(&placed.listed));
        self.add(placed);
    }

    /// Sets these entries, one after the other. It takes no memory.
    pub fn put_all(&mut self, placed: Sequence<Placed>)
        requires can { CanBeAllPut placed }
        requires room { HasRoomOf (length placed) self.old.rooms }
        ensures { self.new.table ≡ entries_set (are_placed placed) self.old.table }
    {
        for one in placed.into_vec() {
            self.put(one);
        }
    }
}
