//! Entries' numbers under what the entries are found by.

ghost use Rattle.std.specs.Prelude.{◌≡◌, ◌≤◌, ◌<◌, ◌+◌, [], true, length, slice_get, IfSome, IsOk, OnOk, OnErr};
ghost use Rattle.std.specs.Vec.{vec_capacity};
ghost use Rattle.afs_locstore.specs.Indexed.{another_of, another_under, first_under, is_number, is_pair, number_under, pair_below, place_of, with_pair, without_pair, Ascend};

use afs_num::sequences::Octets;
use afs_num::types::Mem;
use std::alloc::{AllocError, Global};
use std::cmp::Ord;
use std::marker::Model;

/// A mark: what entries are found by. Marks have an order.
pub trait Ordered: Drop {
    ghost use Rattle.std.specs.Prelude.{Bool};
    ghost use Rattle.afs_locstore.specs.Indexed.{IsOrder};

    ghost below: { Self → Self → Bool };

    ghost same: { Self → Self → Bool };

    ghost ordered: { IsOrder below same };

    fn is_below(&self, other: &Self) -> bool
        ensures { result ≡ below self.now other.now };

    fn is_same(&self, other: &Self) -> bool
        ensures { result ≡ same self.now other.now };
}

impl Ordered for u32 {
    ghost use Rattle.std.specs.Prelude.{nat_eq, nat_lt};
    ghost use Rattle.afs_locstore.specs.Orders.{numbers_ordered};

    ghost below = { nat_lt };

    ghost same = { nat_eq };

    ghost ordered = { numbers_ordered };

    fn is_below(&self, other: &u32) -> bool {
        *self < *other
    }

    fn is_same(&self, other: &u32) -> bool {
        *self == *other
    }
}

impl Ordered for Octets {
    ghost use Rattle.std.specs.Str.{bytes_eq};
    ghost use Rattle.spec_ideal.specs.Directories.{bytes_below};
    ghost use Rattle.afs_locstore.specs.Orders.{names_ordered};

    ghost below = { bytes_below };

    ghost same = { bytes_eq };

    ghost ordered = { names_ordered };

    #[tactic(auto, unfolding(spec_ideal::specs::Directories::bytes_below))]
    fn is_below(&self, other: &Octets) -> bool {
        self.as_slice().cmp(&other.as_slice()).is_lt()
    }

    fn is_same(&self, other: &Octets) -> bool {
        self.as_slice() == other.as_slice()
    }
}

/// Pairs of a mark and the number of an entry, ascending; each stands once. A search takes as many comparisons as the logarithm of
/// their number.
#[derive(Drop)]
pub struct Index<K: Ordered> {
    items: Vec<(K, u32)>,
}

impl<K: Ordered> Model for Index<K> {
    ghost use Rattle.std.specs.Prelude.{◌-◌, length};
    ghost use Rattle.std.specs.Vec.{vec_capacity};
    ghost use Rattle.afs_locstore.specs.Indexed.{Ascend, Pairs};

    ghost Value = { Pairs K };

    ghost view = { λ i. record { pairs = i.items.items; room = vec_capacity i.items - length i.items.items } };

    ghost invariant = { λ i. Ascend K.below K.same i.items.items };
}

/// Whether a pair is below this one.
fn pair_below<K: Ordered>(pair: &(K, u32), mark: &K, number: u32) -> bool
    ensures { result ≡ pair_below K.below K.same mark.now number pair.now }
{
    pair.0.is_below(mark) || (pair.0.is_same(mark) && pair.1 < number)
}

/// Where a pair stands, or would stand.
fn place<K: Ordered>(items: &[(K, u32)], mark: &K, number: u32) -> usize
    requires { Ascend K.below K.same items.now }
    ensures value { result ≡ place_of K.below K.same mark.now number items.now }
    ensures bound { result ≤ length items.now }
{
    items.partition_point(|pair| pair_below(pair, mark, number))
}

/// The number in this place, where it stands under this mark.
fn number_at<K: Ordered>(items: &[(K, u32)], place: usize, mark: &K) -> Option<u32>
    ensures value { result ≡ number_under K.same mark.now (slice_get items.now place) }
    ensures within { IfSome result (λ n. place < length items.now) }
{
    match items.get(place) {
        Some(pair) => {
            if pair.0.is_same(mark) {
                Some(pair.1)
            } else {
                None
            }
        }
        None => None,
    }
}

/// Whether this pair stands in this place.
fn is_at<K: Ordered>(items: &[(K, u32)], place: usize, mark: &K, number: u32) -> bool
    ensures value { result ≡ is_pair K.same mark.now number (slice_get items.now place) }
    ensures within { result ≡ true → place < length items.now }
{
    match items.get(place) {
        Some(pair) => pair.0.is_same(mark) && pair.1 == number,
        None => false,
    }
}

/// The lowest number under a mark.
fn first<K: Ordered>(items: &[(K, u32)], mark: &K) -> Option<u32>
    requires { Ascend K.below K.same items.now }
    ensures { result ≡ first_under K.same mark.now items.now }
{
    let place = place(items, mark, 0);
    number_at(items, place, mark)
}

/// Whether it is this number.
fn is_number(one: Option<u32>, number: u32) -> bool
    ensures { result ≡ is_number one number }
{
    match one {
        Some(one) => number == one,
        None => false,
    }
}

/// Whether one of the first two numbers under a mark, from its place on, isn't this one.
fn another_at<K: Ordered>(items: &[(K, u32)], place: usize, mark: &K, but: Option<u32>) -> bool
    ensures { result ≡ another_of but (number_under K.same mark.now (slice_get items.now place)) (number_under K.same mark.now (slice_get items.now (place + 1))) }
{
    match number_at(items, place, mark) {
        Some(first) => !is_number(but, first) || number_at(items, place + 1, mark).is_some(),
        None => false,
    }
}

/// Whether some number stands under a mark that isn't this one: of the first two under it one is another, if any is.
fn has_another<K: Ordered>(items: &[(K, u32)], mark: &K, but: Option<u32>) -> bool
    requires { Ascend K.below K.same items.now }
    ensures { result ≡ another_under K.same mark.now but items.now }
{
    let place = place(items, mark, 0);
    another_at(items, place, mark, but)
}

/// Puts a pair between its neighbours, unless it is there.
fn put<K: Ordered>(items: &mut Vec<(K, u32)>, mark: K, number: u32) -> Mem<()>
    requires { Ascend K.below K.same items.old.items }
    ensures ok { OnOk result (items.new.items ≡ with_pair K.below K.same mark number items.old.items) }
    ensures err { OnErr result (items.new.items ≡ items.old.items) }
    ensures succeeds { length items.old.items < vec_capacity items.old → IsOk result }
    ensures grows { length items.new.items ≤ length items.old.items + 1 }
    ensures capacity { vec_capacity items.old ≤ vec_capacity items.new }
{
    let place = place(items, &mark, number);
    if is_at(items, place, &mark, number) {
        return Ok(());
    }
    match items.insert(place, (mark, number)) {
        Ok(()) => Ok(()),
        Err(_) => Err(AllocError),
    }
}

/// Takes a pair out, if it is there.
fn take<K: Ordered>(items: &mut Vec<(K, u32)>, mark: &K, number: u32)
    requires { Ascend K.below K.same items.old.items }
    ensures pairs { items.new.items ≡ without_pair K.same mark.now number items.old.items }
    ensures no_more { length items.new.items ≤ length items.old.items }
    ensures capacity { vec_capacity items.old ≤ vec_capacity items.new }
{
    let place = place(items, mark, number);
    if is_at(items, place, mark, number) {
        items.remove(place);
    }
}

impl<K: Ordered> Index<K> {
    /// No pairs. It takes no memory.
    pub fn new(alloc: Global) -> Index<K>
        ensures { result.pairs ≡ [] }
    {
        Index {
            items: Vec::new(alloc),
        }
    }

    /// The lowest number under a mark. It takes no memory.
    pub fn first(&self, mark: &K) -> Option<u32>
        ensures value { result ≡ first_under K.same mark.now self.now.pairs }
        ensures ascend { Ascend K.below K.same self.now.pairs }
    {
        first(&self.items, mark)
    }

    /// Whether some number stands under a mark that isn't this one. It takes no memory.
    pub fn has_another(&self, mark: &K, but: Option<u32>) -> bool
        ensures { result ≡ another_under K.same mark.now but self.now.pairs }
    {
        has_another(&self.items, mark, but)
    }

    /// Makes room for so many more pairs.
    pub fn reserve(&mut self, count: usize) -> Mem<()>
        ensures room { OnOk result (count ≤ self.new.room) }
        ensures kept { self.old.room ≤ self.new.room }
        ensures pairs { self.new.pairs ≡ self.old.pairs }
    {
        self.items.reserve(count)?;
        Ok(())
    }

    /// Puts a pair between its neighbours, unless it is there. One for which there is room takes no memory.
    pub fn put(&mut self, mark: K, number: u32) -> Mem<()>
        ensures ok { OnOk result (self.new.pairs ≡ with_pair K.below K.same mark number self.old.pairs) }
        ensures err { OnErr result (self.new.pairs ≡ self.old.pairs) }
        ensures succeeds { 0 < self.old.room → IsOk result }
        ensures room { self.old.room ≤ self.new.room + 1 }
    {
        put(&mut self.items, mark, number)?;
        Ok(())
    }

    /// Takes a pair out, if it is there. It takes no memory.
    pub fn take(&mut self, mark: &K, number: u32)
        ensures pairs { self.new.pairs ≡ without_pair K.same mark.now number self.old.pairs }
        ensures room { self.old.room ≤ self.new.room }
    {
        take(&mut self.items, mark, number);
    }
}
