//! Things that have numbers, from 1 on.

ghost use Rattle.std.specs.Prelude.{◌≡◌, ◌≤◌, ◌<◌, ◌⊎◌, ◌+◌, ◌-◌, None, Some, length, IfNone, IfSome};
ghost use Rattle.std.specs.Borrow.{sem};
ghost use Rattle.std.specs.List.{insert};
ghost use Rattle.afs_num.specs.Places.{at_place};
ghost use Rattle.afs_clients.specs.Places.{IsLifted};

use std::marker::Model;

/// Things in the order of their numbers. One may be taken out, and put back in.
#[derive(Drop)]
pub struct Places<T> {
    items: Vec<T>,
}

impl<T> Model for Places<T> {
    ghost use Rattle.std.specs.Prelude.{◌-◌, length};
    ghost use Rattle.std.specs.Vec.{vec_capacity};
    ghost use Rattle.afs_clients.specs.Places.{Room};

    ghost Value = { Room T };

    ghost view = { λ p. record { items = p.items.items; room = vec_capacity p.items - length p.items.items } };
}

impl<T> Places<T> {
    /// These things have the numbers from 1 on.
    pub fn of(items: Vec<T>) -> Places<T>
        ensures { result.items ≡ items.items }
    {
        Places { items }
    }

    /// How many there are.
    pub fn len(&self) -> usize
        ensures { result ≡ length self.now.items }
    {
        self.items.len()
    }

    /// The things, in the order of their numbers.
    pub fn into_vec(self) -> Vec<T>
        ensures { result.items ≡ self.items }
    {
        let Places { items } = self;
        items
    }
}

/// Where the one of this number stands among so many.
fn index(number: u8, len: usize) -> Option<usize>
    ensures some { IfSome result (λ i. (i + 1 ≡ number) × (i < len)) }
    ensures none { IfNone result ((number ≡ 0) ⊎ (len < number)) }
{
    if number == 0 || len < number as usize {
        return None;
    }
    Some(number as usize - 1)
}

impl<T> Places<T> {
    ghost use Rattle.afs_clients.specs.PlaceLends.{LendsPlace};

    /// Where the one of this number stands.
    pub fn find(&self, number: u8) -> Option<usize>
        ensures some { IfSome result (λ i. (i + 1 ≡ number) × (i < length self.now.items)) }
        ensures none { IfNone result (at_place self.now.items number ≡ None) }
    {
        index(number, self.items.len())
    }

    /// The one that stands here, to be changed.
    pub fn at(&mut self, i: usize) -> &mut T
        requires { i < length self.old.items }
        ensures* writes_back { sem 𝓛 (LendsPlace T.row self.entry i result) }
        ensures value { Some result.now ≡ at_place self.old.items (i + 1) }
    {
        &mut self.items[i]
    }

    /// Takes out the one of this number. Those behind it move up until one is put back.
    pub fn lift(&mut self, number: u8) -> Option<T>
        ensures some { IfSome result (IsLifted number self.old self.new) }
        ensures none { IfNone result (at_place self.old.items number ≡ None) }
        ensures same { IfNone result (self.new ≡ self.old) }
    {
        match index(number, self.items.len()) {
            Some(i) => Some(self.items.remove(i)),
            None => None,
        }
    }

    /// Puts one in at the number from which one was taken.
    pub fn put(&mut self, number: u8, item: T)
        requires number { (1 ≤ number) × (number ≤ length self.old.items + 1) }
        requires room { 0 < self.old.room }
        ensures { self.new.items ≡ insert self.old.items (number - 1) item }
    {
        match self.items.insert(number as usize - 1, item) {
            Ok(()) => {}
            Err(_) => unreachable!(),
        }
    }
}
