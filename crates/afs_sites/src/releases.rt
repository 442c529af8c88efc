//! The releases that a client has seen.

ghost use Rattle.std.specs.Prelude.{◌≡◌, ◌<◌, [], IfOk, Some, length, slice_get};
ghost use Rattle.spec_ideal.specs.Tables.{get, set, AscendsFrom};
ghost use Rattle.spec_rows.specs.ClientRow.{number_or_none};

use afs_num::types::Mem;
use afs_seats::Seats;
use std::alloc::Global;
use std::marker::Model;

/// The highest release that a client has seen of each read-only volume.
#[derive(Drop)]
pub struct Releases {
    seen: Seats<u32>,
}

impl Model for Releases {
    ghost use Rattle.std.specs.Prelude.{ℕ};
    ghost use Rattle.spec_ideal.specs.Tables.{Table};

    ghost Value = { Table ℕ };

    ghost view = { λ r. r.seen.table };
}

fn nth(seats: &Seats<u32>, place: usize) -> (u32, u32)
    requires { place < length seats.now.table }
    ensures { slice_get seats.now.table place ≡ Some result }
{
    match seats.at(place) {
        Some(item) => (item.0, item.1),
        None => unreachable!(),
    }
}

fn copy_items(alloc: Global, seats: &Seats<u32>) -> Mem<Vec<(u32, u32)>>
    ensures items { IfOk result (λ items. items.items ≡ seats.now.table) }
    ensures ascends { AscendsFrom 0 seats.now.table }
{
    let count = seats.len();
    let mut items = Vec::with_capacity(alloc, count)?;
    for place in 0..count {
        items.push(nth(seats, place))?;
    }
    Ok(items)
}

fn copy_seats(alloc: Global, seats: &Seats<u32>) -> Mem<Seats<u32>>
    ensures { IfOk result (λ copy. copy.table ≡ seats.now.table) }
{
    let items = copy_items(alloc, seats)?;
    Ok(Seats::from_items(items))
}

impl Releases {
    /// It has seen none. That takes no memory.
    pub fn new(alloc: Global) -> Releases
        ensures { result ≡ [] }
    {
        Releases {
            seen: Seats::new(alloc),
        }
    }

    /// The highest of a volume; 0 where it has seen none.
    pub fn get(&self, volume: u32) -> u32
        ensures { result ≡ number_or_none (get volume self.now) }
    {
        match self.seen.get(volume) {
            Some(release) => *release,
            None => 0,
        }
    }

    /// What it has seen once this release of a volume is seen.
    pub fn with(&self, alloc: Global, volume: u32, release: u32) -> Mem<Releases>
        ensures { IfOk result (λ r. r ≡ set volume release self.now) }
    {
        let mut seen = copy_seats(alloc, &self.seen)?;
        seen.put(volume, release)?;
        Ok(Releases { seen })
    }
}
