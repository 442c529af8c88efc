//! The disks of a cell's nodes go back.

ghost use Rattle.std.specs.Prelude.{◌≡◌, ◌≤◌, ◌<◌, ◌+◌, ◌++◌, ◌∷◌, ◌^◌, [], length};
ghost use Rattle.std.specs.Vec.{vec_capacity};
ghost use Rattle.std.specs.Vec.Iter.{into_iter_items};
ghost use Rattle.afs_cell.specs.FirstSeats.{AreKeptSeats, IsKeptSeat, IsLocKeptSeat};
ghost use Rattle.afs_cell.specs.Lends.{lent_from};
ghost use Rattle.afs_host.specs.LocSeated.{loc_seat_disk};
ghost use Rattle.afs_serverhost.specs.Seated.{seat_disk};

use afs_disk::{Disk, Lent};
use afs_host::{DatabaseSeat, Seat};
use afs_serverhost::ServerSeat;
use std::vec::IntoIter;

/// The disk of a server.
fn disk_in<D: Disk>(seat: ServerSeat<D>) -> D
    ensures value { result ≡ seat_disk seat }
    ensures kept { IsKeptSeat D.seen D.may_leave D.limit seat }
{
    match seat {
        Seat::Up(running) => running.into_disk(),
        Seat::Down(resting) => resting.into_disk(),
    }
}

/// The disk of the location database.
pub fn database_disk<D: Disk>(seat: DatabaseSeat<D>) -> D
    ensures value { result ≡ loc_seat_disk seat }
    ensures kept { IsLocKeptSeat D.seen D.may_leave D.limit seat }
{
    match seat {
        Seat::Up(running) => running.into_disk(),
        Seat::Down(resting) => resting.into_disk(),
    }
}

/// A disk goes back, for which there is room.
pub fn give<D: Disk>(back: &mut Vec<Lent<D>>, node: u8, disk: D)
    requires room { length back.old.items < vec_capacity back.old }
    ensures items { back.new.items ≡ back.old.items ++ record { node = node; disk = disk } ∷ [] }
    ensures room { vec_capacity back.old ≤ vec_capacity back.new }
{
    match back.push(Lent { node, disk }) {
        Ok(()) => {}
        Err(_) => unreachable!(),
    }
}

/// The disks of these servers go back, in order of number, into room that is there.
pub fn give_back<D: Disk>(seats: Vec<ServerSeat<D>>, back: &mut Vec<Lent<D>>)
    requires room { length back.old.items + length seats.items ≤ vec_capacity back.old }
    requires few { length seats.items < 2 ^ 8 }
    ensures items { back.new.items ≡ back.old.items ++ lent_from 1 seats.items }
    ensures room { vec_capacity back.old ≤ vec_capacity back.new }
    ensures kept { AreKeptSeats D.seen D.may_leave D.limit seats.items }
{
    let mut node = 0;
    let mut seats = seats.into_iter();
    while let Some(seat) = seats.next() {
        node += 1;
        give(back, node, disk_in(seat));
    }
    // A loop that could let a server go would be proved for all of its parts.
    seats.destroy_empty();
}

/// These disks go back, in order, into room that is there.
pub fn give_rest<D: Disk + Drop>(disks: IntoIter<Lent<D>>, back: &mut Vec<Lent<D>>)
    requires room { length back.old.items + length (into_iter_items disks) ≤ vec_capacity back.old }
    ensures items { back.new.items ≡ back.old.items ++ into_iter_items disks }
    ensures room { vec_capacity back.old ≤ vec_capacity back.new }
{
    for lent in disks {
        let Lent { node, disk } = lent;
        give(back, node, disk);
    }
}
