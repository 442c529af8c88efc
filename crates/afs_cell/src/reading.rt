//! The disks of a cell's servers are read at the end of its run.

ghost use Rattle.std.specs.Prelude.{◌≡◌, ◌≤◌, ◌<◌, ◌^◌, ◌++◌, ◌∷◌, [], length, vec_len, vec_capacity, IfErr, IfOk, OnOk};
ghost use Rattle.afs_final.specs.Reading.{AreFound, IsRead};
ghost use Rattle.afs_cell.specs.FirstSeats.{AreKeptSeats, IsKeptSeat};
ghost use Rattle.afs_cell.specs.Readable.{AreReadable, IsReadable};
ghost use Rattle.afs_cell.specs.Lends.{lent_from};
ghost use Rattle.afs_serverhost.specs.Seated.{seat_disk};

use afs_disk::Disk;
use afs_final::{Left, read_disk, read_store};
use afs_host::Seat;
use afs_serverhost::ServerSeat;
use afs_volstore::VolStore;
use std::alloc::Global;

/// What the disk of the server of this number keeps.
fn left_at<D: Disk>(alloc: Global, node: u32, seat: ServerSeat<D>) -> Left<VolStore<D>, D>
    requires { IsReadable D.limit node seat }
    ensures read { IsRead D.seen D.faults D.limit (seat_disk seat) result }
    ensures kept { IsKeptSeat D.seen D.may_leave D.limit seat }
{
    match seat {
        Seat::Up(running) => read_store(running.into_store()),
        Seat::Down(resting) => read_disk(alloc, node, resting.into_disk()),
    }
}

/// One more, for which there is a place.
fn put_last<T>(all: &mut Vec<T>, one: T)
    requires { vec_len all.old < vec_capacity all.old }
    ensures items { all.new.items ≡ all.old.items ++ one ∷ [] }
    ensures room { vec_capacity all.old ≤ vec_capacity all.new }
{
    match all.push(one) {
        Ok(()) => {}
        Err(_) => unreachable!(),
    }
}

/// What the disks of these servers keep, in order of number. Where there is no memory for so many, they come back.
pub fn left_of<D: Disk>(
    alloc: Global,
    seats: Vec<ServerSeat<D>>,
) -> Result<Vec<Left<VolStore<D>, D>>, Vec<ServerSeat<D>>>
    requires ready { AreReadable D.limit 1 seats.items }
    requires few { length seats.items < 2 ^ 31 }
    ensures found { IfOk result (λ left. AreFound D.seen D.faults D.limit (lent_from 1 seats.items) left.items) }
    ensures kept { OnOk result (AreKeptSeats D.seen D.may_leave D.limit seats.items) }
    ensures back { IfErr result (λ back. back.items ≡ seats.items) }
{
    let Ok(mut left) = Vec::with_capacity(alloc, seats.len()) else {
        return Err(seats);
    };
    let mut node = 0;
    let mut seats = seats.into_iter();
    while let Some(seat) = seats.next() {
        node += 1;
        put_last(&mut left, left_at(alloc, node, seat));
    }
    // A loop that could let a server go would be proved for all of its parts.
    seats.destroy_empty();
    Ok(left)
}
