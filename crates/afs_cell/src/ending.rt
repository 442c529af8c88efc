//! The end of a cell's run: its disks, and what they keep.

ghost use Rattle.afs_lending.specs.Lending.{AreLent};
ghost use Rattle.std.specs.Prelude.{◌≡◌, ◌≤◌, ◌+◌, [], false, IfErr, IfOk};
ghost use Rattle.std.specs.Vec.{vec_capacity};
ghost use Rattle.afs_final.specs.Reading.{AreFound};
ghost use Rattle.afs_cell.specs.Lends.{disks_of, lent_from};
ghost use Rattle.afs_cell.specs.Since.{IsWorldSince, StandsSince};
ghost use Rattle.afs_host.specs.LocSeated.{loc_seat_disk};

use crate::disks::{database_disk, give, give_back};
use crate::reading::left_of;
use crate::seating::Rooms;
use crate::world::World;
use afs_disk::{Disk, Disks};
use afs_final::Left;
use afs_host::DatabaseSeat;
use afs_volstore::VolStore;
use std::alloc::Global;

impl<'a, D: Disk + Drop> World<'a, D> {
    /// Where it takes its memory from.
    fn alloc(&self) -> Global {
        self.alloc
    }

    /// Its database, its servers, and room for their disks to go back.
    fn into_rooms(self) -> (DatabaseSeat<D>, Rooms<D>)
        ensures database { result.0 ≡ self.entry.database }
        ensures seats { result.1.seats.items ≡ self.entry.servers }
        ensures none { result.1.back.items ≡ [] }
        ensures room { self.entry.script.servers + 1 ≤ vec_capacity result.1.back }
    {
        let World {
            alloc: _,
            script: _,
            database,
            servers,
            clients: _,
            admins: _,
            wire: _,
            history: _,
            gone: _,
            clock: _,
            is_lost: _,
            back,
        } = self;
        let seats = servers.into_vec();
        (database, Rooms { seats, back })
    }

    /// The disks of the database and of the servers, in order of number. It takes no memory.
    pub fn end(self) -> Disks<D>
        requires world { IsWorldSince D.seen D.may_leave D.faults D.limit self }
        ensures disks { result ≡ disks_of self.entry }
        ensures lent { AreLent D.limit self.entry.script.capacity 0 result }
        ensures standing { StandsSince D.seen D.may_leave D.limit self.entry result }
    {
        let (database, rooms) = self.into_rooms();
        let Rooms { seats, mut back } = rooms;
        give(&mut back, 0, database_disk(database));
        give_back(seats, &mut back);
        Disks::from_vec(back)
    }

    /// The disk of the database, and what the disks of the servers keep, in order of number: each of these is read. Where there is no
    /// memory for so many, all come back.
    pub fn read_at_end(self) -> Result<(D, Vec<Left<VolStore<D>, D>>), Disks<D>>
        requires world { IsWorldSince D.seen D.may_leave D.faults D.limit self }
        requires going { self.is_lost ≡ false }
        ensures database { IfOk result (λ r. r.0 ≡ loc_seat_disk self.entry.database) }
        ensures found { IfOk result (λ r. AreFound D.seen D.faults D.limit (lent_from 1 self.entry.servers) r.1.items) }
        ensures back { IfErr result (λ disks. disks ≡ disks_of self.entry) }
        ensures standing { StandsSince D.seen D.may_leave D.limit self.entry (disks_of self.entry) }
    {
        let alloc = self.alloc();
        let (database, rooms) = self.into_rooms();
        let Rooms { seats, mut back } = rooms;
        let disk = database_disk(database);
        match left_of(alloc, seats) {
            Ok(left) => Ok((disk, left)),
            Err(seats) => {
                give(&mut back, 0, disk);
                give_back(seats, &mut back);
                Err(Disks::from_vec(back))
            }
        }
    }
}
