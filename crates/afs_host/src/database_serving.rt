//! The location database, which is up, is given a message.

ghost use Rattle.std.specs.Prelude.{◌≡◌, ◌≤◌, ◌↔◌, IsSome};
ghost use Rattle.spec_model.specs.Messages.{received};
ghost use Rattle.afs_host.specs.LocSeats.{loc_disk_of, LocCanRun};
ghost use Rattle.afs_host.specs.LocServing.{loc_disk_served, IsLocHandled, IsLocServed, LocBecomes, LocGoesOnServed, LocKeepsMark, LocRestsServed, MakesLocRow, RunsLocRow};

use crate::running::{CALLS_OF_A_RECORD, Running};
use afs_disk::{Disk, Fuse};
use afs_locdb::LocDb;
use afs_server_parts::faults::NodeFault;
use spec_history::lines::Outs;

impl<D: Disk> Running<(), LocDb<Fuse<D>>> {
    /// The database is given the bytes of a message. Where its disk ended the step, it is to fall.
    pub fn serve(&mut self, bytes: &[u8]) -> Result<Outs, NodeFault>
        requires can_run { LocCanRun self.old }
        ensures served { LocBecomes D.Disk (λ s. IsLocServed D.Disk self.old (received bytes.now) s) self.new result }
        ensures row { LocBecomes D.Disk (λ s. MakesLocRow self.old bytes.now s) self.new result }
        ensures goes_on { LocBecomes D.Disk (λ s. LocGoesOnServed self.old s) self.new result }
        ensures mark { LocBecomes D.Disk (λ s. LocKeepsMark self.old s) self.new result }
        ensures rests { LocBecomes D.Disk (λ s. LocRestsServed D.Disk s) self.new result }
        ensures told { LocBecomes D.Disk (λ s. IsSome (D.seen (loc_disk_served s)) ↔ IsSome (D.seen (loc_disk_of self.old))) self.new result }
        ensures limit { LocBecomes D.Disk (λ s. D.limit (loc_disk_served s) ≡ D.limit (loc_disk_of self.old)) self.new result }
        ensures faults { LocBecomes D.Disk (λ s. D.faults (loc_disk_of self.old) ≤ D.faults (loc_disk_served s)) self.new result }
    {
        self.handle(bytes)
    }

    /// The database is given these bytes. A step that passed lowers what the disk is set to by its device calls.
    fn handle(&mut self, bytes: &[u8]) -> Result<Outs, NodeFault>
        requires can_run { LocCanRun self.old }
        ensures handled { IsLocHandled D.Disk self.old (received bytes.now) self.new result }
        ensures row { RunsLocRow self.old bytes.now self.new result }
        ensures told { IsSome (D.seen (loc_disk_of self.new)) ↔ IsSome (D.seen (loc_disk_of self.old)) }
        ensures limit { D.limit (loc_disk_of self.new) ≡ D.limit (loc_disk_of self.old) }
        ensures faults { D.faults (loc_disk_of self.old) ≤ D.faults (loc_disk_of self.new) }
    {
        let before = self.store.mark().records;
        match self.store.handle(bytes) {
            Ok(outs) => {
                let made = self.store.mark().records.saturating_sub(before);
                self.armed = self.armed.lowered(made as u64 * CALLS_OF_A_RECORD);
                Ok(outs)
            }
            Err(NodeFault::OutOfMemory) => Err(NodeFault::OutOfMemory),
            Err(NodeFault::Down) => Err(NodeFault::Down),
        }
    }
}
