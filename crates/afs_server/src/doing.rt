//! What is decided on a call is done.

ghost use Rattle.std.specs.Prelude.{◌≡◌, ◌≤◌};
ghost use Rattle.spec_model.specs.Calls.{call_seat, paired};
ghost use Rattle.spec_model.specs.Heads.{IsSoundHead};
ghost use Rattle.spec_rows.specs.ServerRow.{Decision};
ghost use Rattle.afs_decisions.specs.Deciding.{CanBeTold, Decides, LeavesDisk, Runs};
ghost use Rattle.afs_server.specs.Handling.{server_seen, turn_then, Does, ServesOver};

use crate::server::FileServer;
use afs_decisions::decided::Decided;
use afs_disk::Disk;
use afs_num::types::{Head, Mem};
use afs_volstore::VolStore;
use spec_history::lines::Outs;

impl FileServer {
    /// What is decided on the call of this header is done, where that leaves the disk as it is.
    pub(crate) fn answer<D: Disk>(
        &mut self,
        store: &mut VolStore<D>,
        head: &Head,
        decided: Decided,
        now: u32,
    ) -> Mem<Outs>
        requires serves { ServesOver self.old store.old }
        requires head { IsSoundHead head.now }
        requires told { CanBeTold head.now.opcode decided }
        requires runs { Runs decided (paired head.now.epoch head.now.number (call_seat head.now.from self.old.seats)) }
        requires leaves { LeavesDisk decided }
        requires now { now ≤ 1000000000 }
        ensures { (d : Decision) → Decides (server_seen self.old store.old) now head.now d decided →
            Does now d (turn_then self.old store.old now d) self.old self.new store.old store.new result }
    {
        match decided {
            Decided::Drops => { self.pass(store, now) }
            Decided::TellsBoot => { self.tell_boot(store, head, now) }
            Decided::Repeats(reply) => { self.repeat(store, reply, now) }
            Decided::Refuses(code) => { self.refuse(store, head, code, now) }
            Decided::Shows(reply, grants) => {
                self.show(store, head, reply, grants.as_slice(), now)
            }
            Decided::GivesUp(fids) => { self.give_up(store, head, fids.as_slice(), now) }
            Decided::Changes(..) => unreachable!(),
        }
    }
}
