//! The end of a step: what is left of it in memory.

ghost use Rattle.std.specs.Prelude.{◌≡◌, ◌≤◌, ◌<◌};
ghost use Rattle.spec_breaks.specs.Promises.{expired};

use crate::server::FileServer;
use afs_disk::Disk;
use afs_server_parts::ending::Ended;
use afs_sharing::drawing::draw;
use afs_volstore::VolStore;
use spec_history::lines::Outs;

impl FileServer {
    /// What is left of a step in memory. It takes no memory.
    pub(crate) fn keep<D: Disk>(&mut self, store: &mut VolStore<D>, ended: Ended) -> Outs
        requires { store.old.drawn ≤ ended.last }
        ensures server { self.new ≡ record self.old { callees = ended.callees.items; held = ended.held } }
        ensures store { store.new ≡ record store.old { drawn = ended.last } }
        ensures outs { result ≡ ended.outs }
    {
        let Ended {
            outs,
            last,
            callees,
            held,
        } = ended;
        self.callbacks.keep(callees, held);
        draw(store, last);
        outs
    }

    /// The same, where promises and breaks have ended first whose time has come.
    pub(crate) fn keep_at<D: Disk>(
        &mut self,
        store: &mut VolStore<D>,
        ended: Ended,
        now: u32,
    ) -> Outs
        requires { store.old.drawn ≤ ended.last }
        ensures server { self.new ≡ record self.old { lists = expired now self.old.lists; callees = ended.callees.items; held = ended.held } }
        ensures store { store.new ≡ record store.old { drawn = ended.last } }
        ensures outs { result ≡ ended.outs }
    {
        self.callbacks.expire(now);
        self.keep(store, ended)
    }
}
