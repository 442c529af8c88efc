//! A file server in memory.

ghost use Rattle.std.specs.Borrow.{sem};
ghost use Rattle.std.specs.Prelude.{◌≡◌, ◌≤◌, IfOk};
ghost use Rattle.afs_server.specs.Seen.{first_memory, callbacks_of};

use afs_callbacks::Callbacks;
use afs_num::types::Mem;
use afs_promise::Promises;
use afs_server_parts::callers::Callers;
use std::alloc::Global;
use std::marker::Model;

/// A file server of the cell, without what its disk keeps: its callers with its replies to them; what it promised, and the
/// breaks that it owes; the nodes that it calls, with the calls that they haven't answered; and replies that wait for breaks.
pub struct FileServer {
    pub(crate) alloc: Global,
    pub(crate) callers: Callers,
    pub(crate) callbacks: Callbacks,
}

/// It ends by a drop of its own: what holds a server has one drop to prove where it ends.
impl Drop for FileServer {
    fn drop(self) {
        let FileServer {
            alloc: _,
            callers: _,
            callbacks,
        } = self;
        drop(callbacks);
    }
}

impl Model for FileServer {
    ghost use Rattle.afs_server.specs.Seen.{Memory};

    ghost Value = { Memory };

    ghost view = { λ s. record { boot = s.callers.boot; seats = s.callers.seats; lists = s.callbacks.lists; callees = s.callbacks.callees; held = s.callbacks.held } };
}

impl FileServer {
    ghost use Rattle.afs_server.specs.Lending.{LendsCallbacks};

    /// A file server at set-up, in a cell of so many clients: it has no callers, promised nothing and owes nothing.
    pub fn new(alloc: Global, clients: u8) -> Mem<FileServer>
        requires { clients ≤ 16 }
        ensures { IfOk result (λ s. s ≡ first_memory) }
    {
        let callbacks = Callbacks::new(alloc, clients)?;
        Ok(FileServer {
            alloc,
            callers: Callers::new(alloc, 1),
            callbacks,
        })
    }

    /// Its callbacks. It takes no memory.
    pub(crate) fn callbacks(&self) -> &Callbacks
        ensures { result.now ≡ callbacks_of self.now }
    {
        &self.callbacks
    }

    /// Its callbacks, which the volume server beside it shares. It takes no memory.
    pub fn callbacks_mut(&mut self) -> &mut Callbacks
        ensures* writes_back { sem 𝓛 (LendsCallbacks self.entry result) }
        ensures value { result.now ≡ callbacks_of self.old }
    {
        &mut self.callbacks
    }

    /// What it promised, and the breaks that it owes. It takes no memory.
    pub fn promises(&self) -> &Promises
        ensures { result.now ≡ self.now.lists }
    {
        self.callbacks.promises()
    }
}
