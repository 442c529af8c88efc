//! What a server decides on a call.

ghost use Rattle.std.specs.Prelude.{◌≡◌, false, IfOk, Some, None};
ghost use Rattle.spec_ideal.specs.Tables.{get};
ghost use Rattle.spec_model.specs.Calls.{admitted};
ghost use Rattle.spec_model.specs.Messages.{IsSoundCarried};
ghost use Rattle.spec_ideal.specs.Operations.{the_user, volume_called};
ghost use Rattle.afs_call.specs.Admitting.{means};
ghost use Rattle.spec_rows.specs.ServerRow.{code_of_unreadable, is_client, serves};
ghost use Rattle.spec_volrows.specs.FileRow.{file_admits, file_called, file_carried, file_in, file_received, file_runs, file_serves, file_volume};
ghost use Rattle.afs_decisions.specs.Deciding.{is_on_volume, IsByClient, CanBeDone, IsDecision, IsCallUnder};
ghost use Rattle.afs_server_parts.specs.Heard.{IsUnder};
ghost use Rattle.afs_server.specs.Handling.{holds_seen, server_seen, ServesOver};

use crate::closing::{closed_code, missing_code};
use crate::server::FileServer;
use afs_call::Admit;
use afs_callees::few::Few;
use afs_decisions::decided::Decided;
use afs_decisions::deciding::{
    NOT_SERVED, code_of_unreadable, copy_fids, in_found, is_client, is_on_volume, volume_called,
};
use afs_disk::Disk;
use afs_message::spelled::SpelledMessage;
use afs_num::calls::{FsCall, FsReply};
use afs_num::messages::{Call, Carried, Received};
use afs_num::types::{Head, Mem};
use afs_reads::read;
use afs_volstore::VolStore;

impl FileServer {
    /// What is decided on a call on the volume of this number.
    fn in_volume<D: Disk>(
        &self,
        store: &VolStore<D>,
        head: &Head,
        id: u32,
        user: &[u8],
        call: &FsCall,
        now: u32,
    ) -> Mem<Decided>
        requires on { volume_called call.now ≡ Some id }
        requires call { IsCallUnder head.now call.now }
        ensures { IfOk result (IsDecision (server_seen self.now store.now) now head.now (file_in (holds_seen store.now) (server_seen self.now store.now) now head.now (the_user user.now) call.now id (get id store.now.durable.volumes))) }
    {
        match store.volume(id) {
            None => Ok(Decided::Refuses(missing_code(store, id))),
            Some(volume) => match closed_code(store, volume) {
                Some(code) => Ok(Decided::Refuses(code)),
                None => in_found(self.alloc, head, volume, user, call, now),
            },
        }
    }

    /// What is decided on a call that one volume serves, or none.
    fn with_volume<D: Disk>(
        &self,
        store: &VolStore<D>,
        head: &Head,
        user: &[u8],
        call: &FsCall,
        now: u32,
    ) -> Mem<Decided>
        requires { IsCallUnder head.now call.now }
        ensures { IfOk result (IsDecision (server_seen self.now store.now) now head.now (file_volume (holds_seen store.now) (server_seen self.now store.now) now head.now (the_user user.now) call.now (volume_called call.now))) }
    {
        match volume_called(call) {
            None => Ok(Decided::Refuses(NOT_SERVED)),
            Some(id) => { self.in_volume(store, head, id, user, call, now) }
        }
    }

    /// What is decided on a call that no one volume serves.
    fn serve_else<D: Disk>(
        &self,
        store: &VolStore<D>,
        head: &Head,
        user: &[u8],
        call: &FsCall,
        now: u32,
    ) -> Mem<Decided>
        requires other { is_on_volume call.now ≡ false }
        requires call { IsCallUnder head.now call.now }
        ensures { IfOk result (IsDecision (server_seen self.now store.now) now head.now (file_serves (holds_seen store.now) (server_seen self.now store.now) now head.now user.now call.now)) }
    {
        match call {
            FsCall::GiveUpCallBacks { fids, .. } => {
                Ok(Decided::GivesUp(copy_fids(self.alloc, fids.as_slice())?))
            }
            FsCall::GetTime => {
                let reply = FsReply::GetTime {
                    clock: now,
                    microseconds: 0,
                };
                Ok(Decided::Shows(reply, Few::none(self.alloc)))
            }
            FsCall::BulkStatus { fids } => {
                self.statuses(store, head, user, fids.as_slice(), now)
            }
            _ => unreachable!(),
        }
    }

    /// What is decided on a call that can be read.
    fn serve<D: Disk>(
        &self,
        store: &VolStore<D>,
        head: &Head,
        user: &[u8],
        call: &FsCall,
        now: u32,
    ) -> Mem<Decided>
        requires { IsCallUnder head.now call.now }
        ensures { IfOk result (IsDecision (server_seen self.now store.now) now head.now (file_serves (holds_seen store.now) (server_seen self.now store.now) now head.now user.now call.now)) }
    {
        if is_on_volume(call) {
            self.with_volume(store, head, user, call, now)
        } else {
            self.serve_else(store, head, user, call, now)
        }
    }

    /// What is decided on a message whose header is that of a call.
    fn run_carried<D: Disk>(
        &self,
        store: &VolStore<D>,
        head: &Head,
        carried: &Carried,
        now: u32,
    ) -> Mem<Decided>
        requires sound { IsSoundCarried head.now.half head.now.opcode carried.now }
        ensures { IfOk result (IsDecision (server_seen self.now store.now) now head.now (file_carried (holds_seen store.now) (server_seen self.now store.now) now head.now carried.now)) }
    {
        match carried {
            Carried::Call {
                user,
                call: Call::File(call),
            } => { self.serve(store, head, user.as_slice(), call, now) }
            Carried::Call { .. } => Ok(Decided::Refuses(NOT_SERVED)),
            _ => Ok(Decided::Drops),
        }
    }

    /// What is decided on a call of a client.
    fn run_received<D: Disk>(
        &self,
        store: &VolStore<D>,
        head: &Head,
        received: &Received,
        now: u32,
    ) -> Mem<Decided>
        requires heard { IsUnder head.now received.now }
        ensures { IfOk result (IsDecision (server_seen self.now store.now) now head.now (file_received (holds_seen store.now) (server_seen self.now store.now) now head.now received.now)) }
    {
        match received {
            Received::Nothing => Ok(Decided::Drops),
            Received::Unserved { .. } => Ok(Decided::Refuses(NOT_SERVED)),
            Received::Unreadable { .. } => Ok(Decided::Refuses(code_of_unreadable(head.opcode))),
            Received::Whole { message } => { self.run_carried(store, head, &message.carried, now) }
        }
    }

    /// What is decided on a call that is to run.
    fn run<D: Disk>(
        &self,
        store: &VolStore<D>,
        head: &Head,
        received: &Received,
        now: u32,
    ) -> Mem<Decided>
        requires heard { IsUnder head.now received.now }
        ensures decides { IfOk result (IsDecision (server_seen self.now store.now) now head.now (file_runs (holds_seen store.now) (server_seen self.now store.now) now head.now received.now)) }
        ensures client { IfOk result (IsByClient head.now) }
    {
        if !is_client(&head.from) {
            return Ok(Decided::Refuses(NOT_SERVED));
        }
        self.run_received(store, head, received, now)
    }

    /// What is decided on a call of which this becomes.
    fn as_admitted<D: Disk>(
        &self,
        store: &VolStore<D>,
        head: &Head,
        received: &Received,
        admit: Admit<'_, SpelledMessage>,
        now: u32,
    ) -> Mem<Decided>
        requires heard { IsUnder head.now received.now }
        requires means { means admit ≡ admitted store.now.durable.boot self.now.seats head.now }
        ensures { IfOk result (CanBeDone (server_seen self.now store.now) now head.now (file_admits (holds_seen store.now) (server_seen self.now store.now) now head.now received.now (admitted store.now.durable.boot self.now.seats head.now))) }
    {
        match admit {
            Admit::Run => {
                let decided = self.run(store, head, received, now)?;
                Ok(decided)
            }
            Admit::Kept(reply) => {
                let reply = reply.copy(self.alloc)?;
                Ok(Decided::Repeats(reply))
            }
            Admit::InProgress => Ok(Decided::Drops),
            Admit::Old => Ok(Decided::Drops),
            Admit::WrongBoot(_) => Ok(Decided::TellsBoot),
        }
    }

    /// What is decided on a call with this header.
    pub(crate) fn called<D: Disk>(
        &self,
        store: &VolStore<D>,
        head: &Head,
        received: &Received,
        now: u32,
    ) -> Mem<Decided>
        requires serves { ServesOver self.now store.now }
        requires heard { IsUnder head.now received.now }
        ensures { IfOk result (CanBeDone (server_seen self.now store.now) now head.now (file_called store.now.node (holds_seen store.now) (server_seen self.now store.now) now head.now received.now)) }
    {
        if !head.to.is(&store.node()) {
            return Ok(Decided::Drops);
        }
        self.as_admitted(store, head, received, self.callers.admit(head), now)
    }
}
