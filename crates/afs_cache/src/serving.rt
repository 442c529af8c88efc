//! The calls of servers: they break promises, and ask whether the client is there.

ghost use Rattle.std.specs.Prelude.{◌≡◌, ◌<◌, ◌||◌, [], ◌∷◌, false, map, IfOk, OnErr, OnOk, if◌then◌else◌, is_some};
ghost use Rattle.afs_call.specs.Admitting.{means};
ghost use Rattle.spec_model.specs.Calls.{admitted, call_seated, runs};
ghost use Rattle.spec_model.specs.FsRows.{call_number};
ghost use Rattle.spec_model.specs.Heads.{is_zero, IsSoundHead};
ghost use Rattle.spec_model.specs.Messages.{HasSpelling, IsSoundReceived};
ghost use Rattle.spec_rows.specs.ClientRow.{breaks, drop_line, guest_row, hears, is_waiting, names_act, replies_step, takes_in, told_step, without_fids};
ghost use Rattle.spec_rows.specs.ClientRow.{reply_carried as done_by};
ghost use Rattle.spec_rows.specs.ServerRow.{bad_fields, boot_told, not_served, replied, seat_for};
ghost use Rattle.spec_shape.specs.Tables.{is_among};
ghost use Rattle.spec_model.specs.CellRows.{client_calls};
ghost use Rattle.afs_entries.specs.Cached.{left, unlisted};
ghost use Rattle.spec_copyrows.specs.CopyRow.{copy_row};
ghost use Rattle.spec_copyrows.specs.Sites.{with_client};
ghost use Rattle.afs_cache.specs.Managing.{number_limit, Takes, TakesCopy, TakesStill};
ghost use Rattle.afs_cache.specs.Serving.{admits_asking, IsSoundAsking, runs_asking, takes_asking};

use crate::node::{CLIENT_CALLS, CacheManager};
use afs_asking::{is_spoiled_by_all, names_call};
use afs_call::Admit;
use afs_calling::messages::{boot_told, outs_with, replied};
use afs_entries::Drops;
use afs_message::spelled::SpelledMessage;
use afs_num::calls::{FsCall, FsReply};
use afs_num::messages::{Call, Carried, Received, Reply};
use afs_num::sequences::Sequence;
use afs_num::types::{Code, Fid, Head, Mem, Node};
use spec_history::lines::{Line, Lines, Outs};

/// No such call is served here.
const NOT_SERVED: Code = Code(-455);

/// The fields of the call can't be read.
const BAD_FIELDS: Code = Code(-453);

/// What a server asks: a call, or one that is refused with this code.
#[derive(Drop)]
enum Asking {
    Call(Call),
    Refused(Code),
}

/// What a call is refused with whose fields can't be read: its opcode may be none that is served.
fn unreadable(head: &Head) -> Code
    ensures { result.0 ≡ (if is_among client_calls head.now.opcode then bad_fields else not_served) }
{
    if CLIENT_CALLS.contains(&head.opcode) {
        BAD_FIELDS
    } else {
        NOT_SERVED
    }
}

/// The reply that a call was done.
fn done(reply: FsReply) -> Carried
    ensures { result ≡ done_by reply }
{
    Carried::Reply {
        reply: Reply::File(reply),
    }
}

impl CacheManager {
    /// A message is sent, and nothing else is done.
    fn tell(&self, message: SpelledMessage) -> Mem<Outs>
        ensures { TakesStill (λ place. told_step self.now.state.client place (message ∷ [])) self.now self.now result }
    {
        outs_with(self.alloc, Sequence::new(self.alloc), message)
    }

    /// A kept reply is sent again.
    fn tell_again(&self, reply: &SpelledMessage) -> Mem<Outs>
        ensures { TakesStill (λ place. told_step self.now.state.client place (reply.now ∷ [])) self.now self.now result }
    {
        let reply = reply.copy(self.alloc)?;
        self.tell(reply)
    }

    /// A reply is kept for its caller.
    fn keep(&mut self, head: &Head, reply: SpelledMessage) -> Mem<()>
        requires runs { admitted self.old.state.client.epoch self.old.state.client.seats head.now ≡ runs }
        ensures ok { OnOk result (self.new ≡ record self.old { state = with_client self.old.state (record self.old.state.client { seats = call_seated (seat_for head.now reply) self.old.state.client.seats }) }) }
        ensures err { OnErr result (self.new ≡ self.old) }
    {
        self.callers.keep(head, reply)?;
        Ok(())
    }

    /// A server's call is answered behind these lines, and the reply is kept.
    fn reply(&mut self, head: &Head, lines: Lines, carried: Carried) -> Mem<Outs>
        requires runs { admitted self.old.state.client.epoch self.old.state.client.seats head.now ≡ runs }
        requires spelling { HasSpelling (replied self.old.state.client.epoch head.now carried) }
        ensures { TakesStill (λ place. replies_step self.old.state.client place head.now lines carried) self.old self.new result }
    {
        let reply = replied(self.callers.boot(), head, carried);
        let reply = SpelledMessage::from_message(self.alloc, reply)?;
        let outs = outs_with(self.alloc, lines, reply.copy(self.alloc)?)?;
        self.keep(head, reply)?;
        Ok(outs)
    }

    /// The entries of these fids go, and the reply to the call that waits is spoiled, if so.
    fn lose(&mut self, fids: &[Fid], is_spoiled: bool)
        ensures { self.new ≡ record self.old { state = with_client self.old.state (record self.old.state.client { cache = unlisted fids.now self.old.state.client.cache; spoiled = is_spoiled || self.old.state.client.spoiled }) } }
    {
        self.cache.drop_all(fids);
        self.spoiled = is_spoiled || self.spoiled;
    }

    /// A server's call is answered, and nothing else is told.
    fn reply_alone(&mut self, head: &Head, carried: Carried) -> Mem<Outs>
        requires runs { admitted self.old.state.client.epoch self.old.state.client.seats head.now ≡ runs }
        requires spelling { HasSpelling (replied self.old.state.client.epoch head.now carried) }
        ensures { TakesStill (λ place. replies_step self.old.state.client place head.now [] carried) self.old self.new result }
    {
        let lines = Sequence::new(self.alloc);
        self.reply(head, lines, carried)
    }

    fn refuse_call(&mut self, head: &Head, code: Code) -> Mem<Outs>
        requires runs { admitted self.old.state.client.epoch self.old.state.client.seats head.now ≡ runs }
        requires head { IsSoundHead head.now }
        requires code { is_zero code.0 ≡ false }
        ensures { TakesStill (λ place. replies_step self.old.state.client place head.now [] (Carried.Refusal code)) self.old self.new result }
    {
        self.reply_alone(head, Carried::Refusal { code })
    }

    /// Whether the reply of the call that waits is spoiled by a break on these fids.
    fn is_named(&self, fids: &[Fid]) -> bool
        ensures { result ≡ names_act self.now.state.client fids.now self.now.state.client.running }
    {
        match &self.asked {
            Some(asked) => names_call(fids, asked.file_call()),
            None => false,
        }
    }

    /// What is told of a break on these fids.
    fn lines_dropped(&self, fids: &[Fid]) -> Mem<Lines>
        ensures { IfOk result (λ ls. ls ≡ map (drop_line self.now.node) fids.now) }
    {
        let mut lines = Sequence::new(self.alloc);
        self.tell_dropped(fids, &mut lines)?;
        Ok(lines)
    }

    /// A break of the promises on these fids: their entries go, and a reply that names one of them is spoiled.
    fn break_fids(&mut self, head: &Head, fids: &[Fid]) -> Mem<Outs>
        requires runs { admitted self.old.state.client.epoch self.old.state.client.seats head.now ≡ runs }
        requires head { IsSoundHead head.now }
        requires opcode { head.now.opcode ≡ 204 }
        ensures { TakesStill (λ place. replies_step (without_fids self.old.state.client fids.now) place head.now (map (drop_line self.old.node) fids.now) (done_by FsReply.CallBack)) self.old self.new result }
    {
        let lines = self.lines_dropped(fids)?;
        let is_named = self.is_named(fids);
        let outs = self.reply(head, lines, done(FsReply::CallBack))?;
        self.lose(fids, is_named);
        Ok(outs)
    }

    /// Whether a reply of this server is awaited that a break of all its promises spoils.
    fn is_waiting(&self, head: &Head) -> bool
        ensures { result ≡ is_waiting self.now.state.client head.now.from self.now.state.client.running }
    {
        match &self.asked {
            Some(asked) => {
                self.calls.callee.is(&head.from) && is_spoiled_by_all(asked.file_call())
            }
            None => false,
        }
    }

    /// What is told of a break of all that a server promised.
    fn line_dropped(&self, server: Node) -> Mem<Lines>
        ensures { IfOk result (λ ls. ls ≡ Line.DropAll self.now.node server ∷ []) }
    {
        let mut lines = Sequence::new(self.alloc);
        lines.push(Line::DropAll {
            client: self.node,
            server,
        })?;
        Ok(lines)
    }

    /// The fids of the entries that a server promised.
    fn promised_by(&self, server: Node) -> Mem<Vec<Fid>>
        ensures { IfOk result (λ fs. unlisted fs.items self.now.state.client.cache ≡ left (Drops.Server server) self.now.state.client.cache) }
    {
        self.cache.listed(self.alloc, &Drops::Server(server))
    }

    /// A break of all that the server promised.
    fn break_all(&mut self, head: &Head) -> Mem<Outs>
        requires runs { admitted self.old.state.client.epoch self.old.state.client.seats head.now ≡ runs }
        requires head { IsSoundHead head.now }
        requires opcode { head.now.opcode ≡ 205 }
        ensures { TakesStill (λ place. breaks self.old.node self.old.state.client place head.now FsCall.InitCallBackState) self.old self.new result }
    {
        let lines = self.line_dropped(head.from)?;
        let fids = self.promised_by(head.from)?;
        let is_waiting = self.is_waiting(head);
        let outs = self.reply(head, lines, done(FsReply::InitCallBackState))?;
        self.lose(&fids, is_waiting);
        Ok(outs)
    }

    /// A call of a server that runs.
    fn serve(&mut self, head: &Head, call: FsCall) -> Mem<Outs>
        requires runs { admitted self.old.state.client.epoch self.old.state.client.seats head.now ≡ runs }
        requires head { IsSoundHead head.now }
        requires opcode { head.now.opcode ≡ call_number call }
        ensures { TakesStill (λ place. breaks self.old.node self.old.state.client place head.now call) self.old self.new result }
    {
        match call {
            FsCall::CallBack { fids, .. } => self.break_fids(head, fids.as_slice()),
            FsCall::InitCallBackState => self.break_all(head),
            FsCall::Probe => self.reply_alone(head, done(FsReply::Probe)),
            _ => self.refuse_call(head, NOT_SERVED),
        }
    }

    /// A call that runs: those of other interfaces aren't served.
    fn run_call(&mut self, head: &Head, call: Call) -> Mem<Outs>
        requires runs { admitted self.old.state.client.epoch self.old.state.client.seats head.now ≡ runs }
        requires head { IsSoundHead head.now }
        requires asking { IsSoundAsking head.now.opcode (Asking.Call call) }
        ensures { TakesStill (λ place. runs_asking self.old.node self.old.state.client place head.now (Asking.Call call)) self.old self.new result }
    {
        match call.into_file() {
            Some(call) => self.serve(head, call),
            None => self.refuse_call(head, NOT_SERVED),
        }
    }

    /// What a server asks runs.
    fn run(&mut self, head: &Head, asking: Asking) -> Mem<Outs>
        requires runs { admitted self.old.state.client.epoch self.old.state.client.seats head.now ≡ runs }
        requires head { IsSoundHead head.now }
        requires asking { IsSoundAsking head.now.opcode asking }
        ensures { TakesStill (λ place. runs_asking self.old.node self.old.state.client place head.now asking) self.old self.new result }
    {
        match asking {
            Asking::Call(call) => self.run_call(head, call),
            Asking::Refused(code) => self.refuse_call(head, code),
        }
    }

    /// What becomes of a call with this header.
    fn admit(&self, head: &Head) -> Admit<'_, SpelledMessage>
        ensures { means result ≡ admitted self.now.state.client.epoch self.now.state.client.seats head.now }
    {
        self.callers.admit(head)
    }

    /// The caller is told this client's boot number.
    fn tell_boot(&self, head: &Head) -> Mem<Outs>
        requires { IsSoundHead head.now }
        ensures { TakesStill (λ place. told_step self.now.state.client place (boot_told self.now.state.client.epoch head.now ∷ [])) self.now self.now result }
    {
        let notice = boot_told(self.callers.boot(), head);
        let notice = SpelledMessage::from_message(self.alloc, notice)?;
        self.tell(notice)
    }

    /// A call. A call in progress or older than its caller's last one gets no answer.
    fn called(&mut self, head: &Head, asking: Asking) -> Mem<Outs>
        requires head { IsSoundHead head.now }
        requires asking { IsSoundAsking head.now.opcode asking }
        ensures { TakesStill (λ place. admits_asking self.old.node self.old.state.client place head.now asking (admitted self.old.state.client.epoch self.old.state.client.seats head.now)) self.old self.new result }
    {
        match self.admit(head) {
            Admit::Run => self.run(head, asking),
            Admit::Kept(reply) => self.tell_again(reply),
            Admit::InProgress | Admit::Old => self.ignore(),
            Admit::WrongBoot(_) => self.tell_boot(head),
        }
    }

    /// What a server asks, if it is asked of this client.
    fn take_asking(&mut self, head: &Head, asking: Asking) -> Mem<Outs>
        requires head { IsSoundHead head.now }
        requires asking { IsSoundAsking head.now.opcode asking }
        ensures { TakesStill (λ place. takes_asking self.old.node self.old.state.client place head.now asking) self.old self.new result }
    {
        if head.to.is(&self.node) {
            self.called(head, asking)
        } else {
            self.ignore()
        }
    }

    /// What a message to this client carries.
    fn take_carried(&mut self, head: &Head, carried: Carried, now: u32) -> Mem<Outs>
        requires sound { HasSpelling (record { head = head.now; carried = carried }) }
        requires last { self.old.state.client.last < number_limit }
        ensures { Takes (λ place. hears self.old.node self.old.state.client now place head.now carried) self.old self.new result }
    {
        match carried {
            Carried::Call { call, .. } => self.called(head, Asking::Call(call)),
            Carried::Refusal { .. } | Carried::Reply { .. } | Carried::Notice => {
                self.hear(head, carried, now)
            }
        }
    }

    /// What a message carries, if it is to this client.
    fn take_whole(&mut self, head: &Head, carried: Carried, now: u32) -> Mem<Outs>
        requires sound { HasSpelling (record { head = head.now; carried = carried }) }
        requires last { self.old.state.client.last < number_limit }
        ensures { Takes (λ place. takes_in self.old.node self.old.state.client now place (Received.Whole (record { head = head.now; carried = carried }))) self.old self.new result }
    {
        if head.to.is(&self.node) {
            self.take_carried(head, carried, now)
        } else {
            self.ignore()
        }
    }

    /// A message: while an act waits for the location database, what isn't its answer comes as to a client without an act.
    pub(crate) fn take_guest(&mut self, head: &Head, carried: Carried, now: u32) -> Mem<Outs>
        requires sound { HasSpelling (record { head = head.now; carried = carried }) }
        requires last { self.old.state.client.last < number_limit }
        ensures { Takes (λ place. guest_row self.old.node self.old.state.client now place (Received.Whole (record { head = head.now; carried = carried }))) self.old self.new result }
    {
        let sought = self.is_sought(head, &carried);
        if sought {
            self.hear_database(head, carried, now)
        } else {
            self.take_whole(head, carried, now)
        }
    }

    /// Whether an act waits for the location database.
    fn seeks(&self) -> bool
        ensures { result ≡ is_some self.now.state.client.seeking }
    {
        self.seeking.is_some()
    }

    /// A message that was read.
    fn take_message(&mut self, head: &Head, carried: Carried, now: u32) -> Mem<Outs>
        requires sound { HasSpelling (record { head = head.now; carried = carried }) }
        requires last { self.old.state.client.last < number_limit }
        ensures { TakesCopy (λ place. copy_row self.old.node self.old.state now place (Received.Whole (record { head = head.now; carried = carried }))) self.old self.new result }
    {
        let seeks = self.seeks();
        if seeks {
            self.take_seeking(head, carried, now)
        } else {
            self.take_running(head, carried, now)
        }
    }

    /// What was received. A message to another node does nothing.
    pub(crate) fn take_in(&mut self, received: Received, now: u32) -> Mem<Outs>
        requires sound { IsSoundReceived received }
        requires last { self.old.state.client.last < number_limit }
        ensures { TakesCopy (λ place. copy_row self.old.node self.old.state now place received) self.old self.new result }
    {
        match received {
            Received::Nothing => self.ignore(),
            Received::Unserved { head } => self.take_asking(&head, Asking::Refused(NOT_SERVED)),
            Received::Unreadable { head } => {
                let code = unreadable(&head);
                self.take_asking(&head, Asking::Refused(code))
            }
            Received::Whole { message } => {
                let head = message.head;
                self.take_message(&head, message.carried, now)
            }
        }
    }
}
