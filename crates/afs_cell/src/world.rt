//! The cell: its nodes, the messages under way, and what is told of its run.

ghost use Rattle.std.specs.Prelude.{◌≡◌, ◌≤◌, ◌<◌, ◌+◌, ◌-◌, ◌^◌, ◌↔◌, [], drop, None, Some, Ok, Err, false, true, length, ℕ};
ghost use Rattle.afs_num.specs.declared.types.Node.TheVariants.{Loc, Server};
ghost use Rattle.spec_history.specs.declared.scripts.Event.TheVariants as events;
ghost use Rattle.afs_grammar.specs.CellScripts.{counts_of, FitsEvent};
ghost use Rattle.afs_grammar.specs.Lines.{ticks_of};
ghost use Rattle.afs_schedule.specs.Schedules.{IsInput};
ghost use Rattle.afs_clients.specs.Happening.{IsBegunOrGiven, IsAskedOfAdmin, IsDue, IsDueAtLoc, IsGiven, IsGivenToLoc};
ghost use Rattle.afs_cell.specs.DatabaseHearing.{IsPickedAtLoc};
ghost use Rattle.afs_cell.specs.Happening.{NothingSettles, Settles};
ghost use Rattle.afs_cell.specs.Noting.{given_line, Notes};
ghost use Rattle.afs_cell.specs.Picks.{IsPicked};
ghost use Rattle.afs_cell.specs.Since.{DeliversKept, GoesOnSince, IsSafeSince, IsWorldSince, Keeps, LetsGo, PlaysSince, SteppedSince, StepsSince};
ghost use Rattle.afs_cell.specs.Worlds.{most_history_entries, most_ticks, AllTell, Counts};
ghost use Rattle.afs_cell.specs.declared.faults.WorldFault.TheVariants as faults;
ghost use Rattle.afs_clients.specs.declared.happening.Happened.TheVariants as happened;
ghost use Rattle.afs_clients.specs.declared.happening.DatabaseInput.TheVariants as database;
ghost use Rattle.afs_clients.specs.declared.happening.ServerInput.TheVariants as input;

use crate::faults::WorldFault;
use crate::giving::{database_hears, database_takes, server_hears, server_takes};
use afs_admins::admins::AdminSeat;
use afs_admins::giving::{admin_hears, admin_takes};
use afs_clients::clients::ClientSeat;
use afs_clients::events::{Given, meaning_of};
use afs_clients::giving::{client_hears, client_takes};
use afs_clients::happening::{AdminInput, ClientInput, DatabaseInput, Happened, ServerInput};
use afs_clients::places::Places;
use afs_clients::telling::{one_line, tell};
use afs_disk::{Disk, Lent};
use afs_host::DatabaseSeat;
use afs_num::histories::Actor;
use afs_num::types::{Node, Parcel};
use afs_serverhost::ServerSeat;
use afs_wire::Wire;
use spec_history::lines::{Entry, Line, Outs};
use spec_history::scripts::{Event, Script};
use std::alloc::Global;
use std::marker::Model;

/// The most entries of a history.
const MOST_ENTRIES: u64 = 4_194_304;

/// The line of a message that is given to a node, if there is one.
fn given_line(place: Option<u64>) -> Option<Line>
    ensures { result ≡ given_line place }
{
    match place {
        Some(place) => Some(Line::Given { place }),
        None => None,
    }
}

/// How many entries were let go, and how many messages were sent then.
#[derive(Clone, Copy, Debug)]
pub(crate) struct Gone {
    pub(crate) entries: u64,
    pub(crate) sent: u64,
}

/// The location database of a cell, its servers, its clients and its administrators in order of number, the messages that were sent, the
/// history so far and the clock. The first entries of the history may be let go, and the first messages. Where memory was wanting behind the step of a node, the cell is
/// lost: it tells nothing any more, and its history is that from before the step.
#[derive(Drop)]
pub struct World<'a, D: Disk> {
    pub(crate) alloc: Global,
    pub(crate) script: &'a Script,
    pub(crate) database: DatabaseSeat<D>,
    pub(crate) servers: Places<ServerSeat<D>>,
    pub(crate) clients: Places<ClientSeat<'a>>,
    pub(crate) admins: Places<AdminSeat<'a>>,
    pub(crate) wire: Wire,
    pub(crate) history: Vec<Entry>,
    pub(crate) gone: Gone,
    pub(crate) clock: u32,
    pub(crate) is_lost: bool,
    /// Room for the disks to go back into.
    pub(crate) back: Vec<Lent<D>>,
}

impl<'a, D: Disk> Model for World<'a, D> {
    ghost use Rattle.std.specs.Prelude.{◌≤◌, ◌≡◌, ◌+◌, [], length};
    ghost use Rattle.std.specs.Vec.{vec_capacity};
    ghost use Rattle.afs_cell.specs.Worlds.{LetGo, WorldState};

    ghost Value = { WorldState D };

    ghost view = { λ w. record { script = w.script.now; database = w.database; servers = w.servers.items; clients = w.clients.items; admins = w.admins.items; wire = w.wire.messages; history = w.history.items; gone = record { entries = w.gone.entries; sent = w.gone.sent; messages = w.wire.gone }; clock = w.clock; is_lost = w.is_lost } };

    ghost invariant = { λ w. record { empty : w.back.items ≡ []; room : w.script.now.servers + 1 ≤ vec_capacity w.back; behind : w.wire.gone ≤ w.gone.sent; ahead : w.gone.sent ≤ w.wire.gone + length w.wire.messages } };
}

impl<'a, D: Disk> World<'a, D> {
    // ---- entries

    /// One entry more, of one line; no message is sent.
    fn note(&mut self, actor: Actor, line: Line) -> Result<(), WorldFault>
        ensures { Notes actor line self.old self.new result }
    {
        let lines = one_line(self.alloc, line)?;
        self.history.push(Entry {
            actor,
            lines,
            sent: 0,
        })?;
        Ok(())
    }

    /// Nothing happens.
    fn skip(&mut self) -> Result<(), WorldFault>
        ensures { NothingSettles self.old self.new result }
    {
        self.note(Actor::Nobody, Line::Void)
    }

    /// A step of this node is told, behind the message of this place if it was given one. The cell is lost where memory is
    /// wanting for that.
    fn told(&mut self, node: Node, place: Option<u64>, outs: Outs) -> Result<(), WorldFault>
        ensures { Settles node (given_line place) (happened.Step outs) self.old self.new result }
    {
        match tell(
            &mut self.wire,
            &mut self.history,
            node,
            given_line(place),
            outs,
        ) {
            Ok(()) => Ok(()),
            Err(_) => self.lose(),
        }
    }

    /// What happened at this node is told.
    fn settle(
        &mut self,
        node: Node,
        place: Option<u64>,
        happened: Happened,
    ) -> Result<(), WorldFault>
        ensures { Settles node (given_line place) happened self.old self.new result }
    {
        match happened {
            Happened::Nothing => self.skip(),
            Happened::Step(outs) => self.told(node, place, outs),
            Happened::Unchanged => Err(WorldFault::OutOfMemory),
            Happened::Lost => self.lose(),
        }
    }

    /// The cell is lost.
    fn lose(&mut self) -> Result<(), WorldFault>
        ensures value { self.new ≡ record self.old { is_lost = true } }
        ensures refused { result ≡ Err faults.OutOfMemory }
    {
        self.is_lost = true;
        Err(WorldFault::OutOfMemory)
    }

    // ---- one node

    /// A server is given something that is no message.
    fn serve(&mut self, server: u8, given: ServerInput) -> Result<(), WorldFault>
        requires safe { IsSafeSince D.limit self.old }
        requires going { self.old.is_lost ≡ false }
        requires few { self.old.gone.entries + length self.old.history < most_history_entries }
        requires due { IsDue given }
        ensures stepped { SteppedSince D.seen D.may_leave D.faults D.limit (λ t. IsGiven server given t) self.old self.new result }
        ensures keeps { Keeps self.old self.new }
        ensures clock { self.new.clock ≡ self.old.clock }
        ensures picked { (pick : ℕ) → given ≡ input.Crash pick → IsPicked D.seen D.left_by server pick self.old.servers self.new.servers result }
    {
        let happened = server_takes(
            self.alloc,
            &mut self.servers,
            server,
            self.script.clients,
            self.clock,
            given,
        );
        self.settle(Node::Server(server), None, happened)
    }

    /// The location database is given something that is no message.
    fn serve_database(&mut self, given: DatabaseInput) -> Result<(), WorldFault>
        requires safe { IsSafeSince D.limit self.old }
        requires going { self.old.is_lost ≡ false }
        requires few { self.old.gone.entries + length self.old.history < most_history_entries }
        requires due { IsDueAtLoc given }
        ensures stepped { SteppedSince D.seen D.may_leave D.faults D.limit (λ t. IsGivenToLoc given t) self.old self.new result }
        ensures keeps { Keeps self.old self.new }
        ensures clock { self.new.clock ≡ self.old.clock }
        ensures picked { (pick : ℕ) → given ≡ database.Crash pick → IsPickedAtLoc D.seen D.left_by pick self.old.database self.new.database result }
    {
        let happened = database_takes(self.alloc, &mut self.database, given);
        self.settle(Node::Loc, None, happened)
    }

    /// A client is given something that is no message.
    fn ask(&mut self, client: u8, given: ClientInput) -> Result<(), WorldFault>
        requires safe { IsSafeSince D.limit self.old }
        requires going { self.old.is_lost ≡ false }
        requires few { self.old.gone.entries + length self.old.history < most_history_entries }
        requires inside { (1 ≤ client) × (client ≤ self.old.script.clients) }
        ensures stepped { SteppedSince D.seen D.may_leave D.faults D.limit (IsBegunOrGiven given client) self.old self.new result }
        ensures keeps { Keeps self.old self.new }
        ensures clock { self.new.clock ≡ self.old.clock }
    {
        let happened = client_takes(
            self.alloc,
            &mut self.clients,
            self.script,
            client,
            self.clock,
            given,
        );
        self.settle(Node::Client(client), None, happened)
    }

    /// An administrator is given something that is no message.
    fn order(&mut self, admin: u8, given: AdminInput) -> Result<(), WorldFault>
        requires safe { IsSafeSince D.limit self.old }
        requires going { self.old.is_lost ≡ false }
        requires few { self.old.gone.entries + length self.old.history < most_history_entries }
        requires inside { (1 ≤ admin) × (admin ≤ self.old.script.admins) }
        ensures stepped { SteppedSince D.seen D.may_leave D.faults D.limit (IsAskedOfAdmin given admin) self.old self.new result }
        ensures keeps { Keeps self.old self.new }
        ensures clock { self.new.clock ≡ self.old.clock }
    {
        let happened = admin_takes(self.alloc, &mut self.admins, self.script, admin, given);
        self.settle(Node::Admin(admin), None, happened)
    }

    /// The message of this place is given to its receiver.
    fn deliver(&mut self, place: u64) -> Result<(), WorldFault>
        requires kept { self.old.gone.messages < place }
        requires safe { IsSafeSince D.limit self.old }
        requires going { self.old.is_lost ≡ false }
        requires few { self.old.gone.entries + length self.old.history < most_history_entries }
        ensures stepped { SteppedSince D.seen D.may_leave D.faults D.limit (λ t. IsInput t (events.Deliver place)) self.old self.new result }
        ensures keeps { Keeps self.old self.new }
        ensures clock { self.new.clock ≡ self.old.clock }
    {
        let Some(parcel) = self.wire.get(place) else {
            return self.skip();
        };
        let bytes = parcel.bytes.as_slice();
        match parcel.head.to {
            Node::Server(server) => {
                let happened = server_hears(
                    self.alloc,
                    &mut self.servers,
                    server,
                    bytes,
                    self.clock,
                );
                self.settle(Node::Server(server), Some(place), happened)
            }
            Node::Client(client) => {
                let happened = client_hears(
                    &mut self.clients,
                    self.script,
                    client,
                    bytes,
                    self.clock,
                );
                self.settle(Node::Client(client), Some(place), happened)
            }
            Node::Loc => {
                let happened = database_hears(self.alloc, &mut self.database, bytes);
                self.settle(Node::Loc, Some(place), happened)
            }
            Node::Admin(admin) => {
                let happened = admin_hears(&mut self.admins, self.script, admin, bytes);
                self.settle(Node::Admin(admin), Some(place), happened)
            }
        }
    }

    /// The clock rises.
    fn tick(&mut self, ticks: u32) -> Result<(), WorldFault>
        requires safe { IsSafeSince D.limit self.old }
        requires going { self.old.is_lost ≡ false }
        requires few { self.old.gone.entries + length self.old.history < most_history_entries }
        requires some { 1 ≤ ticks }
        requires within { self.old.clock + ticks ≤ most_ticks }
        ensures stepped { SteppedSince D.seen D.may_leave D.faults D.limit (λ t. IsInput t (events.Tick ticks)) self.old self.new result }
        ensures keeps { Keeps self.old self.new }
        ensures clock { self.new.clock ≤ self.old.clock + ticks }
    {
        self.note(Actor::Clock, Line::Tick { ticks })?;
        self.clock += ticks;
        Ok(())
    }

    // ---- one event

    /// One event of the schedule, which isn't a drain.
    fn play_event(&mut self, event: Event) -> Result<(), WorldFault>
        requires safe { IsSafeSince D.limit self.old }
        requires going { self.old.is_lost ≡ false }
        requires few { self.old.gone.entries + length self.old.history < most_history_entries }
        requires fits { FitsEvent (counts_of self.old.script) event }
        requires one { event ≡ events.Drain → ⊥ }
        requires kept { DeliversKept self.old event }
        requires ticks { self.old.clock + ticks_of event ≤ most_ticks }
        ensures plays { PlaysSince D.seen D.may_leave D.faults D.limit (λ t. IsInput t event) (ticks_of event) self.old self.new result }
        ensures picked { (i pick : ℕ) → event ≡ events.CrashDisk (Server i) pick → IsPicked D.seen D.left_by i pick self.old.servers self.new.servers result }
        ensures picked_at_loc { (pick : ℕ) → event ≡ events.CrashDisk Loc pick → IsPickedAtLoc D.seen D.left_by pick self.old.database self.new.database result }
    {
        match meaning_of(event) {
            Given::Nothing => self.skip(),
            Given::Client(client, what) => self.ask(client, what),
            Given::Admin(admin, what) => self.order(admin, what),
            Given::Server(server, what) => self.serve(server, what),
            Given::Database(what) => self.serve_database(what),
            Given::Message(place) => self.deliver(place),
            Given::Ticks(ticks) => self.tick(ticks),
        }
    }

    /// Whether the history is as long as one may be.
    fn is_full(&self) -> bool
        requires { self.now.gone.entries + length self.now.history ≤ most_history_entries }
        ensures full { result ≡ true → self.now.gone.entries + length self.now.history ≡ most_history_entries }
        ensures room { result ≡ false → self.now.gone.entries + length self.now.history < most_history_entries }
    {
        self.gone.entries + self.history.len() as u64 == MOST_ENTRIES
    }

    /// Plays one event, which isn't a drain: its deliveries are events of their own. A message that was let go can't be delivered.
    /// `Limit` where the history is as long as one may be.
    pub fn step(&mut self, event: &Event) -> Result<(), WorldFault>
        requires world { IsWorldSince D.seen D.may_leave D.faults D.limit self.old }
        requires fits { FitsEvent (counts_of self.old.script) event.now }
        requires one { event.now ≡ events.Drain → ⊥ }
        requires kept { DeliversKept self.old event.now }
        requires ticks { self.old.clock + ticks_of event.now ≤ most_ticks }
        ensures world { GoesOnSince D.seen D.may_leave D.faults D.limit self.old self.new }
        ensures steps { StepsSince D.seen D.may_leave D.faults D.limit (λ t. IsInput t event.now) self.old self.new result }
        ensures keeps { Keeps self.old self.new }
        ensures tells { AllTell D.seen self.old ↔ AllTell D.seen self.new }
        ensures counts { (own : ℕ → ℕ) → Counts D.faults own self.old → Counts D.faults own self.new }
        ensures clock { self.new.clock ≤ self.old.clock + ticks_of event.now }
        ensures lost { self.old.is_lost ≡ true → (result ≡ Err faults.OutOfMemory) × (self.new ≡ self.old) }
        ensures full { self.old.is_lost ≡ false → self.old.gone.entries + length self.old.history ≡ most_history_entries → (result ≡ Err faults.Limit) × (self.new ≡ self.old) }
        ensures picked { (i pick : ℕ) → event.now ≡ events.CrashDisk (Server i) pick → IsPicked D.seen D.left_by i pick self.old.servers self.new.servers result }
        ensures picked_at_loc { (pick : ℕ) → event.now ≡ events.CrashDisk Loc pick → IsPickedAtLoc D.seen D.left_by pick self.old.database self.new.database result }
    {
        if self.is_lost {
            return Err(WorldFault::OutOfMemory);
        }
        if self.is_full() {
            return Err(WorldFault::Limit);
        }
        self.play_event(*event)
    }

    // ---- what is told

    /// The entries of the history that weren't let go, one for each event; the messages of an entry are the next of the parcels.
    pub fn history(&self) -> &[Entry]
        ensures { result.now ≡ self.now.history }
    {
        self.history.as_slice()
    }

    /// The messages that these entries sent, each with its bytes.
    pub fn parcels(&self) -> &[Parcel]
        ensures parcels { result.now ≡ drop (self.now.gone.sent - self.now.gone.messages) self.now.wire }
        ensures gone { (self.now.gone.messages ≤ self.now.gone.sent) × (self.now.gone.sent ≤ self.now.gone.messages + length self.now.wire) }
    {
        self.wire.behind(self.gone.sent)
    }

    /// How many messages were sent.
    pub fn sent(&self) -> u64
        ensures sent { result ≡ self.now.gone.messages + length self.now.wire }
        ensures few { result < 2 ^ 63 + 2 ^ 62 }
    {
        self.wire.count()
    }

    /// How many entries were let go.
    pub fn entries_before(&self) -> u64
        ensures { result ≡ self.now.gone.entries }
    {
        self.gone.entries
    }

    /// The entries of the history are let go, and messages of the first places, which no event delivers any more. It takes no memory.
    pub fn let_go(&mut self, settled: u64)
        requires few { self.old.gone.entries + length self.old.history ≤ most_history_entries }
        ensures { LetsGo settled self.old self.new }
    {
        self.gone = Gone {
            entries: self.gone.entries + self.history.len() as u64,
            sent: self.wire.count(),
        };
        self.history.clear();
        self.wire.let_go(settled);
    }
}
