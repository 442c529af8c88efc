//! The places of a cell's clients.

ghost use Rattle.std.specs.Prelude.{◌≡◌, ◌≤◌, ◌<◌, ◌+◌, ℕ, true, codes, is_some, IfOk};
ghost use Rattle.std.specs.List.{All};
ghost use Rattle.afs_num.specs.declared.types.Node.TheVariants.{Client};
ghost use Rattle.afs_cache.specs.Managing.{number_limit};
ghost use Rattle.afs_grammar.specs.CellScripts.{IsCellScript};
ghost use Rattle.spec_copyrows.specs.Sites.{new_copies};
ghost use Rattle.spec_rows.specs.ClientRow.{act_of, new_client};
ghost use Rattle.spec_rows.specs.Runs.{locations, user_at, user_in};
ghost use Rattle.afs_clients.specs.Happening.{ClientGoes, ClientHappens, ClientHears, ClientTakes, HasBegun, HasFallen, HasRisen, HasTimedOut, IsVoidClient};
ghost use Rattle.afs_clients.specs.Seating.{awaits, GoesOn, IsFirstClient, IsHanded, IsShortTask};
ghost use Rattle.afs_clients.specs.declared.happening.ClientInput.TheVariants as input;

use crate::happening::{ClientInput, Happened};
use crate::telling::told_alone;
use afs_cache::CacheManager;
use afs_num::types::{Mem, Node};
use afs_schedule::Plan;
use spec_history::lines::Line;
use spec_history::scripts::{Script, UserLine};
use std::alloc::Global;

/// The name of a user of whom a script says nothing.
const GUEST: &[u8] = b"guest";

/// A client with its epoch; whether it is down; and what it has yet to do.
pub struct ClientSeat<'a> {
    pub client: CacheManager,
    pub epoch: u32,
    pub is_away: bool,
    pub plan: Plan<'a>,
}

/// It ends by a drop of its own: where a cell ends there is one drop to prove for a client, and not one for each of its parts.
impl<'a> Drop for ClientSeat<'a> {
    fn drop(self) {
        let ClientSeat {
            client: _,
            epoch: _,
            is_away: _,
            plan: _,
        } = self;
    }
}

/// The user of this client: the last that a script's lines name.
fn user_of(users: &[UserLine], client: u8) -> &[u8]
    ensures { result.now ≡ user_in client (codes "guest") users.now }
{
    let mut user = GUEST;
    for line in users {
        if line.client == client {
            user = line.name.as_slice();
        }
    }
    user
}

/// The cache manager of this client, as it begins with this epoch: it is handed that, and the script's volumes.
#[tactic(auto, using(crate::proofs::Handed::client_is_node, crate::proofs::Handed::user_is_short, crate::proofs::Handed::all_have_servers))]
fn manager(alloc: Global, script: &Script, client: u8, epoch: u32) -> Mem<CacheManager>
    requires script { IsCellScript script.now }
    requires client { (1 ≤ client) × (client ≤ 16) }
    ensures node { IfOk result (λ c. c.node ≡ Client client) }
    ensures state { IfOk result (λ c. c.state ≡ new_copies (new_client epoch script.now.cache (user_at script.now client) (locations script.now))) }
{
    CacheManager::new(
        alloc,
        Node::Client(client),
        epoch,
        script.cache as u16,
        &script.volumes,
        user_of(script.users.as_slice(), client),
    )
}

impl<'a> ClientSeat<'a> {
    /// A client at set-up.
    pub fn new(alloc: Global, script: &'a Script, client: u8) -> Mem<ClientSeat<'a>>
        requires script { IsCellScript script.now }
        requires client { (1 ≤ client) × (client ≤ 16) }
        ensures { IfOk result (IsFirstClient script.now client) }
    {
        Ok(ClientSeat {
            client: manager(alloc, script, client, 1)?,
            epoch: 1,
            is_away: false,
            plan: Plan::of(alloc, Node::Client(client), script.tasks.as_slice())?,
        })
    }

    /// Whether an act runs, or waits for the location database.
    fn is_busy(&self) -> bool
        ensures { result ≡ is_some (act_of self.now.client.state.client) }
    {
        self.client.waits_on().is_some()
    }

    /// Whether it waits for the reply of this node.
    fn waits_for(&self, callee: Node) -> bool
        ensures { result ≡ awaits self.now.client.state.client callee (act_of self.now.client.state.client) }
    {
        match self.client.waits_on() {
            Some((node, _)) => node.is(&callee),
            None => false,
        }
    }

    /// It begins its next act, if it is up and idle.
    #[tactic(auto, using(crate::proofs::Shortened::first_short, crate::proofs::Shortened::rest_short))]
    fn begin(&mut self, client: u8, now: u32) -> Happened
        requires node { self.old.client.node ≡ Client client }
        requires last { self.old.client.state.client.last < number_limit }
        requires short { All IsShortTask self.old.plan }
        ensures happens { ClientHappens (IsVoidClient input.Act) (HasBegun client now) self.old self.new result }
        ensures goes_on { GoesOn self.old self.new }
    {
        if self.is_away || self.is_busy() {
            return Happened::Nothing;
        }
        let Some(act) = self.plan.next_act() else {
            return Happened::Nothing;
        };
        match self.client.act(act, now) {
            Ok(outs) => {
                self.plan.advance();
                Happened::Step(outs)
            }
            Err(_) => Happened::Unchanged,
        }
    }

    /// It is given a message, if it is up.
    pub fn hear(&mut self, client: u8, bytes: &[u8], now: u32) -> Happened
        requires node { self.old.client.node ≡ Client client }
        requires last { self.old.client.state.client.last < number_limit }
        ensures happens { (place : ℕ) → ClientHappens (λ seat. seat.is_away ≡ true) (ClientHears client now place bytes.now) self.old self.new result }
        ensures goes_on { GoesOn self.old self.new }
    {
        if self.is_away {
            return Happened::Nothing;
        }
        match self.client.receive(bytes, now) {
            Ok(outs) => Happened::Step(outs),
            Err(_) => Happened::Unchanged,
        }
    }

    /// Its unanswered call to this node times out.
    fn time_out(&mut self, client: u8, callee: Node, now: u32) -> Happened
        requires node { self.old.client.node ≡ Client client }
        requires last { self.old.client.state.client.last < number_limit }
        ensures happens { ClientHappens (IsVoidClient (input.TimeOut callee)) (HasTimedOut client callee) self.old self.new result }
        ensures goes_on { GoesOn self.old self.new }
    {
        let _client = client;
        if self.is_away || !self.waits_for(callee) {
            return Happened::Nothing;
        }
        match self.client.timeout(now) {
            Ok(outs) => Happened::Step(outs),
            Err(_) => Happened::Unchanged,
        }
    }

    /// It goes down. What it will begin with is made here: the next epoch, and nothing cached.
    fn crash(&mut self, alloc: Global, script: &Script, client: u8) -> Happened
        requires script { IsCellScript script.now }
        requires client { (1 ≤ client) × (client ≤ 16) }
        requires handed { IsHanded script.now client self.old }
        requires epoch { self.old.epoch < 4294967295 }
        ensures happens { ClientHappens (IsVoidClient input.Crash) (HasFallen script.now client) self.old self.new result }
        ensures handed { IsHanded script.now client self.new }
        ensures epoch { self.new.epoch ≤ self.old.epoch + 1 }
        ensures last { self.new.client.state.client.last ≤ self.old.client.state.client.last + 1 }
    {
        if self.is_away {
            return Happened::Nothing;
        }
        let node = Node::Client(client);
        let Ok(outs) = told_alone(alloc, Line::Crash { node }) else {
            return Happened::Unchanged;
        };
        let Ok(manager) = manager(alloc, script, client, self.epoch + 1) else {
            return Happened::Unchanged;
        };
        self.client = manager;
        self.epoch += 1;
        self.is_away = true;
        Happened::Step(outs)
    }

    /// It is up again.
    fn restart(&mut self, alloc: Global, client: u8) -> Happened
        requires epoch { self.old.client.state.client.epoch ≡ self.old.epoch }
        ensures happens { ClientHappens (IsVoidClient input.Restart) (HasRisen client) self.old self.new result }
        ensures goes_on { GoesOn self.old self.new }
    {
        if !self.is_away {
            return Happened::Nothing;
        }
        let line = Line::Restart {
            node: Node::Client(client),
            boot: self.epoch,
        };
        let Ok(outs) = told_alone(alloc, line) else {
            return Happened::Unchanged;
        };
        self.is_away = false;
        Happened::Step(outs)
    }

    /// It is given something that is no message.
    pub fn take(
        &mut self,
        alloc: Global,
        script: &Script,
        client: u8,
        now: u32,
        given: ClientInput,
    ) -> Happened
        requires script { IsCellScript script.now }
        requires client { (1 ≤ client) × (client ≤ 16) }
        requires handed { IsHanded script.now client self.old }
        requires last { self.old.client.state.client.last < number_limit }
        requires epoch { self.old.epoch < 4294967295 }
        ensures happens { ClientHappens (IsVoidClient given) (ClientTakes script.now client now given) self.old self.new result }
        ensures goes { ClientGoes script.now client self.old self.new result }
    {
        match given {
            ClientInput::Act => self.begin(client, now),
            ClientInput::TimeOut(callee) => self.time_out(client, callee, now),
            ClientInput::Crash => self.crash(alloc, script, client),
            ClientInput::Restart => self.restart(alloc, client),
        }
    }
}
