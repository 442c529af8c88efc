//! What an event gives to a node of the cell.

ghost use Rattle.std.specs.Prelude.{◌≡◌, ℕ};
ghost use Rattle.afs_num.specs.declared.types.Node.TheVariants.{Loc, Server};
ghost use Rattle.spec_history.specs.declared.scripts.Event.TheVariants as events;
ghost use Rattle.afs_clients.specs.Meaning.{IsMeant};
ghost use Rattle.afs_clients.specs.declared.events.Given.TheVariants as given;
ghost use Rattle.afs_clients.specs.declared.happening.DatabaseInput.TheVariants as database;
ghost use Rattle.afs_clients.specs.declared.happening.ServerInput.TheVariants as server;

use crate::happening::{AdminInput, ClientInput, DatabaseInput, ServerInput};
use afs_num::types::Node;
use spec_history::scripts::Event;

/// What an event is: nothing; something for a client, an administrator or a server of this number, or for the location database; the
/// message of a place; or that the clock rises.
#[derive(Clone, Copy, Debug)]
pub enum Given {
    Nothing,
    Client(u8, ClientInput),
    Admin(u8, AdminInput),
    Server(u8, ServerInput),
    Database(DatabaseInput),
    Message(u64),
    Ticks(u32),
}

/// A client or an administrator begins its next act.
fn act(node: Node) -> Given
    ensures { IsMeant (events.Act node) result }
{
    match node {
        Node::Client(client) => Given::Client(client, ClientInput::Act),
        Node::Loc => Given::Nothing,
        Node::Server(_) => Given::Nothing,
        Node::Admin(admin) => Given::Admin(admin, AdminInput::Act),
    }
}

/// A node's unanswered call times out.
fn time_out(node: Node, callee: Node) -> Given
    ensures { IsMeant (events.Timeout node callee) result }
{
    match node {
        Node::Client(client) => Given::Client(client, ClientInput::TimeOut(callee)),
        Node::Server(server) => Given::Server(server, ServerInput::TimeOut(callee)),
        Node::Loc => Given::Nothing,
        Node::Admin(admin) => Given::Admin(admin, AdminInput::TimeOut(callee)),
    }
}

/// A node without a disk crashes.
fn crash(node: Node) -> Given
    ensures { IsMeant (events.Crash node) result }
{
    match node {
        Node::Client(client) => Given::Client(client, ClientInput::Crash),
        Node::Loc => Given::Nothing,
        Node::Server(_) => Given::Nothing,
        Node::Admin(admin) => Given::Admin(admin, AdminInput::Crash),
    }
}

/// One with a disk crashes.
fn crash_disk(node: Node, pick: u8) -> Given
    ensures meant { IsMeant (events.CrashDisk node pick) result }
    ensures picked { (i : ℕ) → node ≡ Server i → result ≡ given.Server i (server.Crash pick) }
    ensures picked_at_loc { node ≡ Loc → result ≡ given.Database (database.Crash pick) }
{
    match node {
        Node::Server(server) => Given::Server(server, ServerInput::Crash(pick)),
        Node::Loc => Given::Database(DatabaseInput::Crash(pick)),
        Node::Client(_) => Given::Nothing,
        Node::Admin(_) => Given::Nothing,
    }
}

/// A node begins again.
fn restart(node: Node) -> Given
    ensures { IsMeant (events.Restart node) result }
{
    match node {
        Node::Client(client) => Given::Client(client, ClientInput::Restart),
        Node::Server(server) => Given::Server(server, ServerInput::Restart),
        Node::Loc => Given::Database(DatabaseInput::Restart),
        Node::Admin(admin) => Given::Admin(admin, AdminInput::Restart),
    }
}

/// A node's disk is to stop it.
fn stop(node: Node, calls: u32, pick: u8) -> Given
    ensures { IsMeant (events.Stop node calls pick) result }
{
    match node {
        Node::Server(server) => Given::Server(server, ServerInput::Stop { calls, pick }),
        Node::Loc => Given::Database(DatabaseInput::Stop { calls, pick }),
        Node::Client(_) => Given::Nothing,
        Node::Admin(_) => Given::Nothing,
    }
}

/// A node's disk is to fail.
fn fail(node: Node, call: u32) -> Given
    ensures { IsMeant (events.Fail node call) result }
{
    match node {
        Node::Server(server) => Given::Server(server, ServerInput::Fail { call }),
        Node::Loc => Given::Database(DatabaseInput::Fail { call }),
        Node::Client(_) => Given::Nothing,
        Node::Admin(_) => Given::Nothing,
    }
}

/// What this event gives. A drain is none: its deliveries are.
pub fn meaning_of(event: Event) -> Given
    requires { event ≡ events.Drain → ⊥ }
    ensures meant { IsMeant event result }
    ensures picked { (i pick : ℕ) → event ≡ events.CrashDisk (Server i) pick → result ≡ given.Server i (server.Crash pick) }
    ensures picked_at_loc { (pick : ℕ) → event ≡ events.CrashDisk Loc pick → result ≡ given.Database (database.Crash pick) }
{
    match event {
        Event::Act { node } => act(node),
        Event::Deliver { place } => Given::Message(place),
        Event::Drain => unreachable!(),
        Event::Timeout { node, callee } => time_out(node, callee),
        Event::Wake { server } => Given::Server(server, ServerInput::Wake),
        Event::Tick { ticks } => Given::Ticks(ticks),
        Event::Crash { node } => crash(node),
        Event::CrashDisk { node, pick } => crash_disk(node, pick),
        Event::Restart { node } => restart(node),
        Event::Stop { node, calls, pick } => stop(node, calls, pick),
        Event::Fail { node, call } => fail(node, call),
    }
}
