//! The nodes of a cell, as words of its script.

ghost use Rattle.std.specs.Prelude.{◌≡◌, ◌≤◌, None, IfSome, IfOk, if◌then◌else◌};
ghost use Rattle.afs_num.specs.declared.types.Node.TheVariants.{Server, Client, Admin};
ghost use Rattle.spec_model.specs.ScriptWords.{node_number_read};
ghost use Rattle.afs_words.specs.Words.{callees, loc_of, numbered, or_else, node_of, node_at, node_number_at};
ghost use Rattle.afs_words.specs.Reads.{Reads};

use crate::parts::Parts;
use crate::words::{node_number, word};
use afs_num::scripts::Reason;
use afs_num::types::Node;

/// How many nodes of each kind the cell has.
#[derive(Clone, Copy, Debug)]
pub struct Counts {
    pub servers: u8,
    pub clients: u8,
    pub admins: u8,
}

/// The kinds of nodes that may stand in a place.
#[derive(Clone, Copy, Debug)]
pub struct Kinds {
    pub loc: bool,
    pub server: bool,
    pub client: bool,
    pub admin: bool,
}

pub const ACTORS: Kinds = Kinds {
    loc: false,
    server: false,
    client: true,
    admin: true,
};

pub const CALLERS: Kinds = Kinds {
    loc: false,
    server: true,
    client: true,
    admin: true,
};

pub const ALL_NODES: Kinds = Kinds {
    loc: true,
    server: true,
    client: true,
    admin: true,
};

pub const DISK_NODES: Kinds = Kinds {
    loc: true,
    server: true,
    client: false,
    admin: false,
};

pub const CALLED_BY_SERVERS: Kinds = Kinds {
    loc: false,
    server: true,
    client: true,
    admin: false,
};

fn loc_of(allowed: bool, word: &[u8]) -> Option<Node>
    ensures { result ≡ loc_of allowed word.now }
{
    if allowed && word == b"loc".as_slice() {
        Some(Node::Loc)
    } else {
        None
    }
}

/// The number behind the letter of a kind, if that kind may stand here.
fn numbered(allowed: bool, letter: u8, count: u8, word: &[u8]) -> Option<u8>
    ensures value { result ≡ (if allowed then node_number_read letter count word.now else None) }
    ensures bound { IfSome result (λ n. n ≤ count) }
{
    if !allowed {
        return None;
    }
    Some(node_number(letter, count, word)? as u8)
}

fn server_of(allowed: bool, count: u8, word: &[u8]) -> Option<Node>
    ensures { result ≡ numbered Server allowed 115 count word.now }
{
    Some(Node::Server(numbered(allowed, b's', count, word)?))
}

fn client_of(allowed: bool, count: u8, word: &[u8]) -> Option<Node>
    ensures { result ≡ numbered Client allowed 99 count word.now }
{
    Some(Node::Client(numbered(allowed, b'c', count, word)?))
}

fn admin_of(allowed: bool, count: u8, word: &[u8]) -> Option<Node>
    ensures { result ≡ numbered Admin allowed 97 count word.now }
{
    Some(Node::Admin(numbered(allowed, b'a', count, word)?))
}

fn or_else(one: Option<Node>, other: Option<Node>) -> Option<Node>
    ensures { result ≡ or_else one other }
{
    match one {
        Some(_) => one,
        None => other,
    }
}

#[tactic(auto, unfolding(crate::specs::Words::node_of))]
fn node_of(kinds: Kinds, counts: Counts, word: &[u8]) -> Option<Node>
    ensures { result ≡ node_of kinds counts word.now }
{
    let loc = loc_of(kinds.loc, word);
    let server = server_of(kinds.server, counts.servers, word);
    let client = client_of(kinds.client, counts.clients, word);
    let admin = admin_of(kinds.admin, counts.admins, word);
    or_else(loc, or_else(server, or_else(client, admin)))
}

/// A node of one of these kinds.
#[tactic(auto, unfolding(crate::specs::Words::node_at))]
pub fn node(words: &mut Parts<'_>, kinds: Kinds, counts: Counts) -> Result<Node, Reason>
    ensures { Reads (node_at kinds counts) (λ n. n) words.old words.new result }
{
    let word = word(words)?;
    node_of(kinds, counts, word).ok_or(Reason::Node)
}

/// The number of a node of one kind.
#[tactic(auto, unfolding(crate::specs::Words::node_number_at))]
pub fn one_of(words: &mut Parts<'_>, letter: u8, count: u8) -> Result<u8, Reason>
    ensures value { Reads (node_number_at letter count) (λ n. n) words.old words.new result }
    ensures bound { IfOk result (λ n. n ≤ count) }
{
    let word = word(words)?;
    numbered(true, letter, count, word).ok_or(Reason::Node)
}

/// Whom the node may call.
pub fn callees(node: Node) -> Kinds
    ensures { result ≡ callees node }
{
    match node {
        Node::Server(_) => CALLED_BY_SERVERS,
        _ => DISK_NODES,
    }
}
