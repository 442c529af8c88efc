//! Promises that are given back: server by server, so many in one call at most.

ghost use Rattle.std.specs.Prelude.{◌≡◌, ◌≤◌, ◌<◌, ◌^◌, ◌++◌, OnOk, IfOk, IfSome, map, length};
ghost use Rattle.std.specs.List.{flat_map};
ghost use Rattle.spec_rows.specs.ClientRow.{batch, batch_to, first_server_of, gift_call, gift_of, gifts_to, given_promise, in_order};
ghost use Rattle.std.specs.Option.{option_map};
ghost use Rattle.afs_entries.specs.Cached.{entry_at, first_gift};

use crate::cache::Entry;
use afs_num::calls::{AfsCallBack, FsCall};
use afs_num::sequences::Sequence;
use afs_num::types::{Fid, Mem, Node};
use std::alloc::Global;
use std::marker::Model;

/// The servers, by their numbers.
const SERVERS: [u8; 8] = [1, 2, 3, 4, 5, 6, 7, 8];

/// So many promises are given back in one call at most.
const MOST_GIVEN: usize = 50;

/// A promise that is given back. Its expiry is in ticks.
#[derive(Drop)]
pub struct Gift {
    pub server: Node,
    pub fid: Fid,
    pub expiry: u32,
}

impl Model for Gift {
    ghost use Rattle.spec_rows.specs.States.{Gift};

    ghost Value = { Gift };

    ghost view = { λ g. record { server = g.server; fid = g.fid; expiry = g.expiry } };
}

impl Gift {
    /// The promise of an entry.
    pub(crate) fn of(fid: Fid, entry: &Entry) -> Gift
        ensures { result ≡ gift_of (entry_at fid entry.now) }
    {
        Gift {
            server: entry.server,
            fid,
            expiry: entry.expiry,
        }
    }

    fn copy(&self) -> Gift
        ensures { result ≡ self.now }
    {
        Gift {
            server: self.server,
            fid: self.fid,
            expiry: self.expiry,
        }
    }
}

/// Copies.
pub fn copy_gifts(alloc: Global, gifts: &[Gift]) -> Mem<Vec<Gift>>
    ensures { IfOk result (λ gs. gs.items ≡ gifts.now) }
{
    let mut copy = Vec::new(alloc);
    for gift in gifts {
        copy.push(gift.copy())?;
    }
    Ok(copy)
}

/// Adds what is given back to this server.
fn add_gifts(ordered: &mut Vec<Gift>, gifts: &[Gift], number: u8) -> Mem<()>
    ensures { OnOk result (ordered.new.items ≡ ordered.old.items ++ gifts_to gifts.now number) }
{
    for gift in gifts {
        if gift.server.is(&Node::Server(number)) {
            ordered.push(gift.copy())?;
        }
    }
    Ok(())
}

/// What is given back to each of these servers.
fn gather(alloc: Global, gifts: &[Gift], servers: &[u8]) -> Mem<Vec<Gift>>
    ensures { IfOk result (λ gs. gs.items ≡ flat_map (gifts_to gifts.now) servers.now) }
{
    let mut ordered = Vec::new(alloc);
    for number in servers {
        add_gifts(&mut ordered, gifts, *number)?;
    }
    Ok(ordered)
}

/// By the numbers of their servers.
pub fn in_order(alloc: Global, gifts: &[Gift]) -> Mem<Vec<Gift>>
    ensures { IfOk result (λ gs. gs.items ≡ in_order gifts.now) }
{
    gather(alloc, gifts, &SERVERS)
}

fn next_gift(gifts: &[Gift]) -> Option<(&Gift, &[Gift])>
    ensures value { option_map (λ r. (r.0.now, r.1.now)) result ≡ first_gift gifts.now }
    ensures less { IfSome result (λ r. length r.1.now < length gifts.now) }
{
    match gifts {
        [gift, rest @ ..] => Some((gift, rest)),
        [] => None,
    }
}

/// How many of these go in one call to this server, where so many may.
fn count_to(server: &Node, most: usize, gifts: &[Gift]) -> usize
    requires { most < 2 ^ 32 }
    ensures { result ≡ length (batch_to server.now most gifts.now) }
{
    let mut left = most;
    let mut rest = gifts;
    while let Some((gift, more)) = next_gift(rest) {
        if left == 0 || !gift.server.is(server) {
            return most - left;
        }
        left -= 1;
        rest = more;
    }
    most - left
}

/// How many of these go in one call.
pub fn batch_len(gifts: &[Gift]) -> usize
    ensures value { result ≡ length (batch gifts.now) }
    ensures few { result ≤ 50 }
    ensures within { result ≤ length gifts.now }
{
    match gifts {
        [first, ..] => count_to(&first.server, MOST_GIVEN, gifts),
        [] => 0,
    }
}

/// The first of these, that go in one call.
pub fn gift_batch(gifts: &[Gift]) -> &[Gift]
    ensures { result.now ≡ batch gifts.now }
{
    gifts.split_at(batch_len(gifts)).0
}

/// The server of the first of these.
pub fn first_server_of(gifts: &[Gift]) -> Node
    ensures { result ≡ first_server_of gifts.now }
{
    match gifts {
        [first, ..] => first.server,
        [] => Node::Server(1),
    }
}

/// The call that gives these back.
pub fn gift_call(alloc: Global, gifts: &[Gift]) -> Mem<FsCall>
    ensures { IfOk result (λ c. c ≡ gift_call gifts.now) }
{
    let mut fids = Sequence::new(alloc);
    let mut callbacks = Sequence::new(alloc);
    for gift in gifts {
        fids.push(gift.fid)?;
        callbacks.push(AfsCallBack {
            version: 1,
            expiration_time: gift.expiry,
            kind: 2,
        })?;
    }
    Ok(FsCall::GiveUpCallBacks { fids, callbacks })
}
