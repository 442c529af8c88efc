//! Calls of the location database that can't be read: each is cut at each length, has bytes too many, or has a pad byte that isn't zero.

ghost use Rattle.test_node.specs.Hearing.{IsSound};

use crate::database::{Life, first_life, put_given};
use crate::runs::Runs;
use crate::words::bytes_of;
use afs_num::types::Mem;
use std::alloc::Global;

/// The number of a call stands here in it.
const NUMBER: usize = 16;

/// Each front of these bytes.
fn push_fronts(alloc: Global, all: &mut Vec<Vec<u8>>, bytes: &[u8]) -> Mem<()> {
    for length in 0..bytes.len() {
        let front = Vec::from_slice(alloc, &bytes[..length])?;
        all.push(front)?;
    }
    Ok(())
}

/// These bytes, and so many more.
fn longer(alloc: Global, bytes: &[u8], more: &[u8]) -> Mem<Vec<u8>> {
    let mut longer = Vec::from_slice(alloc, bytes)?;
    longer.extend_from_slice(more)?;
    Ok(longer)
}

/// These bytes with one to four more.
fn push_longer(alloc: Global, all: &mut Vec<Vec<u8>>, bytes: &[u8]) -> Mem<()> {
    for more in [[0].as_slice(), &[0; 2], &[0; 3], &[0; 4]] {
        all.push(longer(alloc, bytes, more)?)?;
    }
    Ok(())
}

/// These bytes with other bits in this place.
fn changed(alloc: Global, bytes: &[u8], place: u32, bits: u8) -> Mem<Vec<u8>> {
    let mut changed = Vec::from_slice(alloc, bytes)?;
    if let Some(one) = changed.get_mut(place as usize) {
        *one ^= bits;
    }
    Ok(changed)
}

/// These bytes with each bit of this place changed.
fn push_changed(alloc: Global, all: &mut Vec<Vec<u8>>, bytes: &[u8], place: u32) -> Mem<()> {
    for bit in [1, 2, 4, 8, 16, 32, 64, 128] {
        all.push(changed(alloc, bytes, place, bit)?)?;
    }
    Ok(())
}

/// These bytes with each bit of these places changed.
fn push_all_changed(alloc: Global, all: &mut Vec<Vec<u8>>, bytes: &[u8], places: &str) -> Mem<()> {
    for place in places.split_whitespace() {
        let place = u32::from_str_radix(place, 10).unwrap_or(0);
        push_changed(alloc, all, bytes, place)?;
    }
    Ok(())
}

/// All of them for the call in a row, and last the call itself.
fn messages(alloc: Global, row: &str) -> Mem<Vec<Vec<u8>>> {
    let (pads, call) = row.split_once('|').unwrap_or(("", ""));
    let bytes = bytes_of(alloc, call)?;
    let mut all = Vec::new(alloc);
    push_fronts(alloc, &mut all, bytes.as_slice())?;
    push_longer(alloc, &mut all, bytes.as_slice())?;
    push_all_changed(alloc, &mut all, bytes.as_slice(), pads)?;
    all.push(bytes)?;
    Ok(all)
}

/// Client a1 locks the volume proj, under stamp 1.
fn locks() -> &'static str {
    "1 c9 0 1 1 2 0 1fc 0 20000000 10 0"
}

/// A message gets this number, if it reaches as far.
fn put_number(bytes: &mut [u8], number: u32) {
    if let Some(word) = bytes.get_mut(NUMBER..NUMBER + 4) {
        word.copy_from_slice(&number.to_be_bytes());
    }
}

/// The database is given these bytes, under the next number.
fn push_given(alloc: Global, runs: &mut Runs, life: &mut Life, bytes: &[u8]) -> Option<()>
    requires { IsSound life.old.base life.old.is_up }
    ensures { IsSound life.new.base life.new.is_up }
{
    let mut bytes = Vec::from_slice(alloc, bytes).ok()?;
    put_number(bytes.as_mut_slice(), runs.next());
    let mut text = String::new(alloc);
    put_given(&mut text, life, bytes.as_slice())?;
    runs.push(text).ok()
}

/// It is given these messages.
fn push_all(alloc: Global, runs: &mut Runs, life: &mut Life, messages: &[Vec<u8>]) -> Option<()>
    requires { IsSound life.old.base life.old.is_up }
{
    for bytes in messages {
        push_given(alloc, runs, life, bytes.as_slice())?;
    }
    Some(())
}

/// A database whose volume proj is locked is given these messages.
fn put_told(alloc: Global, runs: &mut Runs, messages: &[Vec<u8>]) -> Option<()> {
    let lock = bytes_of(alloc, locks()).ok()?;
    let mut unseen = String::new(alloc);
    let mut life = first_life(alloc)?;
    let locked = put_given(&mut unseen, &mut life, lock.as_slice());
    let told = locked.and(push_all(alloc, runs, &mut life, messages));
    drop(life);
    told
}

/// What is told of the call in a row.
fn told(alloc: Global, row: &str) -> String {
    let mut runs = Runs::new(alloc);
    let done = match messages(alloc, row) {
        Ok(messages) => {
            let done = put_told(alloc, &mut runs, messages.as_slice());
            drop(messages);
            done
        }
        Err(_) => None,
    };
    runs.ended(done)
}

/// What is told of the calls in these rows.
fn all_told(alloc: Global, rows: &str) -> String {
    let mut out = String::new(alloc);
    for row in rows.lines() {
        let text = told(alloc, row);
        let _ = out.push_str(text.as_str());
        drop(text);
    }
    out
}

/// Each call of the database once, by client a2 under a number of its own; before it the places of its pad bytes.
fn calls() -> &'static str {
    "\
    41 42 43 53 54 55|1 ca 0 1 0 2 0 1f5 5 67756573 74000000 5 7573722e 78000000 20000008 0 0 1000 2 2 4 5 2\n\
    41 42 43|1 ca 0 1 0 2 1 1f6 5 67756573 74000000 20000000\n\
    41 42 43|1 ca 0 1 0 2 0 1f7 5 67756573 74000000 20000000\n\
    41 42 43 53 54 55|1 ca 0 1 0 2 0 1f8 5 67756573 74000000 5 70726f6a 31000000\n\
    41 42 43|1 ca 0 1 0 2 0 1f9 5 67756573 74000000\n\
    41 42 43 57 58 59|1 ca 0 1 0 2 1 1fa 5 67756573 74000000 20000000 5 70726f6a 78000000 20000000 0 0 1000 1 1 4\n\
    41 42 43|1 ca 0 1 0 2 0 1fc 5 67756573 74000000 20000000 20 1\n\
    41 42 43|1 ca 0 1 0 2 1 1fd 5 67756573 74000000 20000000\n\
    41 42 43|1 ca 0 1 0 2 0 1fe 5 67756573 74000000 1\n\
    "
}

/// What is told of them.
fn calls_told() -> &'static str {
    "\
    32 times \n\
    112 times sent fffffe3b \n\
    1 times locked 536870920 2 16 located 536870920 s2 sent 0000000000000002 \n\
    32 times \n\
    44 times sent fffffe3b \n\
    1 times unlocked 536870912 sent 00000000 \n\
    32 times \n\
    44 times sent fffffe3b \n\
    1 times sent 000000000000000470726f6a20000000000000000000000000001000000000010000000100000004 \n\
    32 times \n\
    76 times sent fffffe3b \n\
    1 times sent 00058c04 \n\
    32 times \n\
    40 times sent fffffe3b \n\
    1 times sent 0000000020000002 \n\
    32 times \n\
    108 times sent fffffe3b \n\
    1 times sent 00000000 \n\
    32 times \n\
    52 times sent fffffe3b \n\
    1 times locked 536870912 2 32 sent 00000000000000020000000470726f6a20000000000000000000000000001000000000010000000100000004 \
    \n\
    32 times \n\
    44 times sent fffffe3b \n\
    1 times unlocked 536870912 sent 00000000 \n\
    32 times \n\
    44 times sent fffffe3b \n\
    1 times sent 000000000000000200000004646f637320000001000000000000000000001000000000010000000300000004 \n\
    "
}

// A front that has no whole header is dropped. Any other, and bytes behind the call, and a pad byte that isn't zero, are refused with
// -453. None of them changes anything: the call itself, which comes last, does what it does at first.
#[test]
fn a_call_that_cannot_be_read_is_refused_or_dropped(rt: HostRuntime) {
    let text = all_told(rt.alloc(), calls());
    assert_eq!(rt; text.as_str(), calls_told());
}
