//! Events of a schedule.

ghost use Rattle.std.specs.Prelude.{◌≡◌};
ghost use Rattle.afs_grammar.specs.Acts.{event_at, act_event, deliver_event, timeout_event, wake_event, tick_event, has_disk, crash_of, crash_event, restart_event, stop_event, fail_event};
ghost use Rattle.afs_words.specs.Reads.{Reads};

use crate::spellings::FirstWord;
use afs_num::scripts::Reason;
use afs_num::types::Node;
use afs_words::nodes::{ACTORS, ALL_NODES, CALLERS, Counts, DISK_NODES, callees, node, one_of};
use afs_words::parts::Parts;
use afs_words::words::number;
use spec_history::scripts::Event;

#[tactic(auto, unfolding(crate::specs::Acts::act_event))]
fn act(counts: Counts, words: &mut Parts<'_>) -> Result<Event, Reason>
    ensures { Reads (act_event counts) (λ e. e) words.old words.new result }
{
    let node = node(words, ACTORS, counts)?;
    Ok(Event::Act { node })
}

#[tactic(auto, unfolding(crate::specs::Acts::deliver_event))]
fn deliver(words: &mut Parts<'_>) -> Result<Event, Reason>
    ensures { Reads deliver_event (λ e. e) words.old words.new result }
{
    let place = number(words, 1, u64::MAX)?;
    Ok(Event::Deliver { place })
}

#[tactic(auto, unfolding(crate::specs::Acts::timeout_event))]
fn timeout(counts: Counts, words: &mut Parts<'_>) -> Result<Event, Reason>
    ensures { Reads (timeout_event counts) (λ e. e) words.old words.new result }
{
    let caller = node(words, CALLERS, counts)?;
    let callee = node(words, callees(caller), counts)?;
    Ok(Event::Timeout {
        node: caller,
        callee,
    })
}

#[tactic(auto, unfolding(crate::specs::Acts::wake_event))]
fn wake(counts: Counts, words: &mut Parts<'_>) -> Result<Event, Reason>
    ensures { Reads (wake_event counts) (λ e. e) words.old words.new result }
{
    let server = one_of(words, b's', counts.servers)?;
    Ok(Event::Wake { server })
}

#[tactic(auto, unfolding(crate::specs::Acts::tick_event))]
fn tick(words: &mut Parts<'_>) -> Result<Event, Reason>
    ensures { Reads tick_event (λ e. e) words.old words.new result }
{
    let ticks = number(words, 1, 4_294_967_295)? as u32;
    Ok(Event::Tick { ticks })
}

fn has_disk(node: Node) -> bool
    ensures { result ≡ has_disk node }
{
    matches!(node, Node::Loc | Node::Server(_))
}

#[tactic(auto, unfolding(crate::specs::Acts::crash_event, crate::specs::Acts::crash_of))]
fn crash(counts: Counts, words: &mut Parts<'_>) -> Result<Event, Reason>
    ensures { Reads (crash_event counts) (λ e. e) words.old words.new result }
{
    let node = node(words, ALL_NODES, counts)?;
    if has_disk(node) {
        let pick = number(words, 0, 3)? as u8;
        Ok(Event::CrashDisk { node, pick })
    } else {
        Ok(Event::Crash { node })
    }
}

#[tactic(auto, unfolding(crate::specs::Acts::restart_event))]
fn restart(counts: Counts, words: &mut Parts<'_>) -> Result<Event, Reason>
    ensures { Reads (restart_event counts) (λ e. e) words.old words.new result }
{
    let node = node(words, ALL_NODES, counts)?;
    Ok(Event::Restart { node })
}

#[tactic(auto, unfolding(crate::specs::Acts::stop_event))]
fn stop(counts: Counts, words: &mut Parts<'_>) -> Result<Event, Reason>
    ensures { Reads (stop_event counts) (λ e. e) words.old words.new result }
{
    let node = node(words, DISK_NODES, counts)?;
    let calls = number(words, 0, 4_294_967_295)? as u32;
    let pick = number(words, 0, 3)? as u8;
    Ok(Event::Stop { node, calls, pick })
}

#[tactic(auto, unfolding(crate::specs::Acts::fail_event))]
fn fail(counts: Counts, words: &mut Parts<'_>) -> Result<Event, Reason>
    ensures { Reads (fail_event counts) (λ e. e) words.old words.new result }
{
    let node = node(words, DISK_NODES, counts)?;
    let call = number(words, 1, 4_294_967_295)? as u32;
    Ok(Event::Fail { node, call })
}

/// The event of a line that begins with this word: Word, where none does.
pub fn event(first: FirstWord, counts: Counts, words: &mut Parts<'_>) -> Result<Event, Reason>
    ensures { Reads (event_at first counts) (λ e. e) words.old words.new result }
{
    match first {
        FirstWord::Act => act(counts, words),
        FirstWord::Deliver => deliver(words),
        FirstWord::Drain => Ok(Event::Drain),
        FirstWord::Timeout => timeout(counts, words),
        FirstWord::Wake => wake(counts, words),
        FirstWord::Tick => tick(words),
        FirstWord::Crash => crash(counts, words),
        FirstWord::Restart => restart(counts, words),
        FirstWord::Stop => stop(counts, words),
        FirstWord::Fail => fail(counts, words),
        _ => Err(Reason::Word),
    }
}
