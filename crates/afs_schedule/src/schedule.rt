//! The events of a schedule, one after the other, with each drain as its deliveries.

ghost use Rattle.std.specs.Prelude.{◌≡◌, ◌≤◌, ◌<◌, ℕ, List, [], ◌∷◌, Option, None, IfNone, IfOk, IfSome, OnErr, OnOk};
ghost use Rattle.std.specs.List.{list_any};
ghost use Rattle.std.specs.Option.{option_map};
ghost use Rattle.spec_history.specs.declared.scripts.Event.TheVariants as event;
ghost use Rattle.afs_schedule.specs.Schedules.{first_of, lowest, named_by, next_event};
ghost use Rattle.afs_schedule.specs.Named.{has, IsClosed, IsNamed};
ghost use Rattle.afs_schedule.specs.Settled.{is_deliver, places_settled, IsBehind};
ghost use Rattle.afs_schedule.specs.Taking.{IsLeft, Takes};

use afs_num::types::Mem;
use spec_history::scripts::Event;
use std::alloc::Global;
use std::collections::BTreeSet;

/// The places that delivers named: all from 1 to `first`, and those of the set.
#[derive(Drop)]
pub struct Named {
    first: u64,
    above: BTreeSet<u64>,
}

impl Named {
    fn new(alloc: Global) -> Named
        ensures { IsNamed result [] }
    {
        Named {
            first: 0,
            above: BTreeSet::new(alloc),
        }
    }

    /// A deliver names this place.
    fn name(&mut self, place: u64) -> Mem<()>
        ensures ok { (named : List ℕ) → IsNamed self.old named → OnOk result (IsNamed self.new (place ∷ named)) }
        ensures grows { self.old.first ≤ self.new.first }
        ensures err { OnErr result (self.new ≡ self.old) }
    {
        if place <= self.first {
            return Ok(());
        }
        if self.above.is_empty() && place == self.first + 1 {
            self.first = place;
            return Ok(());
        }
        self.above.insert(place)?;
        self.close_gap();
        Ok(())
    }

    /// An event comes; if it is a deliver, it names its place.
    fn comes(&mut self, event: Event) -> Mem<()>
        ensures ok { (named : List ℕ) → IsNamed self.old named → OnOk result (IsNamed self.new (named_by event named)) }
        ensures grows { self.old.first ≤ self.new.first }
        ensures err { OnErr result (self.new ≡ self.old) }
    {
        match event {
            Event::Deliver { place } => self.name(place),
            _ => Ok(()),
        }
    }

    /// The places of the set that follow the first ones without a gap are among these from now on.
    fn close_gap(&mut self)
        ensures closed { IsClosed self.new }
        ensures same { (place : ℕ) → 1 ≤ place → has self.new place ≡ has self.old place }
        ensures grows { self.old.first ≤ self.new.first }
    {
        while self.first < u64::MAX && self.above.remove(&(self.first + 1)) {
            self.first += 1;
        }
    }

    /// The lowest place that none named, of so many to which something was sent.
    fn waiting(&self, sent: u64) -> Option<u64>
        ensures lowest { (named : List ℕ) → IsNamed self.now named → result ≡ lowest sent 1 named }
        ensures above { IfSome result (λ place. self.now.first < place) }
    {
        if self.first < sent {
            Some(self.first + 1)
        } else {
            None
        }
    }
}

/// The first event, and those behind it.
fn first(events: &[Event]) -> Option<(Event, &[Event])>
    ensures { option_map (λ r. (r.0, r.1.now)) result ≡ first_of events.now }
{
    match events {
        [event, rest @ ..] => Some((*event, rest)),
        [] => None,
    }
}

/// The events behind a drain, if that comes first.
fn behind_drain(events: &[Event]) -> Option<&[Event]>
    ensures some { IfSome result (λ rest. events.now ≡ event.Drain ∷ rest.now) }
    ensures none { IfNone result ((low : Option ℕ) → next_event low events.now ≡ first_of events.now) }
{
    match events {
        [Event::Drain, rest @ ..] => Some(rest),
        _ => None,
    }
}

/// The events behind all drains with which they begin.
fn behind_drains(events: &[Event]) -> &[Event]
    ensures { first_of result.now ≡ next_event None events.now }
{
    let mut left = events;
    while let Some(rest) = behind_drain(left) {
        left = rest;
    }
    left
}

/// The event that comes next, and what is left then, where this place waits for its delivery.
fn upcoming(events: &[Event], waiting: Option<u64>) -> Option<(Event, &[Event])>
    ensures { option_map (λ r. (r.0, r.1.now)) result ≡ next_event waiting events.now }
{
    match (behind_drain(events), waiting) {
        (Some(_), Some(place)) => Some((Event::Deliver { place }, events)),
        _ => first(behind_drains(events)),
    }
}

/// Whether an event is a deliver, which names a place by itself.
fn is_deliver(event: Event) -> bool
    ensures { result ≡ is_deliver event }
{
    match event {
        Event::Deliver { place: _ } => true,
        _ => false,
    }
}

/// Whether one of these events is a deliver.
fn have_deliver(events: &[Event]) -> bool
    ensures { result ≡ list_any is_deliver events.now }
{
    events.iter().any(|event| is_deliver(*event))
}

/// The events that are left, and the places that were named; and whether a deliver may be left, so that a place is named again.
#[derive(Drop)]
pub struct Schedule<'a> {
    events: &'a [Event],
    named: Named,
    names_again: bool,
}

impl<'a> Schedule<'a> {
    /// All these events, before any.
    pub fn new(alloc: Global, events: &'a [Event]) -> Schedule<'a>
        ensures { IsLeft result events.entry.now [] }
    {
        Schedule {
            events,
            named: Named::new(alloc),
            names_again: have_deliver(events),
        }
    }

    /// So many places, from the first on, were named, and no event that is left names one of them.
    pub fn settled(&self) -> u64
        ensures { result ≡ places_settled self.now }
    {
        if self.names_again {
            return 0;
        }
        self.named.first
    }

    /// The event that comes next, after so many messages were sent. A drain gives the lowest place that was never named, and ends
    /// where there is none.
    pub fn next(&mut self, sent: u64) -> Mem<Option<Event>>
        ensures ok { IfOk result (Takes sent self.old self.new) }
        ensures behind { IfOk result (IsBehind self.old self.new) }
        ensures err { OnErr result (self.new ≡ self.old) }
    {
        let Some((event, rest)) = upcoming(self.events, self.named.waiting(sent)) else {
            return Ok(None);
        };
        self.named.comes(event)?;
        self.events = rest;
        Ok(Some(event))
    }
}
