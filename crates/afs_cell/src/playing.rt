//! The events of a schedule are played, one after the other.

ghost use Rattle.std.specs.Prelude.{◌≡◌, ◌≤◌, []};
ghost use Rattle.afs_schedule.specs.Schedules.{events_of};
ghost use Rattle.afs_schedule.specs.Settled.{places_settled};
ghost use Rattle.afs_schedule.specs.Taking.{IsLeft};
ghost use Rattle.afs_cell.specs.Since.{Keeps};
ghost use Rattle.afs_cell.specs.UnderWaySince.{GoesSoSince, IsUnderWaySince};
ghost use Rattle.afs_cell.specs.Worlds.{AllTell};

use crate::faults::WorldFault;
use crate::world::World;
use afs_disk::Disk;
use afs_schedule::Schedule;
use spec_history::scripts::{Event, Script};

/// How the next event went: it was played; none is left; one is, and the history is as long as one may be; or memory was wanting.
#[derive(Clone, Copy, Debug)]
pub enum Played {
    Event,
    All,
    Limit,
    OutOfMemory,
}

/// The events of the schedule; none without one.
fn events(script: &Script) -> &[Event]
    ensures { result.now ≡ events_of script.now }
{
    match &script.schedule {
        Some(events) => events.as_slice(),
        None => &[],
    }
}

impl<'a, D: Disk> World<'a, D> {
    /// The schedule of its script, before any event. It takes no memory.
    pub fn schedule(&self) -> Schedule<'a>
        ensures { IsLeft result (events_of self.now.script) [] }
    {
        Schedule::new(self.alloc, events(self.script))
    }

    /// Plays the next event of its schedule.
    pub fn play_next(&mut self, schedule: &mut Schedule) -> Played
        requires way { IsUnderWaySince D.seen D.may_leave D.faults D.limit self.old schedule.old }
        requires settled { self.old.gone.messages ≤ places_settled schedule.old }
        ensures goes { GoesSoSince D.seen D.may_leave D.faults D.limit self.old self.new schedule.old schedule.new result }
        ensures keeps { Keeps self.old self.new }
        ensures settled { places_settled schedule.old ≤ places_settled schedule.new }
        ensures tells { AllTell D.seen self.old → AllTell D.seen self.new }
    {
        let Ok(next) = schedule.next(self.sent()) else {
            return Played::OutOfMemory;
        };
        let Some(event) = next else {
            return Played::All;
        };
        match self.step(&event) {
            Ok(()) => Played::Event,
            Err(WorldFault::Limit) => Played::Limit,
            Err(WorldFault::OutOfMemory) => Played::OutOfMemory,
        }
    }
}
