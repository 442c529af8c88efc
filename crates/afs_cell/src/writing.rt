//! A script is played, and its history is written as it goes.

ghost use Rattle.std.specs.Prelude.{◌≡◌, ◌≤◌, ◌+◌, ◌-◌, drop, length};
ghost use Rattle.afs_cell.specs.Steps.{IsFirst};
ghost use Rattle.afs_cell.specs.Worlds.{most_history_entries, AllTell, IsWorld};
ghost use Rattle.afs_text.specs.KeptText.{kept_entries_text};
ghost use Rattle.afs_text.specs.Telling.{sent_by};
ghost use Rattle.afs_cell.specs.Writing.{HistoryIsWritten};
ghost use Rattle.afs_lending.specs.Behind.{PutsBehind};

use crate::playing::Played;
use crate::world::World;
use afs_disk::Disk;
use afs_outside::outside::{Failed, Sink};
use afs_text::TextPiece;
use afs_text::histories::put_entries;

/// How a script was played: to its end; as far as a history may go, and an event is left; or memory ran out. And whether its
/// history was written, as far as it goes.
#[derive(Drop)]
pub(crate) struct Told<W> {
    pub(crate) world: W,
    pub(crate) ended: Ended,
    pub(crate) written: Result<(), Failed>,
}

#[derive(Clone, Copy, Debug)]
pub(crate) enum Ended {
    All,
    Limit,
    OutOfMemory,
}

/// Writes the entries that weren't let go, if all before them were written.
fn put_next<K: Sink, D: Disk>(
    sink: &mut K,
    piece: &mut TextPiece,
    world: &World<'_, D>,
    wire: bool,
    written: Result<(), Failed>,
) -> Result<(), Failed>
    requires few { world.now.gone.entries + length world.now.history ≤ most_history_entries }
    requires all { world.now.gone.sent + sent_by world.now.history ≡ world.now.gone.messages + length world.now.wire }
    ensures { PutsBehind (kept_entries_text wire (world.now.gone.entries + 1) (world.now.gone.sent + 1) (drop (world.now.gone.sent - world.now.gone.messages) world.now.wire) world.now.history) (K.held sink.old) (K.held sink.new) (K.faults sink.old) (K.faults sink.new) written result }
{
    written?;
    let parcels = world.parcels();
    let first_place = world.sent() - parcels.len() as u64 + 1;
    put_entries(
        sink,
        piece,
        world.entries_before() + 1,
        first_place,
        parcels,
        world.history(),
        wire,
    )
}

/// Plays the schedule of a cell at set-up. Each entry is written as it comes; where that fails, the others aren't, and the script is
/// played on.
pub(crate) fn play<'a, K: Sink, D: Disk>(
    world: World<'a, D>,
    wire: bool,
    sink: &mut K,
) -> Told<World<'a, D>>
    requires world { IsWorld D.seen D.may_leave D.faults D.limit world.script world }
    requires first { IsFirst D.seen D.may_leave D.limit world.script world }
    ensures { HistoryIsWritten D.seen D.may_leave D.faults D.limit world.entry.script wire (AllTell D.seen world.entry) (K.held sink.old) (K.held sink.new) (K.faults sink.old) (K.faults sink.new) result }
{
    let mut world = world;
    let mut schedule = world.schedule();
    let mut written = Ok(());
    let mut piece = TextPiece::new();
    loop {
        match world.play_next(&mut schedule) {
            Played::Event => {
                written = put_next(sink, &mut piece, &world, wire, written);
                world.let_go(schedule.settled());
            }
            Played::All => {
                return Told {
                    world,
                    ended: Ended::All,
                    written,
                };
            }
            Played::Limit => {
                return Told {
                    world,
                    ended: Ended::Limit,
                    written,
                };
            }
            Played::OutOfMemory => {
                return Told {
                    world,
                    ended: Ended::OutOfMemory,
                    written,
                };
            }
        }
    }
}
