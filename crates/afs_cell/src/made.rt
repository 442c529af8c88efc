//! A script that was made for a number is played, and its summary is written.

ghost use Rattle.std.specs.Prelude.{◌≡◌, ℕ, length};
ghost use Rattle.afs_disk.specs.declared.bank.Place.TheVariants.{Memory};
ghost use Rattle.afs_grammar.specs.CellScripts.{IsCellScript};
ghost use Rattle.afs_command.specs.Spans.{span};
ghost use Rattle.afs_summary.specs.Summary.{summary_text};
ghost use Rattle.afs_cell.specs.Replays.{LendingLeaves, SetUpLeaves};
ghost use Rattle.afs_cell.specs.Since.{IsWorldSince};
ghost use Rattle.afs_cell.specs.Steps.{IsFirst};
ghost use Rattle.afs_cell.specs.Worlds.{AllTell, IsWorld};
ghost use Rattle.afs_cell.specs.Counted.{Finishes, IsCounted, IsLeftBehind, Sums, SumsUp};
ghost use Rattle.afs_cell.specs.Made.{EndsMade};

use crate::playing::Played;
use crate::replaying::status_of_setup;
use crate::setup::set_up;
use crate::world::World;
use afs_command::statuses::Status;
use afs_disk::{Bank, Disk, Disks, Place};
use afs_lending::telling::{give_up, returned, status_of_lend};
use afs_lending::{give_back_all, lend_all};
use afs_outside::outside::{Failed, Sink};
use afs_summary::counts::{Counts, counted_on};
use afs_summary::summary::{Summary, put_summary};
use spec_history::scripts::Script;
use std::alloc::Global;

/// How a script was played: to its end; as far as a history may go, and an event is left; or memory ran out.
#[derive(Clone, Copy, Debug)]
pub(crate) enum Ended {
    All,
    Limit,
    OutOfMemory,
}

/// And what its history counts, as far as it goes. There is none where a number would be too long for its place.
#[derive(Drop)]
pub(crate) struct Counted<W> {
    pub(crate) world: W,
    pub(crate) ended: Ended,
    pub(crate) counts: Option<Counts>,
}

/// Plays the schedule of a cell at set-up. Each entry is counted as it comes, and let go.
fn play<'a, D: Disk>(world: World<'a, D>) -> Counted<World<'a, D>>
    requires world { IsWorld D.seen D.may_leave D.faults D.limit world.script world }
    requires first { IsFirst D.seen D.may_leave D.limit world.script world }
    ensures { IsCounted D.seen D.may_leave D.faults D.limit world.entry.script (AllTell D.seen world.entry) result }
{
    let mut world = world;
    let mut schedule = world.schedule();
    let mut counts = Some(Counts::new());
    loop {
        match world.play_next(&mut schedule) {
            Played::Event => {
                counts = counted_on(counts, world.history());
                world.let_go(schedule.settled());
            }
            Played::All => {
                return Counted {
                    world,
                    ended: Ended::All,
                    counts,
                };
            }
            Played::Limit => {
                return Counted {
                    world,
                    ended: Ended::Limit,
                    counts,
                };
            }
            Played::OutOfMemory => {
                return Counted {
                    world,
                    ended: Ended::OutOfMemory,
                    counts,
                };
            }
        }
    }
}

/// Writes a summary, and passes it on.
fn tell<K: Sink>(sink: &mut K, summary: &Summary) -> Status
    ensures { Sums (summary_text summary.now) (span (K.held sink.old) (K.held sink.new)) (K.passed sink.new) (span (K.faults sink.old) (K.faults sink.new)) result }
{
    match put_summary(sink, summary) {
        Ok(()) => Status::Done,
        Err(Failed) => Status::WriteFault,
    }
}

/// The summary is written, and the disks are given back.
fn sum_up<K: Sink, B: Bank<D: Drop>>(
    world: World<'_, B::D>,
    summary: &Summary,
    sink: &mut K,
    bank: &mut B,
) -> Status
    requires world { IsWorldSince B.D.seen B.D.may_leave B.D.faults B.D.limit world }
    ensures sums { SumsUp B.D.seen world.entry (summary_text summary.now) (record { sink = span (K.held sink.old) (K.held sink.new); passed = K.passed sink.new; lends = span (B.lends bank.old) (B.lends bank.new); given = span (B.given bank.old) (B.given bank.new); sink_faults = span (K.faults sink.old) (K.faults sink.new); bank_faults = span (B.faults bank.old) (B.faults bank.new); disk_faults = λ (n : ℕ). span (B.lent_faults bank.old n) (B.lent_faults bank.new n) }) result }
    ensures left { IsLeftBehind B.D.seen B.D.may_leave B.D.faults B.D.limit world.entry (span (B.given bank.old) (B.given bank.new)) (span (B.faults bank.old) (B.faults bank.new)) (λ (n : ℕ). span (B.lent_faults bank.old n) (B.lent_faults bank.new n)) }
    ensures lends { B.lends bank.new ≡ B.lends bank.old }
{
    let disks = world.end();
    let told = tell(sink, summary);
    let taken = give_back_all(bank, disks);
    returned(told, taken)
}

/// Nothing is written, and the disks are given back.
fn leave<B: Bank<D: Drop>>(world: World<'_, B::D>, bank: &mut B, status: Status) -> Status
    requires world { IsWorldSince B.D.seen B.D.may_leave B.D.faults B.D.limit world }
    ensures status { result ≡ status }
    ensures left { IsLeftBehind B.D.seen B.D.may_leave B.D.faults B.D.limit world.entry (span (B.given bank.old) (B.given bank.new)) (span (B.faults bank.old) (B.faults bank.new)) (λ (n : ℕ). span (B.lent_faults bank.old n) (B.lent_faults bank.new n)) }
    ensures lends { B.lends bank.new ≡ B.lends bank.old }
{
    let disks = world.end();
    give_up(bank, disks, status)
}

/// The summary of a run of this script, which was made for this number.
fn summary_of(number: u32, script: &Script, counts: Counts) -> Summary
    ensures { result ≡ record { number = number; acts = length script.now.tasks; counts = counts } }
{
    Summary {
        number,
        acts: script.tasks.len() as u64,
        counts,
    }
}

/// A play is over: where all of it was counted its summary is written, and the disks are given back.
fn finish<K: Sink, B: Bank<D: Drop>>(
    number: u32,
    script: &Script,
    played: Counted<World<'_, B::D>>,
    sink: &mut K,
    bank: &mut B,
) -> Status
    requires world { IsWorldSince B.D.seen B.D.may_leave B.D.faults B.D.limit played.world }
    ensures how { Finishes B.D.seen number (length script.now.tasks) played.entry (record { sink = span (K.held sink.old) (K.held sink.new); passed = K.passed sink.new; lends = span (B.lends bank.old) (B.lends bank.new); given = span (B.given bank.old) (B.given bank.new); sink_faults = span (K.faults sink.old) (K.faults sink.new); bank_faults = span (B.faults bank.old) (B.faults bank.new); disk_faults = λ (n : ℕ). span (B.lent_faults bank.old n) (B.lent_faults bank.new n) }) result }
    ensures left { IsLeftBehind B.D.seen B.D.may_leave B.D.faults B.D.limit played.entry.world (span (B.given bank.old) (B.given bank.new)) (span (B.faults bank.old) (B.faults bank.new)) (λ (n : ℕ). span (B.lent_faults bank.old n) (B.lent_faults bank.new n)) }
    ensures lends { B.lends bank.new ≡ B.lends bank.old }
{
    let Counted {
        world,
        ended,
        counts,
    } = played;
    match ended {
        Ended::All => match counts {
            Some(counts) => sum_up(world, &summary_of(number, script, counts), sink, bank),
            None => leave(world, bank, Status::OutOfMemory),
        },
        Ended::Limit => leave(world, bank, Status::Limit),
        Ended::OutOfMemory => leave(world, bank, Status::OutOfMemory),
    }
}

/// Plays a script that was made for a number, over disks in memory, and writes its summary.
pub fn play_made<K: Sink, B: Bank<D: Drop>>(
    alloc: Global,
    number: u32,
    script: &Script,
    sink: &mut K,
    bank: &mut B,
) -> Status
    requires script { IsCellScript script.now }
    ensures { EndsMade number script.now (B.tells bank.old Memory) (SetUpLeaves B.D.seen B.D.may_leave B.D.faults script.now (record { sink = span (K.held sink.old) (K.held sink.new); passed = K.passed sink.new; lends = span (B.lends bank.old) (B.lends bank.new); given = span (B.given bank.old) (B.given bank.new); sink_faults = span (K.faults sink.old) (K.faults sink.new); bank_faults = span (B.faults bank.old) (B.faults bank.new); disk_faults = λ (n : ℕ). span (B.lent_faults bank.old n) (B.lent_faults bank.new n) })) (LendingLeaves B.D.seen B.D.faults B.D.limit script.now (record { sink = span (K.held sink.old) (K.held sink.new); passed = K.passed sink.new; lends = span (B.lends bank.old) (B.lends bank.new); given = span (B.given bank.old) (B.given bank.new); sink_faults = span (K.faults sink.old) (K.faults sink.new); bank_faults = span (B.faults bank.old) (B.faults bank.new); disk_faults = λ (n : ℕ). span (B.lent_faults bank.old n) (B.lent_faults bank.new n) })) (record { sink = span (K.held sink.old) (K.held sink.new); passed = K.passed sink.new; lends = span (B.lends bank.old) (B.lends bank.new); given = span (B.given bank.old) (B.given bank.new); sink_faults = span (K.faults sink.old) (K.faults sink.new); bank_faults = span (B.faults bank.old) (B.faults bank.new); disk_faults = λ (n : ℕ). span (B.lent_faults bank.old n) (B.lent_faults bank.new n) }) result }
{
    let disks = match lend_all(
        alloc,
        bank,
        &Place::Memory,
        0,
        script.servers + 1,
        script.capacity,
    ) {
        Ok(disks) => disks,
        Err((fault, disks)) => return give_up(bank, disks, status_of_lend(fault)),
    };
    let world = match set_up(alloc, script, disks) {
        Ok(world) => world,
        Err((fault, disks)) => return give_up(bank, disks, status_of_setup(fault)),
    };
    let played = play(world);
    finish(number, script, played, sink, bank)
}
