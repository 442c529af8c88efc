//! A script is played over the disks of its nodes, and its history is written.

ghost use Rattle.std.specs.Prelude.{◌≡◌, ◌≤◌, ◌+◌, ℕ, List, Bool, Option, length, false};
ghost use Rattle.afs_grammar.specs.CellScripts.{IsCellScript};
ghost use Rattle.afs_cell.specs.Since.{whole, IsWorldSince};
ghost use Rattle.afs_cell.specs.Steps.{HasPlayedAll, HasPlayedFirst, HasPlayedSome};
ghost use Rattle.afs_cell.specs.Lends.{LentTell};
ghost use Rattle.afs_cell.specs.Worlds.{most_history_entries, AllTell, HistoryTold};
ghost use Rattle.afs_lending.specs.Lending.{AreUnused, AreLent};
ghost use Rattle.afs_command.specs.Spans.{span};
ghost use Rattle.afs_cell.specs.Refusing.{set_up_status};
ghost use Rattle.afs_cell.specs.Writing.{IsWritten};
ghost use Rattle.afs_cell.specs.Replays.{EndsReplay, EndsRun, LendingLeaves, SetUpLeaves};

use crate::faults::SetupFault;
use crate::setup::set_up;
use crate::world::World;
use crate::writing::{Ended, Told, play};
use afs_command::statuses::Status;
use afs_disk::{Bank, Disk, Disks, LendFault, Place};
use afs_lending::telling::{give_up, put_no_more, returned, status_of_lend, tell_left, tell_none};
use afs_lending::{give_back, lend_all};
use afs_outside::outside::{Failed, Sink};
use spec_history::scripts::Script;
use std::alloc::Global;

/// The status where the cell wasn't set up.
pub fn status_of_setup(fault: SetupFault) -> Status
    ensures { result ≡ set_up_status fault }
{
    match fault {
        SetupFault::Disk(_) => Status::BankFault,
        SetupFault::OutOfMemory => Status::OutOfMemory,
    }
}

/// A script that was played to its end is told, with what its disks keep, and they are given back.
fn end<K: Sink, B: Bank<D: Drop>>(
    alloc: Global,
    world: World<'_, B::D>,
    written: Result<(), Failed>,
    sink: &mut K,
    bank: &mut B,
) -> Status
    requires world { IsWorldSince B.D.seen B.D.may_leave B.D.faults B.D.limit world }
    requires going { world.is_lost ≡ false }
    ensures ends { (wire : Bool) (start : Option (List ℕ)) (count : ℕ) (gone : HistoryTold) → IsWritten B.D.seen B.D.may_leave B.D.faults B.D.limit wire start count gone world.entry (K.held sink.old) (K.faults sink.old) written → EndsRun world.entry.script wire (AllTell B.D.seen world.entry × HasPlayedAll B.D.seen B.D.may_leave B.D.faults B.D.limit world.entry.script (whole gone world.entry)) ⊥ (record { sink = span start (K.held sink.new); passed = K.passed sink.new; lends = span (B.lends bank.old) (B.lends bank.new); given = span (B.given bank.old) (B.given bank.new); sink_faults = span count (K.faults sink.new); bank_faults = span (B.faults bank.old) (B.faults bank.new); disk_faults = λ (n : ℕ). span (B.lent_faults bank.old n) (B.lent_faults bank.new n) }) result }
    ensures lends { B.lends bank.new ≡ B.lends bank.old }
    ensures never_falls { B.faults bank.old ≤ B.faults bank.new }
{
    let (database, left) = match world.read_at_end() {
        Ok(read) => read,
        Err(disks) => {
            let status = tell_none(sink, written, LendFault::OutOfMemory);
            return give_up(bank, disks, status);
        }
    };
    let status = tell_left(alloc, sink, left.as_slice(), written);
    let taken = give_back(bank, database, left);
    returned(status, taken)
}

/// A history that went as far as one may is passed on, and the disks are given back.
fn cut<K: Sink, B: Bank<D: Drop>>(
    world: World<'_, B::D>,
    written: Result<(), Failed>,
    sink: &mut K,
    bank: &mut B,
) -> Status
    requires world { IsWorldSince B.D.seen B.D.may_leave B.D.faults B.D.limit world }
    requires going { world.is_lost ≡ false }
    requires full { world.gone.entries + length world.history ≡ most_history_entries }
    ensures ends { (wire : Bool) (start : Option (List ℕ)) (count : ℕ) (gone : HistoryTold) → IsWritten B.D.seen B.D.may_leave B.D.faults B.D.limit wire start count gone world.entry (K.held sink.old) (K.faults sink.old) written → EndsRun world.entry.script wire (AllTell B.D.seen world.entry × HasPlayedFirst B.D.seen B.D.may_leave B.D.faults B.D.limit world.entry.script (whole gone world.entry)) ⊥ (record { sink = span start (K.held sink.new); passed = K.passed sink.new; lends = span (B.lends bank.old) (B.lends bank.new); given = span (B.given bank.old) (B.given bank.new); sink_faults = span count (K.faults sink.new); bank_faults = span (B.faults bank.old) (B.faults bank.new); disk_faults = λ (n : ℕ). span (B.lent_faults bank.old n) (B.lent_faults bank.new n) }) result }
    ensures lends { B.lends bank.new ≡ B.lends bank.old }
    ensures never_falls { B.faults bank.old ≤ B.faults bank.new }
{
    let disks = world.end();
    // The status stands already; that the sink failed is counted.
    let _passed = put_no_more(sink, written);
    give_up(bank, disks, Status::Limit)
}

/// Memory ran out: the disks are given back.
fn give_in<K: Sink, B: Bank<D: Drop>>(
    world: World<'_, B::D>,
    written: Result<(), Failed>,
    sink: &mut K,
    bank: &mut B,
) -> Status
    requires world { IsWorldSince B.D.seen B.D.may_leave B.D.faults B.D.limit world }
    ensures ends { (wire : Bool) (start : Option (List ℕ)) (count : ℕ) (gone : HistoryTold) → IsWritten B.D.seen B.D.may_leave B.D.faults B.D.limit wire start count gone world.entry (K.held sink.old) (K.faults sink.old) written → EndsRun world.entry.script wire (AllTell B.D.seen world.entry × HasPlayedSome B.D.seen B.D.may_leave B.D.faults B.D.limit world.entry.script (whole gone world.entry)) ⊥ (record { sink = span start (K.held sink.new); passed = K.passed sink.new; lends = span (B.lends bank.old) (B.lends bank.new); given = span (B.given bank.old) (B.given bank.new); sink_faults = span count (K.faults sink.new); bank_faults = span (B.faults bank.old) (B.faults bank.new); disk_faults = λ (n : ℕ). span (B.lent_faults bank.old n) (B.lent_faults bank.new n) }) result }
    ensures lends { B.lends bank.new ≡ B.lends bank.old }
    ensures never_falls { B.faults bank.old ≤ B.faults bank.new }
{
    let disks = world.end();
    // The status stands already; that the sink failed is counted.
    let _passed = put_no_more(sink, written);
    give_up(bank, disks, Status::OutOfMemory)
}

/// The script's cell is set up over these disks and played to its end.
fn replay_over<K: Sink, B: Bank<D: Drop>>(
    alloc: Global,
    script: &Script,
    disks: Disks<B::D>,
    wire: bool,
    sink: &mut K,
    bank: &mut B,
) -> Status
    requires script { IsCellScript script.now }
    requires lent { AreLent B.D.limit script.now.capacity 0 disks }
    requires all { length disks ≡ script.now.servers + 1 }
    requires unused { AreUnused B.D.faults disks }
    ensures ends { EndsRun script.now wire (LentTell B.D.seen disks) (SetUpLeaves B.D.seen B.D.may_leave B.D.faults script.now (record { sink = span (K.held sink.old) (K.held sink.new); passed = K.passed sink.new; lends = span (B.lends bank.old) (B.lends bank.new); given = span (B.given bank.old) (B.given bank.new); sink_faults = span (K.faults sink.old) (K.faults sink.new); bank_faults = span (B.faults bank.old) (B.faults bank.new); disk_faults = λ (n : ℕ). span (B.lent_faults bank.old n) (B.lent_faults bank.new n) })) (record { sink = span (K.held sink.old) (K.held sink.new); passed = K.passed sink.new; lends = span (B.lends bank.old) (B.lends bank.new); given = span (B.given bank.old) (B.given bank.new); sink_faults = span (K.faults sink.old) (K.faults sink.new); bank_faults = span (B.faults bank.old) (B.faults bank.new); disk_faults = λ (n : ℕ). span (B.lent_faults bank.old n) (B.lent_faults bank.new n) }) result }
    ensures lends { B.lends bank.new ≡ B.lends bank.old }
    ensures never_falls { B.faults bank.old ≤ B.faults bank.new }
{
    let world = match set_up(alloc, script, disks) {
        Ok(world) => world,
        Err((fault, disks)) => return give_up(bank, disks, status_of_setup(fault)),
    };
    let Told {
        world,
        ended,
        written,
    } = play(world, wire, sink);
    match ended {
        Ended::All => end(alloc, world, written, sink, bank),
        Ended::Limit => cut(world, written, sink, bank),
        Ended::OutOfMemory => give_in(world, written, sink, bank),
    }
}

/// Plays the script over disks of this place, and writes its text, with the bytes of each message where `wire` asks for them.
pub fn replay<K: Sink, B: Bank<D: Drop>>(
    alloc: Global,
    script: &Script,
    wire: bool,
    place: &Place,
    sink: &mut K,
    bank: &mut B,
) -> Status
    requires script { IsCellScript script.now }
    ensures { EndsReplay script.now wire place.now (B.tells bank.old place.now) (SetUpLeaves B.D.seen B.D.may_leave B.D.faults script.now (record { sink = span (K.held sink.old) (K.held sink.new); passed = K.passed sink.new; lends = span (B.lends bank.old) (B.lends bank.new); given = span (B.given bank.old) (B.given bank.new); sink_faults = span (K.faults sink.old) (K.faults sink.new); bank_faults = span (B.faults bank.old) (B.faults bank.new); disk_faults = λ (n : ℕ). span (B.lent_faults bank.old n) (B.lent_faults bank.new n) })) (LendingLeaves B.D.seen B.D.faults B.D.limit script.now (record { sink = span (K.held sink.old) (K.held sink.new); passed = K.passed sink.new; lends = span (B.lends bank.old) (B.lends bank.new); given = span (B.given bank.old) (B.given bank.new); sink_faults = span (K.faults sink.old) (K.faults sink.new); bank_faults = span (B.faults bank.old) (B.faults bank.new); disk_faults = λ (n : ℕ). span (B.lent_faults bank.old n) (B.lent_faults bank.new n) })) (record { sink = span (K.held sink.old) (K.held sink.new); passed = K.passed sink.new; lends = span (B.lends bank.old) (B.lends bank.new); given = span (B.given bank.old) (B.given bank.new); sink_faults = span (K.faults sink.old) (K.faults sink.new); bank_faults = span (B.faults bank.old) (B.faults bank.new); disk_faults = λ (n : ℕ). span (B.lent_faults bank.old n) (B.lent_faults bank.new n) }) result }
{
    match lend_all(alloc, bank, place, 0, script.servers + 1, script.capacity) {
        Ok(disks) => replay_over(alloc, script, disks, wire, sink, bank),
        Err((fault, disks)) => give_up(bank, disks, status_of_lend(fault)),
    }
}
