//! A script is made for a number and played, and its summary is written.

ghost use Rattle.std.specs.Prelude.{◌≤◌, ◌⊎◌, ℕ};
ghost use Rattle.afs_disk.specs.declared.bank.Place.TheVariants.{Memory};
ghost use Rattle.afs_generate.specs.Generated.{generated};
ghost use Rattle.afs_command.specs.Spans.{span};
ghost use Rattle.afs_cell.specs.Made.{EndsMade};
ghost use Rattle.afs_cell.specs.Replays.{LendingLeaves, SetUpLeaves};
ghost use Rattle.afs_top.specs.Made.{IsUnmade};

use afs_cell::play_made;
use afs_command::statuses::Status;
use afs_disk::Bank;
use afs_generate::generate::generate;
use afs_generate::laws::generated_are_of_cells;
use afs_outside::outside::Sink;
use std::alloc::Global;

/// Makes the script for a number from 1 to 1,000 and plays it, over disks in memory. What is written is its summary.
pub fn make_and_play<K: Sink, B: Bank<D: Drop>>(
    alloc: Global,
    number: u32,
    sink: &mut K,
    bank: &mut B,
) -> Status
    requires { number ≤ 1000 }
    ensures { IsUnmade (record { sink = span (K.held sink.old) (K.held sink.new); passed = K.passed sink.new; lends = span (B.lends bank.old) (B.lends bank.new); given = span (B.given bank.old) (B.given bank.new); sink_faults = span (K.faults sink.old) (K.faults sink.new); bank_faults = span (B.faults bank.old) (B.faults bank.new); disk_faults = λ (n : ℕ). span (B.lent_faults bank.old n) (B.lent_faults bank.new n) }) result ⊎ EndsMade number (generated number) (B.tells bank.old Memory) (SetUpLeaves B.D.seen B.D.may_leave B.D.faults (generated number) (record { sink = span (K.held sink.old) (K.held sink.new); passed = K.passed sink.new; lends = span (B.lends bank.old) (B.lends bank.new); given = span (B.given bank.old) (B.given bank.new); sink_faults = span (K.faults sink.old) (K.faults sink.new); bank_faults = span (B.faults bank.old) (B.faults bank.new); disk_faults = λ (n : ℕ). span (B.lent_faults bank.old n) (B.lent_faults bank.new n) })) (LendingLeaves B.D.seen B.D.faults B.D.limit (generated number) (record { sink = span (K.held sink.old) (K.held sink.new); passed = K.passed sink.new; lends = span (B.lends bank.old) (B.lends bank.new); given = span (B.given bank.old) (B.given bank.new); sink_faults = span (K.faults sink.old) (K.faults sink.new); bank_faults = span (B.faults bank.old) (B.faults bank.new); disk_faults = λ (n : ℕ). span (B.lent_faults bank.old n) (B.lent_faults bank.new n) })) (record { sink = span (K.held sink.old) (K.held sink.new); passed = K.passed sink.new; lends = span (B.lends bank.old) (B.lends bank.new); given = span (B.given bank.old) (B.given bank.new); sink_faults = span (K.faults sink.old) (K.faults sink.new); bank_faults = span (B.faults bank.old) (B.faults bank.new); disk_faults = λ (n : ℕ). span (B.lent_faults bank.old n) (B.lent_faults bank.new n) }) result }
{
    generated_are_of_cells();
    match generate(alloc, number) {
        Ok(script) => play_made(alloc, number, &script, sink, bank),
        Err(_) => Status::OutOfMemory,
    }
}
