//! What the program does with its words and its streams.

ghost use Rattle.std.specs.Prelude.{◌≡◌, ◌⊎◌, ◌+◌, ℕ, map, string_bytes};
ghost use Rattle.afs_outside.specs.Outside.{Puts, TakesAtMost};
ghost use Rattle.afs_command.specs.Forms.{HaveForm};
ghost use Rattle.afs_command.specs.Spans.{span, RoseBy};
ghost use Rattle.afs_lending.specs.Outside.{OneRose};
ghost use Rattle.afs_command.specs.Statuses.{Shows, status_line, status_number};
ghost use Rattle.afs_cell.specs.Replays.{LendingLeaves, SetUpLeaves};
ghost use Rattle.afs_top.specs.Top.{AskMade, CanPlay, Ends, IsBeforeReplay};

use crate::cell::cell_main;
use afs_command::statuses::Status;
use afs_disk::Bank;
use afs_outside::outside::{Failed, Sink, Source, pass_on};
use afs_text::pieces::Print;
use std::alloc::Global;

/// How the program ended: its status, and the number with which the process ends.
#[derive(Drop)]
pub struct Ended {
    pub status: Status,
    pub number: u8,
}

/// Writes the line of a status and passes it on.
fn put_status<E: Sink>(errors: &mut E, status: Status) -> Result<(), Failed>
    ensures { Puts (status_line status) (E.held errors.old) (E.held errors.new) (E.faults errors.old) (E.faults errors.new) result }
{
    status.print(errors)?;
    pass_on(errors)
}

/// The program's end with this status: it is told on the stream of errors, as far as that takes it.
pub fn end_with<E: Sink>(errors: &mut E, status: Status) -> Ended
    ensures status { result.status ≡ status }
    ensures number { result.number ≡ status_number result.status }
    ensures told { Shows result.status (E.held errors.old) (E.held errors.new) (E.faults errors.old) (E.faults errors.new) }
{
    let _shown = put_status(errors, status);
    Ended {
        status,
        number: status.number(),
    }
}

/// All that the program does: the top call over its streams and the bank of its disks, and then its status on the stream of
/// errors, as far as that takes it.
pub fn run<S: Source, K: Sink, E: Sink, B: Bank<D: Drop>>(
    alloc: Global,
    words: &[String],
    source: &mut S,
    sink: &mut K,
    errors: &mut E,
    bank: &mut B,
) -> Ended
    ensures ends { Ends (map string_bytes words.now) (span (S.left source.old) (S.left source.new)) (span (S.faults source.old) (S.faults source.new)) (B.tells bank.old) (SetUpLeaves B.D.seen B.D.may_leave B.D.faults) (LendingLeaves B.D.seen B.D.faults B.D.limit) (record { sink = span (K.held sink.old) (K.held sink.new); passed = K.passed sink.new; lends = span (B.lends bank.old) (B.lends bank.new); given = span (B.given bank.old) (B.given bank.new); sink_faults = span (K.faults sink.old) (K.faults sink.new); bank_faults = span (B.faults bank.old) (B.faults bank.new); disk_faults = λ (n : ℕ). span (B.lent_faults bank.old n) (B.lent_faults bank.new n) }) result.status }
    ensures quiet { IsBeforeReplay result.status → (sink.new ≡ sink.old) × (bank.new ≡ bank.old) }
    ensures unread { result.status ≡ Status.Usage → source.new ≡ source.old }
    ensures untouched { AskMade (map string_bytes words.now) → source.new ≡ source.old }
    ensures no_form { ¬ HaveForm (map string_bytes words.now) → result.status ≡ Status.Usage }
    ensures complete { CanPlay (map string_bytes words.now) (S.left source.old) → ¬ RoseBy 1 (span (S.faults source.old) (S.faults source.new)) → ¬ RoseBy 1 (span (K.faults sink.old) (K.faults sink.new)) → ¬ RoseBy 1 (span (B.faults bank.old) (B.faults bank.new)) → ¬ OneRose (λ (n : ℕ). span (B.lent_faults bank.old n) (B.lent_faults bank.new n))
        → (result.status ≡ Status.Done) ⊎ ((result.status ≡ Status.OutOfMemory) ⊎ (result.status ≡ Status.Limit)) }
    ensures stops { TakesAtMost (16777216 + 1) (S.left source.old) (S.left source.new) }

    // The status is told: by its number, and by its line.
    ensures number { result.number ≡ status_number result.status }
    ensures told { Shows result.status (E.held errors.old) (E.held errors.new) (E.faults errors.old) (E.faults errors.new) }
{
    let status = cell_main(alloc, words, source, sink, bank);
    let ended = end_with(errors, status);
    Ended {
        status,
        number: ended.number,
    }
}
