//! The call that does all that the program does.

ghost use Rattle.std.specs.Prelude.{◌≡◌, ◌⊎◌, ◌+◌, ℕ, map, string_bytes};
ghost use Rattle.afs_outside.specs.Outside.{TakesAtMost};
ghost use Rattle.afs_command.specs.Forms.{HaveForm};
ghost use Rattle.afs_command.specs.Spans.{span, RoseBy};
ghost use Rattle.afs_lending.specs.Outside.{OneRose};
ghost use Rattle.afs_cell.specs.Replays.{LendingLeaves, SetUpLeaves};
ghost use Rattle.afs_top.specs.Top.{AskMade, CanPlay, Ends, IsBeforeReplay};

use crate::made::make_and_play;
use afs_arguments::arguments::form_of;
use afs_cell::replay;
use afs_command::scripts::script_in;
use afs_command::statuses::{Form, Status};
use afs_disk::Bank;
use afs_generate::laws::generated_are_of_cells;
use afs_grammar::laws::scripts_are_of_cells;
use afs_outside::outside::{Sink, Source};
use law_all::laws::runs_are_lawful;
use law_scripts::laws::volumes_are_in_cell;
use std::alloc::Global;

/// Plays the script that the source holds and writes its text to the sink, over disks that the bank lends. The words are those
/// behind the program's name: `replay`, with `--wire` where the bytes of each message are asked for, and `--disks DIR` where the disks
/// are to be files of that folder. The text is written as the script is played; where writing fails, the script is played on. The words
/// may be `gen` and a number, too: then the script that is made for that is played, and its summary is written.
pub fn cell_main<S: Source, K: Sink, B: Bank<D: Drop>>(
    alloc: Global,
    words: &[String],
    source: &mut S,
    sink: &mut K,
    bank: &mut B,
) -> Status
    ensures ends { Ends (map string_bytes words.now) (span (S.left source.old) (S.left source.new)) (span (S.faults source.old) (S.faults source.new)) (B.tells bank.old) (SetUpLeaves B.D.seen B.D.may_leave B.D.faults) (LendingLeaves B.D.seen B.D.faults B.D.limit) (record { sink = span (K.held sink.old) (K.held sink.new); passed = K.passed sink.new; lends = span (B.lends bank.old) (B.lends bank.new); given = span (B.given bank.old) (B.given bank.new); sink_faults = span (K.faults sink.old) (K.faults sink.new); bank_faults = span (B.faults bank.old) (B.faults bank.new); disk_faults = λ (n : ℕ). span (B.lent_faults bank.old n) (B.lent_faults bank.new n) }) result }

    // Where the words have no form, or the input can't be read or is no script, nothing was done outside.
    ensures quiet { IsBeforeReplay result → (sink.new ≡ sink.old) × (bank.new ≡ bank.old) }
    ensures unread { result ≡ Status.Usage → source.new ≡ source.old }
    ensures untouched { AskMade (map string_bytes words.now) → source.new ≡ source.old }
    ensures no_form { ¬ HaveForm (map string_bytes words.now) → result ≡ Status.Usage }

    // A script that meets no fault is played to its end, or memory or the length of its history ended that. Each made script is one.
    ensures complete { CanPlay (map string_bytes words.now) (S.left source.old) → ¬ RoseBy 1 (span (S.faults source.old) (S.faults source.new)) → ¬ RoseBy 1 (span (K.faults sink.old) (K.faults sink.new)) → ¬ RoseBy 1 (span (B.faults bank.old) (B.faults bank.new)) → ¬ OneRose (λ (n : ℕ). span (B.lent_faults bank.old n) (B.lent_faults bank.new n))
        → (result ≡ Status.Done) ⊎ ((result ≡ Status.OutOfMemory) ⊎ (result ≡ Status.Limit)) }

    // It takes no more than one byte above the most that a script may have.
    ensures stops { TakesAtMost (16777216 + 1) (S.left source.old) (S.left source.new) }
{
    runs_are_lawful();
    volumes_are_in_cell();
    scripts_are_of_cells();
    generated_are_of_cells();
    let (wire, place) = match form_of(alloc, words) {
        Ok(Some(Form::Replay { wire, place })) => (wire, place),
        Ok(Some(Form::Gen { number })) => return make_and_play(alloc, number, sink, bank),
        Ok(None) => return Status::Usage,
        Err(_) => return Status::OutOfMemory,
    };
    match script_in(alloc, source) {
        Ok(script) => replay(alloc, &script, wire, &place, sink, bank),
        Err(status) => status,
    }
}
