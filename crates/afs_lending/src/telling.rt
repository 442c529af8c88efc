//! What the disks keep is told behind a history, and the disks go back.

ghost use Rattle.std.specs.Prelude.{◌≡◌, ◌≤◌, ℕ, List, [], Option, None, length, map, IsErr, OnOk};
ghost use Rattle.afs_outside.specs.Outside.{Puts};
ghost use Rattle.afs_final.specs.Reading.{part};
ghost use Rattle.afs_final.specs.Reading as read;
ghost use Rattle.afs_final.specs.Telling.{final_of};
ghost use Rattle.afs_lending.specs.Lending.{with_faults, GoBack};
ghost use Rattle.afs_text.specs.FinalText.{final_text};
ghost use Rattle.afs_command.specs.Spans.{span};
ghost use Rattle.afs_lending.specs.Outside.{WritesText};
ghost use Rattle.afs_lending.specs.Parts.{lend_status, returned, TellsLeft};
ghost use Rattle.afs_lending.specs.Behind.{PutsBehind};

use crate::lending::give_back_all;
use afs_command::statuses::Status;
use afs_disk::{Bank, Disk, Disks, LendFault};
use afs_final::{Kept, Left, fault_in, put_final, told_of};
use afs_num::devices::Failed as BankFailed;
use afs_outside::outside::{Failed, Sink, pass_on};
use afs_volstore::VolStore;
use std::alloc::Global;

/// The status where a disk wasn't lent, or couldn't be read.
pub fn status_of_lend(fault: LendFault) -> Status
    ensures { result ≡ lend_status fault }
{
    match fault {
        LendFault::Failed => Status::BankFault,
        LendFault::OutOfMemory => Status::OutOfMemory,
    }
}

/// The status after the return of the disks: nothing is done where one of them wasn't taken.
pub fn returned(status: Status, taken: Result<(), BankFailed>) -> Status
    ensures { result ≡ returned status taken }
{
    match (status, taken) {
        (Status::Done, Err(_)) => Status::BankFault,
        (status, _) => status,
    }
}

/// The disks go back, and the program ends so, also where the bank doesn't take one of them.
pub fn give_up<B: Bank<D: Drop>>(bank: &mut B, disks: Disks<B::D>, status: Status) -> Status
    ensures status { result ≡ status }
    ensures back { GoBack B.D.seen disks (B.given bank.old) (B.given bank.new) (B.faults bank.old) (B.faults bank.new) }
    ensures faults { (n : ℕ) → B.lent_faults bank.new n ≡ with_faults B.D.faults disks n (B.lent_faults bank.old n) }
    ensures lends { B.lends bank.new ≡ B.lends bank.old }
    ensures never_falls { B.faults bank.old ≤ B.faults bank.new }
{
    let _taken = give_back_all(bank, disks);
    status
}

/// Writes what the disks keep after the history, and passes all on.
pub fn put_rest<K: Sink>(
    sink: &mut K,
    kept: &[Kept<'_>],
    written: Result<(), Failed>,
) -> Result<(), Failed>
    ensures all { OnOk result (K.passed sink.new ≡ K.held sink.new) }
    ensures puts { PutsBehind (final_of kept.now) (K.held sink.old) (K.held sink.new) (K.faults sink.old) (K.faults sink.new) written result }
{
    written?;
    put_final(sink, kept)?;
    pass_on(sink)
}

/// Passes on what was written, if all was.
pub fn put_no_more<K: Sink>(sink: &mut K, written: Result<(), Failed>) -> Result<(), Failed>
    ensures all { OnOk result (K.passed sink.new ≡ K.held sink.new) }
    ensures puts { PutsBehind [] (K.held sink.old) (K.held sink.new) (K.faults sink.old) (K.faults sink.new) written result }
{
    written?;
    pass_on(sink)
}

/// What the disks keep can't be told: the history is passed on.
pub fn tell_none<K: Sink>(sink: &mut K, written: Result<(), Failed>, why: LendFault) -> Status
    ensures status { result ≡ lend_status why }
    ensures written { (text : List ℕ) (start : Option (List ℕ)) (count : ℕ) → Puts text start (K.held sink.old) count (K.faults sink.old) written → WritesText (span start (K.held sink.new)) (K.passed sink.new) (span count (K.faults sink.new)) text }
{
    // The status stands already; that the sink failed is counted.
    let _passed = put_no_more(sink, written);
    status_of_lend(why)
}

/// What was found on the disks is told after the history, where that can be. Where the history wasn't written, nothing is made of it.
pub fn tell_left<K: Sink, D: Disk>(
    alloc: Global,
    sink: &mut K,
    left: &[Left<VolStore<D>, D>],
    written: Result<(), Failed>,
) -> Status
    requires few { length left.now ≤ 8 }
    ensures broken { read.fault_in left.now ≡ None → IsErr written → result ≡ Status.WriteFault }
    ensures told { (text : List ℕ) (start : Option (List ℕ)) (count : ℕ) → Puts text start (K.held sink.old) count (K.faults sink.old) written → TellsLeft written text (final_text (map part left.now)) (read.fault_in left.now) (span start (K.held sink.new)) (K.passed sink.new) (span count (K.faults sink.new)) result }
{
    if let Some(why) = fault_in(left) {
        return tell_none(sink, written, why);
    }
    if written.is_err() {
        return Status::WriteFault;
    }
    let Ok(kept) = told_of(alloc, left) else {
        return tell_none(sink, written, LendFault::OutOfMemory);
    };
    match put_rest(sink, kept.as_slice(), written) {
        Ok(()) => Status::Done,
        Err(Failed) => Status::WriteFault,
    }
}
