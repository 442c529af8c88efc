//! Owed breaks, and how a step plans with them.

ghost use Rattle.std.specs.Prelude.{◌≡◌, filter, IfOk};
ghost use Rattle.std.specs.List.{All};
ghost use Rattle.spec_breaks.specs.Promises.{has_break, without_break};
ghost use Rattle.spec_rows.specs.Callbacks.{alls};
ghost use Rattle.afs_server_parts.specs.Turning.{breaks_left, IsBreakToNode};

use afs_num::sequences::Sequence;
use afs_num::types::Mem;
use spec_breaks::types::OwedBreak;
use std::alloc::Global;

/// Whether a break of this number is owed.
pub fn has_break(number: u32, owed: &[OwedBreak]) -> bool
    ensures { result ≡ has_break number owed.now }
{
    for one in owed {
        if one.number == number {
            return true;
        }
    }
    false
}

/// Those of the breaks that are still owed.
pub fn still_owed(
    alloc: Global,
    breaks: &[OwedBreak],
    owed: &[OwedBreak],
) -> Mem<Sequence<OwedBreak>>
    ensures { IfOk result (λ os. os ≡ filter (λ (o : OwedBreak). has_break o.number owed.now) breaks.now) }
{
    let mut left = Sequence::new(alloc);
    for one in breaks {
        if has_break(one.number, owed) {
            left.push(*one)?;
        }
    }
    Ok(left)
}

/// The break of this number ends.
fn end_break(owed: &mut Vec<OwedBreak>, number: u32)
    ensures left { owed.new.items ≡ without_break number owed.old.items }
    ensures nodes { All IsBreakToNode owed.old.items → All IsBreakToNode owed.new.items }
{
    owed.retain(|one| one.number != number);
}

/// These breaks end.
pub fn end_breaks(owed: &mut Vec<OwedBreak>, breaks: &[OwedBreak])
    ensures left { owed.new.items ≡ breaks_left breaks.now owed.old.items }
    ensures nodes { All IsBreakToNode owed.old.items → All IsBreakToNode owed.new.items }
{
    for one in breaks {
        end_break(owed, one.number);
    }
}

/// The numbers of the breaks on all that a client holds.
pub fn alls(alloc: Global, owed: &[OwedBreak]) -> Mem<Sequence<u32>>
    ensures { IfOk result (λ ns. ns ≡ alls owed.now) }
{
    let mut numbers = Sequence::new(alloc);
    for one in owed {
        if one.what.is_none() {
            numbers.push(one.number)?;
        }
    }
    Ok(numbers)
}
