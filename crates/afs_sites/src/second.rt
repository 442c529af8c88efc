//! Where the volume of an act's second operand is looked up anew.

ghost use Rattle.std.specs.Prelude.{◌≡◌, ◌&&◌, IfOk, is_some};
ghost use Rattle.afs_acts.specs.Acts.{FitsCalls};
ghost use Rattle.afs_acts.specs.Walks.{need_of};
ghost use Rattle.spec_copyrows.specs.CopyRow.{forgotten, is_location};
ghost use Rattle.spec_rows.specs.Going.{next};

use afs_acts::{Going, Need, next};
use afs_num::types::Mem;
use std::alloc::Global;

/// Whether an act must ask where a volume is.
fn is_location(need: &Need) -> bool
    ensures { result ≡ is_location (need_of need.now) }
{
    matches!(need, Need::Locate(_))
}

/// Whether an act walks its second operand, where this is what it would be without the number of that volume.
fn walks_second(alloc: Global, going: &Going, without: &Going) -> Mem<bool>
    requires { FitsCalls without.now.act }
    ensures { IfOk result (λ walks. walks ≡ (is_some going.now.homes.first && is_location (next without.now))) }
{
    if !going.knows_first() {
        return Ok(false);
    }
    let need = next(alloc, without)?;
    Ok(is_location(&need))
}

/// A copy of an act that looks the number of its second volume up anew, unless it walks there: then the number of its first is known, and
/// without that of the second it would ask for it.
pub fn forgotten(alloc: Global, going: &Going) -> Mem<Going>
    requires { FitsCalls going.now.act }
    ensures value { IfOk result (λ g. g ≡ forgotten going.now) }
    ensures short { IfOk result (λ g. FitsCalls g.act) }
{
    let mut without = going.copy(alloc)?;
    without.forget_second();
    if walks_second(alloc, going, &without)? {
        going.copy(alloc)
    } else {
        Ok(without)
    }
}
