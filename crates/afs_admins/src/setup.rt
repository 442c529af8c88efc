//! A cell's administrators at set-up.

ghost use Rattle.std.specs.Prelude.{◌≡◌, ◌<◌, ◌+◌, length, IfOk};
ghost use Rattle.afs_grammar.specs.CellScripts.{IsCellScript};
ghost use Rattle.afs_admins.specs.Seating.{AreFirstAdmins};

use crate::admins::AdminSeat;
use afs_num::types::Mem;
use spec_history::scripts::Script;
use std::alloc::Global;

/// The administrators at set-up, in order of number.
pub fn admins_at_first<'a>(alloc: Global, script: &'a Script) -> Mem<Vec<AdminSeat<'a>>>
    requires script { IsCellScript script.now }
    ensures first { IfOk result (λ all. AreFirstAdmins script.now 1 all.items) }
    ensures count { IfOk result (λ all. length all.items ≡ script.now.admins) }
{
    let mut admins = Vec::with_capacity(alloc, script.admins as usize)?;
    for before in 0..script.admins {
        admins.push(AdminSeat::new(alloc, script, before + 1)?)?;
    }
    Ok(admins)
}
