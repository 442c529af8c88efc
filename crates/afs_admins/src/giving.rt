//! One administrator of the cell is given something.

ghost use Rattle.std.specs.Prelude.{◌≡◌, ℕ, true};
ghost use Rattle.afs_grammar.specs.CellScripts.{IsCellScript};
ghost use Rattle.afs_admins.specs.Happening.{AdminHears, AdminsHappened, AdminTakes, IsVoidAdmin};
ghost use Rattle.afs_admins.specs.Ready.{AllReadyAdmins};

use crate::admins::AdminSeat;
use afs_clients::happening::{AdminInput, Happened};
use afs_clients::places::Places;
use spec_history::scripts::Script;
use std::alloc::Global;

/// An administrator is given a message.
pub fn admin_hears<'a>(
    admins: &mut Places<AdminSeat<'a>>,
    script: &Script,
    admin: u8,
    bytes: &[u8],
) -> Happened
    requires ready { AllReadyAdmins script.now admins.old.items }
    ensures { (place : ℕ) → AdminsHappened script.now admin (λ seat. seat.is_away ≡ true) (AdminHears admin place bytes.now) admins.old.items admins.new.items result }
{
    let _script = script;
    let Some(i) = admins.find(admin) else {
        return Happened::Nothing;
    };
    admins.at(i).hear(admin, bytes)
}

/// An administrator is given something that is no message.
pub fn admin_takes<'a>(
    alloc: Global,
    admins: &mut Places<AdminSeat<'a>>,
    script: &Script,
    admin: u8,
    given: AdminInput,
) -> Happened
    requires script { IsCellScript script.now }
    requires ready { AllReadyAdmins script.now admins.old.items }
    ensures { AdminsHappened script.now admin (IsVoidAdmin given) (AdminTakes admin given) admins.old.items admins.new.items result }
{
    let Some(i) = admins.find(admin) else {
        return Happened::Nothing;
    };
    admins.at(i).take(alloc, script, admin, given)
}
