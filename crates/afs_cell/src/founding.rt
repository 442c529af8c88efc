//! The location database of a cell at set-up.

ghost use Rattle.std.specs.Prelude.{◌≡◌, IfErr, IfOk};
ghost use Rattle.afs_grammar.specs.CellScripts.{IsCellScript};
ghost use Rattle.afs_cell.specs.Founding.{IsFirstDatabase, IsLocRefused};

use crate::faults::SetupFault;
use crate::seating::refusal;
use afs_disk::{Disk, Fuse};
use afs_host::{DatabaseRunning, Running};
use afs_locdb::LocDb;
use afs_num::types::Node;
use law_legal::laws::loc_set_ups_are_first;
use law_scripts::laws::{loc_set_ups_are_accepted, numbers_ascend};
use spec_history::scripts::Script;
use std::alloc::Global;

/// The location database with an entry for each volume of the script, over a disk that is cut to nothing. A refusal hands the disk
/// back.
pub fn database_at_first<D: Disk>(
    alloc: Global,
    script: &Script,
    disk: D,
) -> Result<DatabaseRunning<D>, (SetupFault, D)>
    requires script { IsCellScript script.now }
    requires capacity { D.limit disk ≡ script.now.capacity }
    ensures ok { IfOk result (IsFirstDatabase D.seen D.may_leave D.faults D.limit script.now disk) }
    ensures err { IfErr result (IsLocRefused D.seen D.may_leave D.faults D.limit script.now disk) }
{
    loc_set_ups_are_accepted();
    numbers_ascend();
    loc_set_ups_are_first();
    match LocDb::create(alloc, Fuse::new(disk), &script.volumes) {
        Ok(database) => Ok(Running::over(database)),
        Err((fault, fuse)) => Err((refusal(fault, Node::Loc), fuse.into_inner())),
    }
}
