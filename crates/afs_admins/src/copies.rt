//! Copies of acts.

ghost use Rattle.std.specs.Prelude.{◌≡◌, IfOk};

use afs_num::types::Mem;
use spec_history::orders::SharedAdminAct;
use spec_history::scripts::AdminAct;
use std::alloc::Global;

fn copy_act(alloc: Global, act: &AdminAct) -> Mem<AdminAct>
    ensures { IfOk result (λ c. c ≡ act.now) }
{
    match act {
        AdminAct::Create {
            name,
            server,
            quota,
        } => Ok(AdminAct::Create {
            name: name.copy(alloc)?,
            server: *server,
            quota: *quota,
        }),
        AdminAct::Restore {
            name,
            server,
            label,
        } => Ok(AdminAct::Restore {
            name: name.copy(alloc)?,
            server: *server,
            label: label.copy(alloc)?,
        }),
        AdminAct::AddSite { name, server } => Ok(AdminAct::AddSite {
            name: name.copy(alloc)?,
            server: *server,
        }),
        AdminAct::Backup { name } => Ok(AdminAct::Backup {
            name: name.copy(alloc)?,
        }),
        AdminAct::Release { name } => Ok(AdminAct::Release {
            name: name.copy(alloc)?,
        }),
        AdminAct::Move { name, server } => Ok(AdminAct::Move {
            name: name.copy(alloc)?,
            server: *server,
        }),
        AdminAct::Dump { name, label, from } => Ok(AdminAct::Dump {
            name: name.copy(alloc)?,
            label: label.copy(alloc)?,
            from: *from,
        }),
        AdminAct::Remove { name } => Ok(AdminAct::Remove {
            name: name.copy(alloc)?,
        }),
        AdminAct::Recover { name } => Ok(AdminAct::Recover {
            name: name.copy(alloc)?,
        }),
    }
}

/// The act of a script, to be held by the administrator and by the history.
pub fn shared_act(alloc: Global, act: &AdminAct) -> Mem<SharedAdminAct>
    ensures { IfOk result (λ s. s ≡ act.now) }
{
    SharedAdminAct::new(alloc, copy_act(alloc, act)?)
}
