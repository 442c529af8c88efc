//! Acts of administrators that several hold.

ghost use Rattle.std.specs.Prelude.{◌≡◌, IfOk};

use crate::scripts::AdminAct;
use afs_num::types::Mem;
use std::alloc::Global;
use std::marker::Model;
use std::sync::Arc;

/// An act of an administrator that several hold. A copy shares it.
#[derive(Drop)]
pub struct SharedAdminAct {
    act: Arc<AdminAct>,
}

impl Model for SharedAdminAct {
    ghost use Rattle.std.specs.Arc.{arc_value};
    ghost use Rattle.spec_history.specs.declared.scripts.AdminAct.{AdminAct};

    ghost Value = { AdminAct };

    ghost view = { λ s. arc_value s.act };
}

impl SharedAdminAct {
    pub fn new(alloc: Global, act: AdminAct) -> Mem<SharedAdminAct>
        ensures { IfOk result (λ s. s ≡ act) }
    {
        Ok(SharedAdminAct {
            act: Arc::new(alloc, act)?,
        })
    }

    /// The act. It takes no memory.
    pub fn get(&self) -> &AdminAct
        ensures { result.now ≡ self.now }
    {
        &self.act
    }

    /// A copy. It is refused where the act has as many copies as can be counted.
    pub fn copy(&self) -> Mem<SharedAdminAct>
        ensures { IfOk result (λ s. s ≡ self.now) }
    {
        Ok(SharedAdminAct {
            act: self.act.clone()?,
        })
    }
}
