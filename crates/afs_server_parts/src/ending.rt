//! The end of a step: what it gives out, and what is left in memory.

ghost use Rattle.std.specs.Prelude.{IfOk};
ghost use Rattle.spec_rows.specs.Callbacks as row;
ghost use Rattle.afs_server_parts.specs.Ending.{IsPlanOf};
ghost use Rattle.afs_server_parts.specs.Turning.{IsReady, IsTurn};

use crate::calling::BreakCallee;
use crate::held::HeldReply;
use crate::turns::{Calls, Turn};
use afs_num::sequences::Sequence;
use afs_num::types::Mem;
use spec_history::lines::Outs;
use std::alloc::Global;

/// What a step gives out; the number of the node's last call, its callees, and the replies that wait.
#[derive(Drop)]
pub struct Ended {
    pub outs: Outs,
    pub last: u32,
    pub callees: Vec<BreakCallee>,
    pub held: Sequence<HeldReply>,
}

impl Turn {
    /// Replies whose breaks have ended go out, and then calls for what is owed.
    pub fn end(self, alloc: Global) -> Mem<Ended>
        requires { IsReady self }
        ensures { IfOk result (λ e. (t : row.CallbackStep) → IsTurn t self → IsPlanOf self.stand t e) }
    {
        let mut turn = self;
        turn.pump(alloc)?;
        let Turn {
            stand: _,
            owed: _,
            calls,
            held,
            lines,
            outs: _,
        } = turn;
        let Calls {
            last,
            callees,
            sent,
        } = calls;
        Ok(Ended {
            outs: Outs {
                parcels: sent.into_parcels(),
                lines,
            },
            last,
            callees,
            held,
        })
    }
}
