//! The places of a cell's administrators.

ghost use Rattle.std.specs.Prelude.{◌≡◌, ◌≤◌, ◌<◌, ◌+◌, ℕ, true, is_some, IfOk};
ghost use Rattle.std.specs.List.{All};
ghost use Rattle.afs_num.specs.declared.types.Node.TheVariants.{Admin};
ghost use Rattle.afs_calling.specs.Calls.{number_limit};
ghost use Rattle.afs_clients.specs.Happening.{DisklessHappens};
ghost use Rattle.afs_clients.specs.declared.happening.AdminInput.TheVariants as input;
ghost use Rattle.afs_grammar.specs.CellScripts.{IsCellScript};
ghost use Rattle.spec_adminrows.specs.AdminRow.{waiting_on};
ghost use Rattle.afs_schedule.specs.Schedules.{is_waiting_on};
ghost use Rattle.afs_admins.specs.Happening.{AdminGoes, AdminHears, AdminTakes, HasBegun, HasFallen, HasRisen, HasTimedOut, IsVoidAdmin};
ghost use Rattle.afs_admins.specs.Seating.{GoesOn, IsFirstAdmin, IsSeated, IsShortOrder};

use crate::copies::shared_act;
use afs_clients::happening::{AdminInput, Happened};
use afs_clients::telling::told_alone;
use afs_mover::Mover;
use afs_num::types::{Mem, Node};
use afs_schedule::Plan;
use spec_history::lines::Line;
use spec_history::scripts::Script;
use std::alloc::Global;

/// An administrator with its epoch; whether it is down; and what it has yet to do.
pub struct AdminSeat<'a> {
    pub mover: Mover,
    pub epoch: u32,
    pub is_away: bool,
    pub plan: Plan<'a>,
}

/// It ends by a drop of its own: where a cell ends there is one drop to prove for an administrator, and not one for each of its parts.
impl<'a> Drop for AdminSeat<'a> {
    fn drop(self) {
        let AdminSeat {
            mover: _,
            epoch: _,
            is_away: _,
            plan: _,
        } = self;
    }
}

impl<'a> AdminSeat<'a> {
    /// An administrator at set-up.
    #[tactic(auto, using(crate::proofs::Seated::admin_is_node))]
    pub fn new(alloc: Global, script: &'a Script, admin: u8) -> Mem<AdminSeat<'a>>
        requires script { IsCellScript script.now }
        requires admin { (1 ≤ admin) × (admin ≤ 4) }
        ensures { IfOk result (IsFirstAdmin script.now admin) }
    {
        let node = Node::Admin(admin);
        Ok(AdminSeat {
            mover: Mover::new(alloc, node, 1, script.servers),
            epoch: 1,
            is_away: false,
            plan: Plan::of(alloc, node, script.tasks.as_slice())?,
        })
    }

    /// Whether an act runs.
    fn is_busy(&self) -> bool
        ensures { result ≡ is_some self.now.mover.state.running }
    {
        self.mover.waits_on().is_some()
    }

    /// Whether it waits for the reply of this node.
    fn waits_for(&self, callee: Node) -> bool
        ensures { result ≡ is_waiting_on callee (waiting_on self.now.mover.state) }
    {
        match self.mover.waits_on() {
            Some((node, _)) => node.is(&callee),
            None => false,
        }
    }

    /// It begins its next act, if it is up and idle.
    #[tactic(auto, using(crate::proofs::Seated::first_short, crate::proofs::Seated::rest_short))]
    fn begin(&mut self, alloc: Global, admin: u8) -> Happened
        requires node { self.old.mover.node ≡ Admin admin }
        requires last { self.old.mover.state.last < number_limit }
        requires short { All IsShortOrder self.old.plan }
        ensures happens { DisklessHappens (IsVoidAdmin input.Act) (HasBegun admin) self.old self.new result }
        ensures goes_on { GoesOn self.old self.new }
    {
        let _admin = admin;
        if self.is_away || self.is_busy() {
            return Happened::Nothing;
        }
        let Some(act) = self.plan.next_admin_act() else {
            return Happened::Nothing;
        };
        let Ok(act) = shared_act(alloc, act) else {
            return Happened::Unchanged;
        };
        match self.mover.act(&act) {
            Ok(outs) => {
                self.plan.advance();
                Happened::Step(outs)
            }
            Err(_) => Happened::Unchanged,
        }
    }

    /// It is given a message, if it is up.
    pub fn hear(&mut self, admin: u8, bytes: &[u8]) -> Happened
        requires node { self.old.mover.node ≡ Admin admin }
        requires last { self.old.mover.state.last < number_limit }
        ensures happens { (place : ℕ) → DisklessHappens (λ seat. seat.is_away ≡ true) (AdminHears admin place bytes.now) self.old self.new result }
        ensures goes_on { GoesOn self.old self.new }
    {
        let _admin = admin;
        if self.is_away {
            return Happened::Nothing;
        }
        match self.mover.receive(bytes) {
            Ok(outs) => Happened::Step(outs),
            Err(_) => Happened::Unchanged,
        }
    }

    /// Its unanswered call to this node times out.
    fn time_out(&mut self, admin: u8, callee: Node) -> Happened
        requires node { self.old.mover.node ≡ Admin admin }
        requires last { self.old.mover.state.last < number_limit }
        ensures happens { DisklessHappens (IsVoidAdmin (input.TimeOut callee)) (HasTimedOut admin callee) self.old self.new result }
        ensures goes_on { GoesOn self.old self.new }
    {
        let _admin = admin;
        if self.is_away || !self.waits_for(callee) {
            return Happened::Nothing;
        }
        match self.mover.timeout() {
            Ok(outs) => Happened::Step(outs),
            Err(_) => Happened::Unchanged,
        }
    }

    /// It goes down. What it will begin with is made here: it has the next epoch, and holds no dump.
    #[tactic(auto, using(crate::proofs::Seated::admin_is_node))]
    fn crash(&mut self, alloc: Global, script: &Script, admin: u8) -> Happened
        requires script { IsCellScript script.now }
        requires admin { (1 ≤ admin) × (admin ≤ 4) }
        requires seated { IsSeated script.now admin self.old }
        requires epoch { self.old.epoch < 4294967295 }
        ensures happens { DisklessHappens (IsVoidAdmin input.Crash) (HasFallen admin) self.old self.new result }
        ensures seated { IsSeated script.now admin self.new }
        ensures epoch { self.new.epoch ≤ self.old.epoch + 1 }
        ensures last { self.new.mover.state.last ≤ self.old.mover.state.last + 1 }
    {
        if self.is_away {
            return Happened::Nothing;
        }
        let node = Node::Admin(admin);
        let Ok(outs) = told_alone(alloc, Line::Crash { node }) else {
            return Happened::Unchanged;
        };
        self.mover = Mover::new(alloc, node, self.epoch + 1, script.servers);
        self.epoch += 1;
        self.is_away = true;
        Happened::Step(outs)
    }

    /// It is up again.
    fn restart(&mut self, alloc: Global, admin: u8) -> Happened
        requires epoch { self.old.mover.state.epoch ≡ self.old.epoch }
        ensures happens { DisklessHappens (IsVoidAdmin input.Restart) (HasRisen admin) self.old self.new result }
        ensures goes_on { GoesOn self.old self.new }
    {
        if !self.is_away {
            return Happened::Nothing;
        }
        let line = Line::Restart {
            node: Node::Admin(admin),
            boot: self.epoch,
        };
        let Ok(outs) = told_alone(alloc, line) else {
            return Happened::Unchanged;
        };
        self.is_away = false;
        Happened::Step(outs)
    }

    /// It is given something that is no message.
    pub fn take(&mut self, alloc: Global, script: &Script, admin: u8, given: AdminInput) -> Happened
        requires script { IsCellScript script.now }
        requires admin { (1 ≤ admin) × (admin ≤ 4) }
        requires seated { IsSeated script.now admin self.old }
        requires last { self.old.mover.state.last < number_limit }
        requires epoch { self.old.epoch < 4294967295 }
        ensures happens { DisklessHappens (IsVoidAdmin given) (AdminTakes admin given) self.old self.new result }
        ensures goes { AdminGoes script.now admin self.old self.new }
    {
        match given {
            AdminInput::Act => self.begin(alloc, admin),
            AdminInput::TimeOut(callee) => self.time_out(admin, callee),
            AdminInput::Crash => self.crash(alloc, script, admin),
            AdminInput::Restart => self.restart(alloc, admin),
        }
    }
}
