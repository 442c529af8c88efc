//! The act that runs, with its unanswered call.

ghost use Rattle.std.specs.Prelude.{◌≡◌, ℕ, IfOk};
ghost use Rattle.afs_adminparts.specs.Fitting.{FitsPlace, IsShortAdminAct, IsSpelledAsk};
ghost use Rattle.spec_adminrows.specs.AdminRow.{running_at};
ghost use Rattle.afs_mover.specs.Asked.{ask_by};

use afs_adminacts::acts::asked;
use afs_num::types::Mem;
use spec_adminrows::places::Place;
use spec_adminrows::turns::{Ask, Running};
use spec_history::orders::SharedAdminAct;
use std::alloc::Global;
use std::marker::Model;

/// The act that runs, and what it asks at its place.
#[derive(Drop)]
pub struct Asking {
    running: Running,
    ask: Ask,
}

impl Model for Asking {
    ghost use Rattle.spec_adminrows.specs.declared.turns.Running.{Running};
    ghost use Rattle.afs_mover.specs.Asked.{IsAskedByAct};

    ghost Value = { Running };

    ghost view = { λ a. a.running };

    ghost invariant = { λ a. IsAskedByAct a.running a.ask };
}

impl Asking {
    /// The act stands at this place.
    pub fn new(alloc: Global, act: SharedAdminAct, place: Place) -> Mem<Asking>
        requires short { IsShortAdminAct act }
        requires fits { FitsPlace act place }
        ensures { IfOk result (λ a. a ≡ running_at act place) }
    {
        let ask = asked(alloc, act.get(), &place)?;
        Ok(Asking {
            running: Running { act, place },
            ask,
        })
    }

    pub fn act(&self) -> &SharedAdminAct
        ensures value { result.now ≡ self.now.act }
        ensures short { IsShortAdminAct self.now.act }
    {
        &self.running.act
    }

    pub fn place(&self) -> &Place
        ensures value { result.now ≡ self.now.place }
        ensures fits { FitsPlace self.now.act self.now.place }
    {
        &self.running.place
    }

    /// What it asks.
    pub fn ask(&self) -> &Ask
        ensures value { (servers : ℕ) → result.now ≡ ask_by servers self.now }
        ensures spelled { IsSpelledAsk result.now }
    {
        &self.ask
    }
}
