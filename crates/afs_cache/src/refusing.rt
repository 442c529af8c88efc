//! A call that has waited too long.

ghost use Rattle.std.specs.Prelude.{◌≡◌, ◌<◌, [], ◌∷◌, IfOk};
ghost use Rattle.spec_model.specs.Messages.{messages_spelled, parcels_read};
ghost use Rattle.spec_rows.specs.Going.{next};
ghost use Rattle.spec_rows.specs.ClientRow.{boot_of, call_by, timeout_line};
ghost use Rattle.spec_ideal.specs.Operations.{volume_changed};
ghost use Rattle.afs_cache.specs.Acting.{changed_in, sent_to};
ghost use Rattle.spec_copyrows.specs.CopyRow.{dies_at};
ghost use Rattle.spec_copyrows.specs.Sites.{round_of, with_client};
ghost use Rattle.afs_cache.specs.Managing.{AnswersCopy, AnswersStill, copy_times_out, given_up, number_limit};
ghost use Rattle.afs_cache.specs.Rounds.{ActAnswers, dies_by};

use crate::acting::Dropping;
use crate::node::CacheManager;
use afs_acts::volume_changed;
use afs_asking::Asked;
use afs_call::{LAST_TIMEOUT, Timeout, timed_out};
use afs_calling::boots::boot_of;
use afs_entries::Drops;
use afs_num::calls::FsCall;
use afs_num::sequences::Sequence;
use afs_num::types::{Code, Mem};
use afs_sites::Round;
use spec_history::lines::{Line, Lines, Outs};

/// The call was given up.
pub const DEAD: Code = Code(-1);

/// The entries of the volume that a call may change.
fn changed_by(call: &FsCall) -> Drops
    ensures { result ≡ changed_in (volume_changed call.now) }
{
    match volume_changed(call) {
        Some(volume) => Drops::Volume(volume),
        None => Drops::Nothing,
    }
}

impl CacheManager {
    pub(crate) fn tell_timeout(&self, count: u32) -> Mem<Lines>
        ensures { IfOk result (λ ls. ls ≡ timeout_line self.now.node self.now.state.client count ∷ []) }
    {
        let mut lines = Sequence::new(self.alloc);
        lines.push(Line::Timeout {
            caller: self.node,
            callee: self.calls.callee,
            epoch: self.callers.boot(),
            number: self.calls.last,
            count,
        })?;
        Ok(lines)
    }

    /// The call is sent again. It has had so many timeouts by now.
    fn send_again(&self, asked: &Asked, tries: u32) -> Mem<Outs>
        ensures lines { IfOk result (λ o. o.lines ≡ timeout_line self.now.node self.now.state.client tries ∷ []) }
        ensures sent { IfOk result (λ o. parcels_read o.parcels ≡ messages_spelled (sent_to self.now.node self.now.state.client self.now.state.client.last self.now.state.client.callee (boot_of self.now.state.client.callee self.now.state.client.boots) (call_by asked.now.gifts (next asked.now.going)) ∷ [])) }
    {
        let boot = boot_of(&self.calls.callee, &self.boots);
        let lines = self.tell_timeout(tries)?;
        self.outs(self.calls.last, self.calls.callee, boot, asked, lines)
    }

    /// A changing call that was given up may still run: no entry of its volume stays.
    fn give_up(&mut self) -> Mem<Outs>
        ensures { AnswersStill (given_up self.old.node self.old.state.client self.old.state.client.running) self.old self.new result }
    {
        let Some(asked) = self.running() else {
            return self.ignore();
        };
        let drops = changed_by(asked.file_call());
        let lines = self.tell_timeout(LAST_TIMEOUT)?;
        self.end_dropping(&drops, lines, DEAD)
    }

    /// A dead call of a read-only volume leads to the next site.
    fn die_at(&mut self, round: Round) -> Mem<Outs>
        requires { self.old.state.client.last < number_limit }
        ensures { ActAnswers (λ act. dies_at self.old.node self.old.state act round) self.old self.new result }
    {
        let mut round = round;
        let Some(asked) = self.running() else {
            return self.ignore();
        };
        let drops = changed_by(asked.file_call());
        let lines = self.tell_timeout(LAST_TIMEOUT)?;
        let Dropping { fids, lines } = self.dropping(&drops, lines)?;
        let asked = self.asked_again(asked)?;
        round.leave();
        let plan = self.plan_round(asked, round, lines)?;
        self.cache.drop_all(&fids);
        Ok(self.follow(plan))
    }

    /// The call is dead.
    fn die(&mut self) -> Mem<Outs>
        requires { self.old.state.client.last < number_limit }
        ensures { ActAnswers (λ act. dies_by self.old.node self.old.state act (round_of self.old.state act)) self.old self.new result }
    {
        match self.round_asked()? {
            Some(round) => self.die_at(round),
            None => self.give_up(),
        }
    }

    /// The call has had so many timeouts by now.
    pub(crate) fn count_tries(&mut self, tries: u32)
        ensures { self.new ≡ record self.old { state = with_client self.old.state (record self.old.state.client { tries = tries }) } }
    {
        self.calls.tries = tries;
    }

    /// The call is sent again, and at its last timeout it is dead. Where none runs that is the question of the act that waits for the location
    /// database.
    pub(crate) fn time_out(&mut self) -> Mem<Outs>
        requires { self.old.state.client.last < number_limit }
        ensures { AnswersCopy (copy_times_out self.old.node self.old.state self.old.state.client.running) self.old self.new result }
    {
        let tries = self.calls.tries;
        let Some(asked) = self.running() else {
            return self.time_out_seeking();
        };
        match timed_out(tries) {
            Timeout::Again(tries) => {
                let outs = self.send_again(asked, tries)?;
                self.count_tries(tries);
                Ok(outs)
            }
            Timeout::Dead => self.die(),
        }
    }
}
