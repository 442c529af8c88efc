//! The unanswered call is timed out: it is sent again, and at its last timeout given up.

ghost use Rattle.std.specs.Prelude.{◌≡◌, ◌<◌, ◌+◌, true, false, IfOk};
ghost use Rattle.spec_model.specs.Calls.{is_sent_again};
ghost use Rattle.afs_calling.specs.Calls.{number_limit};
ghost use Rattle.afs_calling.specs.Stepping.{Answers};
ghost use Rattle.afs_mover.specs.Steps.{gives_up, lines_late, sends_late, times_out};

use crate::node::Mover;
use afs_call::{Timeout, timed_out};
use afs_calling::messages::quiet;
use afs_num::types::{Code, Mem};
use spec_history::lines::{Line, Lines, Outs};

/// The call was given up.
const DEAD: Code = Code(-1);

impl Mover {
    /// What is told of the timeout.
    fn tell_timeout(&self) -> Mem<Lines>
        ensures { IfOk result (λ ls. ls ≡ lines_late self.now.node self.now.state self.now.state.running) }
    {
        let mut lines = Lines::new(self.alloc);
        if let Some(asking) = self.running() {
            lines.push(Line::Timeout {
                caller: self.node,
                callee: asking.ask().callee,
                epoch: self.callers.boot(),
                number: self.last,
                count: self.tries + 1,
            })?;
        }
        Ok(lines)
    }

    /// How often it was timed out.
    fn tries(&self) -> u32
        ensures value { result ≡ self.now.state.tries }
        ensures few { result < 3 }
    {
        self.tries
    }

    /// Its timeouts are counted.
    fn count(&mut self, tries: u32)
        requires { tries < 3 }
        ensures { self.new ≡ record self.old { state = record self.old.state { tries = tries } } }
    {
        self.tries = tries;
    }

    /// The call is sent again.
    fn send_again(&mut self) -> Mem<Outs>
        requires { is_sent_again self.old.state.tries ≡ true }
        ensures { Answers (sends_late self.old.node self.old.state self.old.state.running) self.old self.new result }
    {
        let lines = self.tell_timeout()?;
        let Some(asking) = self.running() else {
            return Ok(quiet(self.alloc, lines));
        };
        let number = self.number();
        let outs = self.send(asking, number, lines)?;
        let tries = self.tries();
        self.count(tries + 1);
        Ok(outs)
    }

    /// The call is given up, which is a refusal with -1.
    fn give_up(&mut self) -> Mem<Outs>
        requires last { self.old.state.last < number_limit }
        ensures { Answers (gives_up self.old.node self.old.state self.old.state.running) self.old self.new result }
    {
        let lines = self.tell_timeout()?;
        self.take_refusal(DEAD, lines)
    }

    pub(crate) fn time_out(&mut self) -> Mem<Outs>
        requires last { self.old.state.last < number_limit }
        ensures { Answers (times_out self.old.node self.old.state self.old.state.running) self.old self.new result }
    {
        let tries = self.tries();
        match timed_out(tries) {
            Timeout::Again(_) => self.send_again(),
            Timeout::Dead => self.give_up(),
        }
    }
}
