//! A caller: how it numbers its calls, and how often it sends one.

ghost use Rattle.std.specs.Prelude.{◌≡◌, ◌+◌, ◌<◌};
ghost use Rattle.afs_call.specs.Callers.{Follows};

use afs_num::types::Node;

/// The timeout of a call at which its caller gives it up.
pub const LAST_TIMEOUT: u32 = 3;

/// What a caller does where its call has waited too long.
#[derive(Clone, Copy, Debug, PartialEq, Eq)]
pub enum Timeout {
    /// It sends the same message again. The call has had so many timeouts by now.
    Again(u32),
    /// It gives the call up.
    Dead,
}

/// What the caller does of whose call this is the next timeout, after so many.
pub fn timed_out(tries: u32) -> Timeout
    ensures { Follows tries result }
{
    if tries < LAST_TIMEOUT - 1 {
        Timeout::Again(tries + 1)
    } else {
        Timeout::Dead
    }
}

/// A caller that waits for one call at a time: its last call's number, whom that is for, and how many timeouts it had.
#[derive(Drop)]
pub struct Caller {
    pub last: u32,
    pub callee: Node,
    pub tries: u32,
}

impl Caller {
    /// No call was made in this epoch, and the first may be for this node.
    pub fn new(callee: Node) -> Caller
        ensures { result ≡ record { last = 0; callee = callee; tries = 0 } }
    {
        Caller {
            last: 0,
            callee,
            tries: 0,
        }
    }

    /// A call under the next number: 1, 2, 3, .. in an epoch.
    pub fn start(&mut self, callee: Node)
        requires { self.old.last < 4294967295 }
        ensures { self.new ≡ record { last = self.old.last + 1; callee = callee; tries = 0 } }
    {
        self.last += 1;
        self.callee = callee;
        self.tries = 0;
    }
}
