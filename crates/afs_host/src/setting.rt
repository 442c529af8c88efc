//! How a server's disk is set to stop or to fail.

ghost use Rattle.std.specs.Prelude.{◌≡◌};
ghost use Rattle.spec_rows.specs.Hosts.{lowered};
ghost use Rattle.afs_host.specs.Setting.{armed_seen, pick_of, stops_now};

/// The disk passes so many device calls more and then stops its node; the pick says what is left of the writes that
/// weren't synced.
#[derive(Clone, Copy, Debug)]
pub struct Stop {
    pub passes: u64,
    pub pick: u8,
}

/// Where the disk is to stop, and at which device call it is to fail, 1 being the next.
#[derive(Clone, Copy, Debug)]
pub struct Armed {
    pub stop: Option<Stop>,
    pub fail: Option<u64>,
}

/// Nothing is set.
pub const UNARMED: Armed = Armed {
    stop: None,
    fail: None,
};

impl Armed {
    /// What is left after so many device calls that passed.
    pub fn lowered(&self, calls: u64) -> Armed
        ensures { armed_seen result ≡ lowered calls (armed_seen self.now) }
    {
        let stop = match self.stop {
            Some(stop) => Some(Stop {
                passes: stop.passes.saturating_sub(calls),
                pick: stop.pick,
            }),
            None => None,
        };
        let fail = match self.fail {
            Some(call) => Some(call.saturating_sub(calls)),
            None => None,
        };
        Armed { stop, fail }
    }

    /// Whether a step that its disk ended was ended by the stop: it was set to come no later than a failure, and it came, or no
    /// call was left to pass. A server that tries a failed call again can come to a stop after the failure; it fell by that.
    pub fn stops_now(&self, came: bool) -> bool
        ensures { result ≡ stops_now came (armed_seen self.now) }
    {
        match (self.stop, self.fail) {
            (Some(stop), Some(call)) => stop.passes < call && (came || stop.passes == 0),
            (Some(stop), None) => came || stop.passes == 0,
            (None, _) => false,
        }
    }

    /// What a stop that came leaves of the writes that weren't synced; where none was set, what a read gives.
    pub fn pick(&self) -> u8
        ensures { result ≡ pick_of (armed_seen self.now) }
    {
        match self.stop {
            Some(stop) => stop.pick,
            None => 1,
        }
    }
}
