//! The laws about breaks that are settled, and about their numbers. Each is the contract of a function that does nothing.

ghost use Rattle.law_settled.specs.Settles.{SettlesFollowDrops};

/// In every run, a server settles a break only where it is given the client's answer to a call that carried it, and the client dropped what the
/// break is on since it became owed.
pub fn settles_follow_drops()
    ensures { SettlesFollowDrops }
{}
