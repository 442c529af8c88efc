//! The order of the lines: each first word has the turns from which to which it may come, and the turn that it leads to.

ghost use Rattle.std.specs.Prelude.{◌≡◌, ◌&&◌, nat_le};
ghost use Rattle.afs_grammar.specs.Turns.{from_turn, repeats, to_turn, next_turn, is_due};

use crate::spellings::FirstWord;

/// The turn that the line `end` leads to.
pub const ENDED: u8 = 14;

fn from_turn(first: FirstWord) -> u8
    ensures { result ≡ from_turn first }
{
    match first {
        FirstWord::Cell => 0,
        FirstWord::Servers => 1,
        FirstWord::Act
        | FirstWord::Deliver
        | FirstWord::Drain
        | FirstWord::Timeout
        | FirstWord::Wake
        | FirstWord::Tick
        | FirstWord::Crash
        | FirstWord::Restart
        | FirstWord::Stop
        | FirstWord::Fail => 12,
        _ => 2,
    }
}

/// The turn that a line of this word leads to.
pub fn next_turn(first: FirstWord) -> u8
    ensures { result ≡ next_turn first }
{
    match first {
        FirstWord::Cell => 1,
        FirstWord::Servers => 2,
        FirstWord::Clients => 3,
        FirstWord::Admins => 4,
        FirstWord::Cache => 5,
        FirstWord::Capacity => 6,
        FirstWord::User => 7,
        FirstWord::Volume => 8,
        FirstWord::Dir | FirstWord::File | FirstWord::Link | FirstWord::Acl => 9,
        FirstWord::Do => 10,
        FirstWord::Plan => 11,
        FirstWord::Schedule => 12,
        FirstWord::End => 14,
        _ => 13,
    }
}

/// Whether lines of this word may stand side by side.
fn repeats(first: FirstWord) -> bool
    ensures { result ≡ repeats first }
{
    !matches!(
        first,
        FirstWord::Cell
            | FirstWord::Servers
            | FirstWord::Clients
            | FirstWord::Admins
            | FirstWord::Cache
            | FirstWord::Capacity
            | FirstWord::Schedule
            | FirstWord::End
    )
}

/// The last turn in which a line of this word may come.
fn to_turn(first: FirstWord) -> u8
    ensures { result ≡ to_turn first }
{
    if repeats(first) {
        next_turn(first)
    } else {
        next_turn(first) - 1
    }
}

pub fn is_due(turn: u8, first: FirstWord) -> bool
    ensures { result ≡ is_due turn first }
{
    from_turn(first) <= turn && turn <= to_turn(first)
}
