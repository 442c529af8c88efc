//! Forms of scripts: what of the grammar is built. A word that isn't is no word of the form.

ghost use Rattle.std.specs.Prelude.{◌≡◌, nat_le};
ghost use Rattle.afs_grammar.specs.Forms.{level_of, act_level, is_unbuilt_operand, is_unbuilt_task, has_loc, is_of_server, lacks_loc, lacks_servers, is_unbuilt};

use crate::spellings::{ActWord, FirstWord, act_spelled};
use afs_words::parts::Parts;

/// How far the grammar is built: 3 has the acts `open` and `close` on fids, losses and restarts of one client, 4 disks
/// that stop, 5 every act on paths, 6 several clients and breaks, 7 several servers and the location database, 9
/// administrators, 10 the whole of it.
#[derive(Clone, Copy, Debug)]
pub struct Form {
    pub level: u8,
}

/// The level from which on every act is built, with every operand.
const ALL_ACTS: u8 = 6;

pub const WHOLE: Form = Form { level: 10 };

/// The level that brings lines of this word.
fn level_of(first: FirstWord) -> u8
    ensures { result ≡ level_of first }
{
    match first {
        FirstWord::Capacity | FirstWord::Stop | FirstWord::Fail => 4,
        FirstWord::User | FirstWord::Dir | FirstWord::Link | FirstWord::Acl => 5,
        FirstWord::Cache | FirstWord::Wake => 6,
        FirstWord::Admins => 9,
        FirstWord::Plan => 10,
        _ => 3,
    }
}

/// The level that brings this act; an act of no client comes with the others.
fn act_level(act: Option<ActWord>) -> u8
    ensures { result ≡ act_level act }
{
    match act {
        Some(ActWord::Open | ActWord::Close) => 3,
        Some(ActWord::StatAll | ActWord::GiveUp) => 6,
        _ => 5,
    }
}

/// Whether the words of a task have an act, or an operand, that isn't built.
#[tactic(auto, using(crate::proofs::Built::all_built))]
fn is_unbuilt_task(level: u8, mut words: Parts<'_>) -> bool
    ensures { result ≡ is_unbuilt_task level words.entry }
{
    if level >= ALL_ACTS {
        return false;
    }
    if words.part().is_none() {
        return false;
    }
    match words.part() {
        Some(act) => act_level(act_spelled(act)) > level || is_unbuilt_operand(level, words),
        None => false,
    }
}

fn is_unbuilt_operand(level: u8, mut words: Parts<'_>) -> bool
    ensures { result ≡ is_unbuilt_operand level words.entry }
{
    match words.part() {
        Some(operand) => level < 5 && !operand.starts_with(b"@"),
        None => false,
    }
}

/// Whether the location database is named.
fn has_loc(mut words: Parts<'_>) -> bool
    ensures { result ≡ has_loc words.entry }
{
    while let Some(word) = words.part() {
        if word == b"loc".as_slice() {
            return true;
        }
    }
    false
}

fn is_of_server(mut words: Parts<'_>) -> bool
    ensures { result ≡ is_of_server words.entry }
{
    match words.part() {
        Some(word) => word.starts_with(b"s"),
        None => false,
    }
}

impl Form {
    /// Whether lines of this word are built.
    pub fn has(&self, first: FirstWord) -> bool
        ensures { result ≡ nat_le (level_of first) self.now.level }
    {
        level_of(first) <= self.level
    }

    /// Whether a word behind the first isn't built.
    #[tactic(auto, unfolding(crate::specs::Forms::is_unbuilt))]
    pub fn is_unbuilt(&self, first: FirstWord, words: &Parts<'_>) -> bool
        ensures { result ≡ is_unbuilt self.now.level first words.now }
    {
        match first {
            FirstWord::Do => is_unbuilt_task(self.level, words.again()),
            FirstWord::Timeout => self.lacks_loc(words) || self.lacks_servers(6, words),
            FirstWord::Crash | FirstWord::Restart => {
                self.lacks_loc(words) || self.lacks_servers(4, words)
            }
            FirstWord::Stop | FirstWord::Fail => self.lacks_loc(words),
            _ => false,
        }
    }

    fn lacks_loc(&self, words: &Parts<'_>) -> bool
        ensures { result ≡ lacks_loc self.now.level words.now }
    {
        self.level < 7 && has_loc(words.again())
    }
    /// Whether events of servers come with a later level.
    fn lacks_servers(&self, from: u8, words: &Parts<'_>) -> bool
        ensures { result ≡ lacks_servers self.now.level from words.now }
    {
        self.level < from && is_of_server(words.again())
    }
}
