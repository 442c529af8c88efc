//! A history is counted, entry by entry.

ghost use Rattle.std.specs.Prelude.{◌≡◌, ◌++◌, List};
ghost use Rattle.spec_history.specs.declared.lines.Entry as kept;
ghost use Rattle.afs_summary.specs.Counting.{AreCounted, Gives, with_answer, with_change, entry_counted, with_kept, line_counted, with_lines, with_step};

use afs_num::histories::Actor;
use afs_num::types::Code;
use spec_history::lines::{Entry, Line};

/// How many entries a history has, but for those in which nothing happened; how many messages it sent, and how many changes and how
/// many answers it tells, those that are 0 and the others.
#[derive(Clone, Copy, Debug)]
pub struct Counts {
    pub entries: u64,
    pub sent: u64,
    pub changes: u64,
    pub zero: u64,
    pub other: u64,
}

impl Counts {
    ghost use Rattle.afs_summary.specs.Counting.{nothing_yet};

    /// Nothing is counted yet.
    pub fn new() -> Counts
        ensures { result ≡ nothing_yet }
    {
        Counts {
            entries: 0,
            sent: 0,
            changes: 0,
            zero: 0,
            other: 0,
        }
    }

    /// One change more.
    fn with_change(self) -> Option<Counts>
        ensures { Gives (with_change self) result }
    {
        Some(Counts {
            changes: self.changes.checked_add(1)?,
            ..self
        })
    }

    /// One answer more.
    fn with_answer(self, code: Code) -> Option<Counts>
        ensures { Gives (with_answer self code.0) result }
    {
        if code.0 == 0 {
            return Some(Counts {
                zero: self.zero.checked_add(1)?,
                ..self
            });
        }
        Some(Counts {
            other: self.other.checked_add(1)?,
            ..self
        })
    }

    /// One line more.
    fn with_line(self, line: &Line) -> Option<Counts>
        ensures { Gives (line_counted self line.now) result }
    {
        match line {
            Line::Change {
                server: _,
                key: _,
                count: _,
            } => self.with_change(),
            Line::Answer { node: _, code } => self.with_answer(*code),
            Line::Stuck { node: _, code } => self.with_answer(*code),
            Line::Older {
                node: _,
                offered: _,
                seen: _,
            } => self.with_answer(Code(105)),
            _ => Some(self),
        }
    }

    /// These lines more.
    fn with_lines(self, lines: &[Line]) -> Option<Counts>
        ensures { Gives (with_lines self lines.now) result }
    {
        let mut counts = self;
        for line in lines {
            counts = counts.with_line(line)?;
        }
        Some(counts)
    }

    /// One entry more, which sent so many messages.
    fn with_step(self, lines: &[Line], sent: usize) -> Option<Counts>
        ensures { Gives (with_step self lines.now sent) result }
    {
        let counts = Counts {
            entries: self.entries.checked_add(1)?,
            sent: self.sent.checked_add(sent as u64)?,
            ..self
        };
        counts.with_lines(lines)
    }

    /// One entry more. One in which nothing happened counts for nothing.
    fn with_entry(self, entry: &Entry) -> Option<Counts>
        ensures { Gives (entry_counted self entry.now.actor entry.now.lines entry.now.sent) result }
    {
        match entry.actor {
            Actor::Nobody => Some(self),
            Actor::Node(_) | Actor::Clock => self.with_step(entry.lines.as_slice(), entry.sent),
        }
    }

    /// These entries more. There is none where a number would be too long for its place.
    pub fn with_entries(self, entries: &[Entry]) -> Option<Counts>
        ensures { Gives (with_kept self entries.now) result }
    {
        let mut counts = self;
        for entry in entries {
            counts = counts.with_entry(entry)?;
        }
        Some(counts)
    }
}

/// What is counted so far, and these entries more.
pub fn counted_on(counts: Option<Counts>, entries: &[Entry]) -> Option<Counts>
    ensures { (before : List kept.Entry) → AreCounted counts before → AreCounted result (before ++ entries.now) }
{
    match counts {
        Some(counts) => counts.with_entries(entries),
        None => None,
    }
}
