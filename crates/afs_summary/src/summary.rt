//! The summary of a run is written.

ghost use Rattle.std.specs.Prelude.{◌≡◌, OnOk};
ghost use Rattle.afs_outside.specs.Outside.{Puts};
ghost use Rattle.afs_summary.specs.Summary.{summary_text};

use crate::counts::Counts;
use afs_outside::outside::{Failed, Sink, pass_on};
use afs_text::pieces::Print;

/// A number, and what a history of so many acts counts.
#[derive(Clone, Copy, Debug)]
pub struct Summary {
    pub number: u32,
    pub acts: u64,
    pub counts: Counts,
}

/// What was done.
impl Print for Summary {
    ghost text = { summary_text };

    #[tactic(auto, unfolding(crate::specs::Summary::summary_text))]
    fn print<K: Sink>(&self, sink: &mut K) -> Result<(), Failed> {
        let counts = &self.counts;
        let answers = (counts.zero, ("\nother ", (counts.other, "\nend\n")));
        let done = (
            counts.sent,
            ("\nchanges ", (counts.changes, ("\nzero ", answers))),
        );
        let steps = (
            self.acts,
            ("\nentries ", (counts.entries, ("\nsent ", done))),
        );
        ("gen ", (self.number, ("\nacts ", steps))).print(sink)
    }
}

/// Writes the summary, and passes it on.
pub fn put_summary<K: Sink>(sink: &mut K, summary: &Summary) -> Result<(), Failed>
    ensures all { OnOk result (K.passed sink.new ≡ K.held sink.new) }
    ensures puts { Puts (summary_text summary.now) (K.held sink.old) (K.held sink.new) (K.faults sink.old) (K.faults sink.new) result }
{
    summary.print(sink)?;
    pass_on(sink)
}
