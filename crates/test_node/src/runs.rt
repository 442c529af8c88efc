//! Texts one after the other, of which equal ones are counted.

use afs_num::types::Mem;
use std::alloc::Global;
use std::fmt::Write;

/// What was told so far, and the last text, which came so many times.
#[derive(Drop)]
pub(crate) struct Runs {
    told: String,
    last: String,
    count: u32,
    all: u32,
}

impl Runs {
    pub(crate) fn new(alloc: Global) -> Runs {
        Runs {
            told: String::new(alloc),
            last: String::new(alloc),
            count: 0,
            all: 0,
        }
    }

    /// How many came, and this one.
    pub(crate) fn next(&self) -> u32 {
        self.all.saturating_add(1)
    }

    /// Tells the last text.
    fn tell(&mut self) -> Mem<()> {
        if self.count > 0 {
            writeln!(self.told, "{} times {}", self.count, self.last)?;
        }
        Ok(())
    }

    /// This text comes.
    pub(crate) fn push(&mut self, text: String) -> Mem<()> {
        self.all = self.next();
        if self.count > 0 && self.last.as_str() == text.as_str() {
            self.count = self.count.saturating_add(1);
            return Ok(());
        }
        self.tell()?;
        self.last = text;
        self.count = 1;
        Ok(())
    }

    /// All that came, told; and that something failed where it did.
    pub(crate) fn ended(self, done: Option<()>) -> String {
        let mut runs = self;
        let done = done.and(runs.tell().ok());
        let Runs { mut told, .. } = runs;
        if done.is_none() {
            let _ = told.push_str("failed");
        }
        told
    }
}
