//! What an act has read that its walk has left behind.

ghost use Rattle.std.specs.Prelude.{◌≡◌, [], ◌∷◌, ◌++◌, IfOk, OnErr, OnOk};
ghost use Rattle.std.specs.List.{flat_map};

use crate::types::{Shown, copy_shown};
use afs_num::types::Mem;
use std::alloc::Global;
use std::marker::Model;
use std::sync::ArcSlice;

/// So many reads lie in a block that copies share.
const BLOCK: usize = 16;

/// Reads that copies share.
#[derive(Drop)]
struct Block {
    reads: ArcSlice<Shown, Global>,
}

impl Model for Block {
    ghost use Rattle.std.specs.Prelude.{List};
    ghost use Rattle.std.specs.Arc.{arc_slice_items};
    ghost use Rattle.spec_rows.specs.Going.{ReadShown};

    ghost Value = { List ReadShown };

    ghost view = { λ b. arc_slice_items b.reads };
}

/// What an act has read that its walk has left behind, the first first. No walk comes back to it. A copy shares all of it but the last
/// few reads, so that an act which has read much is copied cheaply.
#[derive(Drop)]
pub struct Behind {
    alloc: Global,
    full: Vec<Block>,
    last: Vec<Shown>,
}

impl Model for Behind {
    ghost use Rattle.std.specs.Prelude.{List, ◌++◌};
    ghost use Rattle.std.specs.List.{flat_map};
    ghost use Rattle.spec_rows.specs.Going.{ReadShown};

    ghost Value = { List ReadShown };

    ghost view = { λ b. flat_map (λ (block : List ReadShown). block) b.full.items ++ b.last.items };
}

/// A copy that shares the reads.
fn copy_blocks(alloc: Global, blocks: &[Block]) -> Mem<Vec<Block>>
    ensures { IfOk result (λ c. c.items ≡ blocks.now) }
{
    let mut copy = Vec::with_capacity(alloc, blocks.len())?;
    for block in blocks {
        copy.push(Block {
            reads: block.reads.clone()?,
        })?;
    }
    Ok(copy)
}

impl Behind {
    /// No reads.
    pub fn new(alloc: Global) -> Behind
        ensures { result ≡ [] }
    {
        Behind {
            alloc,
            full: Vec::new(alloc),
            last: Vec::new(alloc),
        }
    }

    /// A copy.
    pub fn copy(&self) -> Mem<Behind>
        ensures { IfOk result (λ c. c ≡ self.now) }
    {
        Ok(Behind {
            alloc: self.alloc,
            full: copy_blocks(self.alloc, &self.full)?,
            last: copy_shown(self.alloc, &self.last)?,
        })
    }

    /// Shares the last reads from now on.
    fn close(&mut self) -> Mem<()>
        ensures { self.new ≡ self.old }
    {
        let reads = ArcSlice::from_vec(copy_shown(self.alloc, &self.last)?)?;
        self.full.push(Block { reads })?;
        self.last.clear();
        Ok(())
    }

    /// Adds a read.
    pub fn push(&mut self, shown: Shown) -> Mem<()>
        ensures ok { OnOk result (self.new ≡ self.old ++ shown ∷ []) }
        ensures err { OnErr result (self.new ≡ self.old) }
    {
        if BLOCK <= self.last.len() {
            self.close()?;
        }
        self.last.push(shown)?;
        Ok(())
    }
}
