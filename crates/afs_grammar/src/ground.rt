//! What a script's volumes are laid on.

ghost use Rattle.std.specs.Prelude.{◌≡◌, ◌++◌, ◌∷◌, [], List, true, OnOk};
ghost use Rattle.afs_num.specs.Names.{volume_name_ok};
ghost use Rattle.spec_history.specs.declared.scripts.VolumeLine.{VolumeLine};
ghost use Rattle.afs_words.specs.Reads.{Gives};
ghost use Rattle.afs_grammar.specs.Grounds.{IsNext};
ghost use Rattle.afs_grammar.specs.Lines.{line_fits, line_laid, volume_fits};

use afs_words::faults::LineFault;
use spec_history::scripts::{SetupLine, VolumeLine};
use std::alloc::Global;

/// The volumes at set-up. A ground need not hold the lines that were laid on it. After a refusal, or where memory was
/// wanting, it may hold a part of what was to be laid: it is to be dropped then.
pub trait Ground {
    /// These volumes are laid, each with the lines that were laid in it.
    ghost lays: { Self → List VolumeLine → Type 0 };

    /// A new volume is laid behind the others; Limit where the first record of its server, or that of the location
    /// database, would be too long for a disk of this capacity.
    fn add(&mut self, alloc: Global, volume: &VolumeLine, capacity: u32) -> Result<(), LineFault>
        requires bare { volume.now.lines ≡ [] }
        requires name { volume_name_ok volume.now.name ≡ true }
        ensures fits { (ls : List VolumeLine) → lays self.old ls → IsNext volume.now ls → Gives (volume_fits capacity volume.now ls) result }
        ensures lays { OnOk result ((ls : List VolumeLine) → lays self.old ls → IsNext volume.now ls → lays self.new (ls ++ volume.now ∷ [])) };

    /// A line is laid in the volume of this place: Path where there is none, Path or Limit where the operation of set-up is
    /// refused, and Limit where the first record of its server would be too long for a disk of this capacity.
    fn lay(
        &mut self,
        alloc: Global,
        place: usize,
        line: &SetupLine,
        capacity: u32,
    ) -> Result<(), LineFault>
        ensures fits { (ls : List VolumeLine) → lays self.old ls → Gives (line_fits capacity place line.now ls) result }
        ensures lays { OnOk result ((ls : List VolumeLine) → lays self.old ls → lays self.new (line_laid place line.now ls)) };
}
