//! Laws of made scripts. Their functions do nothing: each contract is a law of the definitions alone.

ghost use Rattle.afs_generate.specs.Cells.{GeneratedAreOfCells};

/// A made script is one of a cell, whatever its number.
pub fn generated_are_of_cells()
    ensures { GeneratedAreOfCells }
{}
