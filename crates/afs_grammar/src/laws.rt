//! Laws of what a script is. Their functions do nothing: each contract is a law of the definitions alone.

ghost use Rattle.afs_grammar.specs.CellScripts.{ScriptsAreOfCells};
ghost use Rattle.afs_grammar.specs.FirstBad.{FirstBadLineDecides, LastLineDecides, LongerIsAsItsFront, TooLongIsNoScript};
ghost use Rattle.afs_grammar.specs.Narrow.{NarrowFormsHaveOneServer};
ghost use Rattle.afs_grammar.specs.Sizes.{FirstEntriesAreTheSum, FirstRecordIsTheSum};
ghost use Rattle.afs_grammar.specs.Worked.{BadLines, OneIsRead};

/// Where lines are good and the line behind them is bad, the whole is bad with that line's number and reason, whatever
/// follows it.
pub fn first_bad_line_decides()
    ensures { FirstBadLineDecides }
{}

/// Where lines are good and no newline is behind them, what stands after the last newline decides.
pub fn last_line_decides()
    ensures { LastLineDecides }
{}

/// What stands behind a front that is too long changes nothing.
pub fn longer_is_as_its_front()
    ensures { LongerIsAsItsFront }
{}

/// What is too long is no script.
pub fn too_long_is_no_script()
    ensures { TooLongIsNoScript }
{}

/// Every script is one of a cell: its counts, nodes, names, bytes and sums are within their limits, and set-up accepts its
/// lines.
pub fn scripts_are_of_cells()
    ensures { ScriptsAreOfCells }
{}

/// Below the level of several servers every script has one.
pub fn narrow_forms_have_one_server()
    ensures { NarrowFormsHaveOneServer }
{}

/// The first record of a server is as long as its volumes' sizes say, whose numbers ascend.
pub fn first_record_is_the_sum()
    ensures { FirstRecordIsTheSum }
{}

/// The first record of the location database is as long as its volumes' names say.
pub fn first_entries_are_the_sum()
    ensures { FirstEntriesAreTheSum }
{}

/// Some bad lines, each with its reason.
pub fn bad_lines_have_their_reasons()
    ensures { BadLines }
{}

/// A script that is read.
pub fn one_is_read()
    ensures { OneIsRead }
{}
