//! What an act names.

ghost use Rattle.std.specs.Prelude.{◌≡◌};
ghost use Rattle.spec_rows.specs.Going.{operands_of, reads_of};
ghost use Rattle.afs_acts.specs.Named.{first_in, operand_at, operands_in, reads_in, second_in};
ghost use Rattle.std.specs.Option.{option_map};

use spec_history::acts::{Act, Operand, Path};

/// An operand of an act, however the act has it.
#[derive(Clone, Copy)]
pub enum Place<'a> {
    Object(&'a Operand),
    Path(&'a Path),
}

/// What an act names: an operand; a path whose last name is meant in its directory; two paths; or nothing.
#[derive(Clone, Copy)]
pub enum Naming<'a> {
    Object(&'a Operand),
    Entry(&'a Path),
    Two(&'a Path, &'a Path),
    Nothing,
}

/// What an act names.
pub fn named(act: &Act) -> Naming<'_>
    ensures operands { operands_of act.now ≡ operands_in result }
    ensures reads { reads_of act.now ≡ reads_in result }
{
    match act {
        Act::Open { operand }
        | Act::ListNames { operand }
        | Act::ReadLink { operand }
        | Act::Stat { operand }
        | Act::StatAll { operand }
        | Act::Close { operand, .. }
        | Act::SetMode { operand, .. }
        | Act::SetAccessList { operand, .. }
        | Act::GetAccessList { operand } => Naming::Object(operand),
        Act::Make { path }
        | Act::MakeDirectory { path }
        | Act::Remove { path }
        | Act::RemoveDirectory { path }
        | Act::Symlink { path, .. } => Naming::Entry(path),
        Act::Move { from, to } => Naming::Two(from, to),
        Act::Link { target, path } => Naming::Two(target, path),
        Act::GiveUp => Naming::Nothing,
    }
}

impl<'a> Naming<'a> {
    /// The operand that it names first.
    pub fn first(self) -> Option<Place<'a>>
        ensures { option_map operand_at result ≡ first_in self.entry }
    {
        match self {
            Naming::Object(operand) => Some(Place::Object(operand)),
            Naming::Entry(path) | Naming::Two(path, _) => Some(Place::Path(path)),
            Naming::Nothing => None,
        }
    }

    /// The second one.
    pub fn second(self) -> Option<Place<'a>>
        ensures { option_map operand_at result ≡ second_in self.entry }
    {
        match self {
            Naming::Two(_, path) => Some(Place::Path(path)),
            Naming::Object(_) | Naming::Entry(_) | Naming::Nothing => None,
        }
    }
}
