//! Bytes cut at each byte of one value.

ghost use Rattle.std.specs.Prelude.{◌≡◌, [], ◌∷◌, ◌<◌, ◌≤◌, length, nat_eq, IfSome, IfNone};
ghost use Rattle.std.specs.List.{position_or_len};
ghost use Rattle.std.specs.Option.{option_copied};
ghost use Rattle.spec_model.specs.ScriptWords.{parts};
ghost use Rattle.afs_words.specs.Reads.{Cuts, CutsClosed};
ghost use Rattle.afs_words.specs.Parts.{parts_left};

use std::marker::Model;

/// The parts that are left; contracts see their list.
#[derive(Drop)]
pub struct Parts<'a> {
    rest: Option<&'a [u8]>,
    cut: u8,
}

impl<'a> Model for Parts<'a> {
    ghost use Rattle.std.specs.Prelude.{ℕ, List};
    ghost use Rattle.std.specs.Option.{option_copied};
    ghost use Rattle.afs_words.specs.Parts.{parts_left};

    ghost Value = { List (List ℕ) };

    ghost view = { λ p. parts_left p.cut (option_copied p.rest) };
}

/// Where the first byte of this value is, or the length where there is none.
fn place_of(cut: u8, bytes: &[u8]) -> usize
    ensures { result ≡ position_or_len (λ b. nat_eq b cut) bytes.now }
{
    bytes.iter().take_while(|byte| **byte != cut).count()
}

/// The bytes before the first cut, and those behind it, if there is one.
fn cut_at(cut: u8, bytes: &[u8]) -> (&[u8], Option<&[u8]>)
    ensures { parts cut bytes.now ≡ result.0.now ∷ parts_left cut (option_copied result.1) }
{
    let place = place_of(cut, bytes);
    if place < bytes.len() {
        let rest = bytes.split_at(place + 1).1;
        (bytes.split_at(place).0, Some(rest))
    } else {
        (bytes, None)
    }
}

/// The bytes before the first cut, and those behind it.
fn closed_cut(cut: u8, bytes: &[u8]) -> Option<(&[u8], &[u8])>
    ensures none { IfNone result (length (parts cut bytes.now) ≤ 1) }
    ensures some { IfSome result (λ p. parts cut bytes.now ≡ p.0.now ∷ parts cut p.1.now) }
    ensures more { IfSome result (λ p. 0 < length (parts cut p.1.now)) }
{
    let (part, rest) = cut_at(cut, bytes);
    let more = rest?;
    Some((part, more))
}

impl<'a> Parts<'a> {
    /// All parts of these bytes: one more than there are cuts.
    pub fn new(bytes: &'a [u8], cut: u8) -> Self
        ensures { result ≡ parts cut bytes.entry.now }
    {
        Parts {
            rest: Some(bytes),
            cut,
        }
    }

    /// The same parts once more.
    pub fn again(&self) -> Parts<'a>
        ensures { result ≡ self.now }
    {
        Parts {
            rest: self.rest,
            cut: self.cut,
        }
    }

    /// The next part.
    pub fn part(&mut self) -> Option<&'a [u8]>
        ensures { Cuts self.old self.new (option_copied result) }
    {
        let bytes = self.rest?;
        let (part, rest) = cut_at(self.cut, bytes);
        self.rest = rest;
        Some(part)
    }

    /// The next part, if a cut stands behind it.
    pub fn closed_part(&mut self) -> Option<&'a [u8]>
        ensures { CutsClosed self.old self.new (option_copied result) }
    {
        let (part, more) = closed_cut(self.cut, self.rest?)?;
        self.rest = Some(more);
        Some(part)
    }
}
