//! What the lines of a history show: bodies and statuses.

ghost use Rattle.std.specs.Prelude.{◌+◌, ◌*◌, ◌≤◌, ◌++◌, codes, length};
ghost use Rattle.afs_outside.specs.Outside.{Puts};
ghost use Rattle.afs_text.specs.Laying.{Lays};
ghost use Rattle.spec_model.specs.LineText.{entry_name_text, hex_text, name_text, more_names_text, directory_text, body_text, status_text, read_body_text, source_text, owed_text};

use crate::bytes::{Name, lay_hex};
use crate::laying::{Short, TextPiece, lay_short, make_room};
use crate::pieces::{Print, lay_long};
use afs_num::directories;
use afs_num::histories::{Body, ReadBody, ReadSource, ReadStatus};
use afs_num::types::Fid;
use afs_outside::outside::{Failed, Sink, put_bytes};

/// The longest name that is laid together with its numbers.
const SHORT_NAME: usize = 64;

impl<'a> Short for &'a directories::Name {
    ghost text = { λ name. entry_name_text name.now };

    ghost most = { λ name. 3 * length name.now.name + 24 };

    #[inline(always)]
    fn lay(&self, bytes: &mut [u8], at: usize) -> usize {
        row!(
            Name(self.name.as_slice()),
            "=",
            self.vnode,
            ".",
            self.unique
        )
        .lay(bytes, at)
    }
}

/// Lays a name in a directory. A long name is put, and then its numbers are laid.
fn lay_name<K: Sink>(
    sink: &mut K,
    piece: &mut TextPiece,
    name: &directories::Name,
) -> Result<(), Failed>
    ensures { Lays (entry_name_text name.now) piece.old piece.new (K.held sink.old) (K.held sink.new) (K.faults sink.old) (K.faults sink.new) result }
{
    let bytes = name.name.as_slice();
    if bytes.len() <= SHORT_NAME {
        make_room(sink, piece, 3 * bytes.len() + 24)?;
        piece.lay(&name);
        return Ok(());
    }
    lay_long(sink, piece, &Name(bytes))?;
    lay_short(sink, piece, &row!("=", name.vnode, ".", name.unique))
}

/// Lays a comma and a name in a directory. Each byte of the name may need three, the comma and the numbers need 25.
fn lay_next_name<K: Sink>(
    sink: &mut K,
    piece: &mut TextPiece,
    name: &directories::Name,
) -> Result<(), Failed>
    ensures { Lays (codes "," ++ entry_name_text name.now) piece.old piece.new (K.held sink.old) (K.held sink.new) (K.faults sink.old) (K.faults sink.new) result }
{
    let len = name.name.as_slice().len();
    if len <= SHORT_NAME {
        make_room(sink, piece, 3 * len + 25)?;
        piece.lay(&row!(",", name));
        return Ok(());
    }
    lay_short(sink, piece, &",")?;
    lay_name(sink, piece, name)
}

/// Lays names in a directory, each behind a comma.
#[tactic(auto, unfolding(spec_model::specs::LineText::more_names_text))]
fn lay_more_names<K: Sink>(
    sink: &mut K,
    piece: &mut TextPiece,
    names: &[directories::Name],
) -> Result<(), Failed>
    ensures { Lays (more_names_text names.now) piece.old piece.new (K.held sink.old) (K.held sink.new) (K.faults sink.old) (K.faults sink.new) result }
{
    for name in names {
        lay_next_name(sink, piece, name)?;
    }
    Ok(())
}

/// Lays the first name in a directory, and the others.
fn lay_names<K: Sink>(
    sink: &mut K,
    piece: &mut TextPiece,
    first: &directories::Name,
    others: &[directories::Name],
) -> Result<(), Failed>
    ensures { Lays (entry_name_text first.now ++ more_names_text others.now) piece.old piece.new (K.held sink.old) (K.held sink.new) (K.faults sink.old) (K.faults sink.new) result }
{
    lay_name(sink, piece, first)?;
    lay_more_names(sink, piece, others)
}

/// Lays the names of a directory.
#[tactic(auto, unfolding(spec_model::specs::LineText::directory_text))]
fn lay_all_names<K: Sink>(
    sink: &mut K,
    piece: &mut TextPiece,
    names: &[directories::Name],
) -> Result<(), Failed>
    ensures { Lays (directory_text names.now) piece.old piece.new (K.held sink.old) (K.held sink.new) (K.faults sink.old) (K.faults sink.new) result }
{
    match names {
        [] => lay_short(sink, piece, &""),
        [first, others @ ..] => lay_names(sink, piece, first, others),
    }
}

/// Lays a directory.
fn lay_directory<K: Sink>(
    sink: &mut K,
    piece: &mut TextPiece,
    names: &[directories::Name],
) -> Result<(), Failed>
    ensures { Lays (codes "d:" ++ directory_text names.now) piece.old piece.new (K.held sink.old) (K.held sink.new) (K.faults sink.old) (K.faults sink.new) result }
{
    lay_short(sink, piece, &"d:")?;
    lay_all_names(sink, piece, names)
}

/// Lays a kind of contents, and then these as hexadecimal digits.
fn lay_contents<K: Sink>(
    sink: &mut K,
    piece: &mut TextPiece,
    kind: &str,
    bytes: &[u8],
) -> Result<(), Failed>
    requires { length kind.now ≤ 128 }
    ensures { Lays (kind.now ++ hex_text bytes.now) piece.old piece.new (K.held sink.old) (K.held sink.new) (K.faults sink.old) (K.faults sink.new) result }
{
    lay_short(sink, piece, &kind)?;
    lay_hex(sink, piece, bytes)
}

/// Lays what a version holds.
#[tactic(auto, unfolding(spec_model::specs::LineText::body_text))]
pub(crate) fn lay_body<K: Sink>(
    sink: &mut K,
    piece: &mut TextPiece,
    body: &Body,
) -> Result<(), Failed>
    ensures { Lays (body_text body.now) piece.old piece.new (K.held sink.old) (K.held sink.new) (K.faults sink.old) (K.faults sink.new) result }
{
    match body {
        Body::File(contents) => lay_contents(sink, piece, "f:", contents.as_slice()),
        Body::Dir(names) => lay_directory(sink, piece, names.as_slice()),
        Body::Link(target) => lay_contents(sink, piece, "l:", target.as_slice()),
        Body::Gone => lay_short(sink, piece, &"gone"),
    }
}

impl<'a> Print for &'a Body {
    ghost text = { λ body. body_text body.now };

    fn print<K: Sink>(&self, sink: &mut K) -> Result<(), Failed> {
        let mut piece = TextPiece::new();
        lay_body(sink, &mut piece, self)?;
        put_bytes(sink, piece.as_slice())
    }
}

impl Short for ReadStatus {
    ghost text = { status_text };

    ghost most = { λ _. 55 };

    #[tactic(auto, unfolding(spec_model::specs::LineText::status_text))]
    fn lay(&self, bytes: &mut [u8], at: usize) -> usize {
        row!(
            "s:",
            self.kind,
            ",",
            self.link_count,
            ",",
            self.length,
            ",",
            self.mode
        )
        .lay(bytes, at)
    }
}

/// Lays what a read shows.
#[tactic(auto, unfolding(spec_model::specs::LineText::read_body_text))]
pub(crate) fn lay_read_body<K: Sink>(
    sink: &mut K,
    piece: &mut TextPiece,
    body: &ReadBody,
) -> Result<(), Failed>
    ensures { Lays (read_body_text body.now) piece.old piece.new (K.held sink.old) (K.held sink.new) (K.faults sink.old) (K.faults sink.new) result }
{
    match body {
        ReadBody::Contents(body) => lay_body(sink, piece, body),
        ReadBody::Status(status) => lay_short(sink, piece, status),
        ReadBody::AccessList(text) => lay_contents(sink, piece, "a:", text.as_slice()),
    }
}

impl Short for ReadSource {
    ghost text = { source_text };

    ghost most = { λ _. 7 };

    fn lay(&self, bytes: &mut [u8], at: usize) -> usize {
        match self {
            ReadSource::Cached => "cached".lay(bytes, at),
            ReadSource::Fetched => "fetched".lay(bytes, at),
        }
    }
}

/// What an owed break is on.
#[derive(Drop)]
pub struct Owed(pub Option<Fid>);

impl Short for Owed {
    ghost text = { λ owed. owed_text owed.0 };

    ghost most = { λ _. 35 };

    fn lay(&self, bytes: &mut [u8], at: usize) -> usize {
        match self.0 {
            Some(fid) => fid.lay(bytes, at),
            None => "all".lay(bytes, at),
        }
    }
}
