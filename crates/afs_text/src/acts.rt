//! Acts, as a script writes them.

ghost use Rattle.std.specs.Prelude.{◌≡◌, ◌<◌, ◌++◌, codes};
ghost use Rattle.afs_outside.specs.Outside.{Puts};
ghost use Rattle.spec_model.specs.LineText.{hex_byte};
ghost use Rattle.afs_text.specs.Laying.{Lays};
ghost use Rattle.afs_text.specs.ActText.{act_text, admin_act_text, begin_text, names_text, octal, operand_text, path_text, step_text, written_text};

use crate::bytes::{Hex, HexByte, Name};
use crate::laying::{TextPiece, lay_short, put_short};
use crate::pieces::{Print, lay_long};
use afs_num::sequences::Octets;
use afs_num::types::Node;
use afs_outside::outside::{Failed, Sink, put_bytes};
use spec_history::acts::{Act, Operand, Path, Written};
use spec_history::scripts::AdminAct;

// ---- operands

/// Writes a number in octal digits, the first of which isn't 0 but where it is the only one.
fn put_octal<K: Sink>(sink: &mut K, n: u32) -> Result<(), Failed>
    ensures { Puts (octal n) (K.held sink.old) (K.held sink.new) (K.faults sink.old) (K.faults sink.new) result }
{
    if n < 8 {
        return put_bytes(sink, &[b'0' + n as u8]);
    }
    put_octal(sink, n / 8)?;
    put_bytes(sink, &[b'0' + (n % 8) as u8])
}

/// A mode of Unix.
#[derive(Drop)]
struct Mode(u32);

impl Print for Mode {
    ghost text = { λ mode. octal mode.0 };

    fn print<K: Sink>(&self, sink: &mut K) -> Result<(), Failed> {
        put_octal(sink, self.0)
    }
}

impl<'a> Print for &'a Written {
    ghost text = { λ written. written_text written.now };

    #[tactic(auto, unfolding(crate::specs::ActText::written_text, spec_model::specs::LineText::hex_text))]
    fn print<K: Sink>(&self, sink: &mut K) -> Result<(), Failed> {
        match *self {
            Written::Hex(bytes) => row!("hex:", Hex(bytes.as_slice())).print(sink),
            Written::Fill { count, byte } => {
                put_short(sink, &row!("fill:", *count, ":", HexByte(*byte)))
            }
        }
    }
}

/// Writes a name behind a slash.
fn put_step<K: Sink>(sink: &mut K, name: &Octets) -> Result<(), Failed>
    ensures { Puts (step_text name.now) (K.held sink.old) (K.held sink.new) (K.faults sink.old) (K.faults sink.new) result }
{
    row!("/", Name(name.as_slice())).print(sink)
}

/// Writes names, each behind a slash.
#[tactic(auto, unfolding(crate::specs::ActText::names_text))]
fn put_names<K: Sink>(sink: &mut K, names: &[Octets]) -> Result<(), Failed>
    ensures { Puts (names_text names.now) (K.held sink.old) (K.held sink.new) (K.faults sink.old) (K.faults sink.new) result }
{
    for name in names {
        put_step(sink, name)?;
    }
    Ok(())
}

/// Names, each behind a slash.
#[derive(Drop)]
struct Names<'a>(&'a [Octets]);

impl<'a> Print for Names<'a> {
    ghost text = { λ names. names_text names.0.now };

    fn print<K: Sink>(&self, sink: &mut K) -> Result<(), Failed> {
        put_names(sink, self.0)
    }
}

impl<'a> Print for &'a Path {
    ghost text = { λ path. path_text path.now };

    #[tactic(auto, unfolding(crate::specs::ActText::path_text))]
    fn print<K: Sink>(&self, sink: &mut K) -> Result<(), Failed> {
        row!(Name(self.volume.as_slice()), Names(self.names.as_slice())).print(sink)
    }
}

impl<'a> Print for &'a Operand {
    ghost text = { λ operand. operand_text operand.now };

    #[tactic(auto, unfolding(crate::specs::ActText::operand_text))]
    fn print<K: Sink>(&self, sink: &mut K) -> Result<(), Failed> {
        match *self {
            Operand::Path(path) => path.print(sink),
            Operand::Fid(fid) => row!("@", *fid).print(sink),
        }
    }
}

// ---- acts

/// Writes the word of an act, and its operand.
fn put_one<K: Sink, P: Print + Drop>(sink: &mut K, word: &str, operand: P) -> Result<(), Failed>
    ensures { Puts (word.now ++ P.text operand) (K.held sink.old) (K.held sink.new) (K.faults sink.old) (K.faults sink.new) result }
{
    row!(word, operand).print(sink)
}

/// Writes the word of an act, and its two operands.
fn put_two<K: Sink, P: Print + Drop, Q: Print + Drop>(
    sink: &mut K,
    word: &str,
    first: P,
    second: Q,
) -> Result<(), Failed>
    ensures { Puts (word.now ++ (P.text first ++ (codes " " ++ Q.text second))) (K.held sink.old) (K.held sink.new) (K.faults sink.old) (K.faults sink.new) result }
{
    row!(word, first, " ", second).print(sink)
}

/// Writes the word of an act, and its three operands.
fn put_three<K: Sink, P: Print + Drop, Q: Print + Drop, R: Print + Drop>(
    sink: &mut K,
    word: &str,
    first: P,
    second: Q,
    third: R,
) -> Result<(), Failed>
    ensures { Puts (word.now ++ (P.text first ++ (codes " " ++ (Q.text second ++ (codes " " ++ R.text third))))) (K.held sink.old) (K.held sink.new) (K.faults sink.old) (K.faults sink.new) result }
{
    row!(word, first, " ", second, " ", third).print(sink)
}

impl<'a> Print for &'a Act {
    ghost text = { λ act. act_text act.now };

    #[tactic(auto, unfolding(crate::specs::ActText::act_text))]
    fn print<K: Sink>(&self, sink: &mut K) -> Result<(), Failed> {
        match *self {
            Act::Open { operand } => put_one(sink, "open ", operand),
            Act::ListNames { operand } => put_one(sink, "list ", operand),
            Act::ReadLink { operand } => put_one(sink, "readlink ", operand),
            Act::Stat { operand } => put_one(sink, "stat ", operand),
            Act::StatAll { operand } => put_one(sink, "statall ", operand),
            Act::Close { operand, contents } => put_two(sink, "close ", operand, contents),
            Act::Make { path } => put_one(sink, "make ", path),
            Act::MakeDirectory { path } => put_one(sink, "mkdir ", path),
            Act::Remove { path } => put_one(sink, "rm ", path),
            Act::RemoveDirectory { path } => put_one(sink, "rmdir ", path),
            Act::Move { from, to } => put_two(sink, "mv ", from, to),
            Act::Link { target, path } => put_two(sink, "ln ", target, path),
            Act::Symlink { path, target } => put_two(sink, "symlink ", path, target),
            Act::SetMode { operand, mode } => put_two(sink, "chmod ", operand, Mode(*mode)),
            Act::SetAccessList { operand, text } => { put_two(sink, "setacl ", operand, text) }
            Act::GetAccessList { operand } => put_one(sink, "getacl ", operand),
            Act::GiveUp => "giveup".print(sink),
        }
    }
}

impl<'a> Print for &'a AdminAct {
    ghost text = { λ act. admin_act_text act.now };

    #[tactic(auto, unfolding(crate::specs::ActText::admin_act_text))]
    fn print<K: Sink>(&self, sink: &mut K) -> Result<(), Failed> {
        match *self {
            AdminAct::Create {
                name,
                server,
                quota,
            } => put_three(
                sink,
                "create ",
                Name(name.as_slice()),
                Node::Server(*server),
                *quota,
            ),
            AdminAct::Restore {
                name,
                server,
                label,
            } => put_three(
                sink,
                "restore ",
                Name(name.as_slice()),
                Node::Server(*server),
                Name(label.as_slice()),
            ),
            AdminAct::AddSite { name, server } => put_two(
                sink,
                "addsite ",
                Name(name.as_slice()),
                Node::Server(*server),
            ),
            AdminAct::Backup { name } => put_one(sink, "backup ", Name(name.as_slice())),
            AdminAct::Release { name } => put_one(sink, "release ", Name(name.as_slice())),
            AdminAct::Move { name, server } => put_two(
                sink,
                "move ",
                Name(name.as_slice()),
                Node::Server(*server),
            ),
            AdminAct::Dump { name, label, from } => put_three(
                sink,
                "dump ",
                Name(name.as_slice()),
                Name(label.as_slice()),
                *from,
            ),
            AdminAct::Remove { name } => put_one(sink, "remove ", Name(name.as_slice())),
            AdminAct::Recover { name } => put_one(sink, "recover ", Name(name.as_slice())),
        }
    }
}

/// Lays the line with which an act begins.
#[tactic(auto, unfolding(crate::specs::ActText::begin_text))]
pub fn lay_begin<K: Sink, P: Print>(
    sink: &mut K,
    piece: &mut TextPiece,
    node: Node,
    act: &P,
) -> Result<(), Failed>
    ensures { Lays (begin_text node (P.text act.now)) piece.old piece.new (K.held sink.old) (K.held sink.new) (K.faults sink.old) (K.faults sink.new) result }
{
    lay_short(sink, piece, &row!("begin ", node, " "))?;
    lay_long(sink, piece, act)?;
    lay_short(sink, piece, &"\n")
}
