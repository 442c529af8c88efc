//! Headers: eight words before each message.

ghost use Rattle.std.specs.Prelude.{◌≡◌, ◌++◌, Ok, Err, OnOk, OnErr};
ghost use Rattle.afs_xdr.specs.Reading.{Reads, Gives, KeepsEnd};
ghost use Rattle.afs_xdr.specs.Words.{words, AreWords};
ghost use Rattle.spec_model.specs.Heads.{half_number, half_of, half_at, node_at, head_at, head_words};
ghost use Rattle.spec_shape.specs.Reading.{ReadsShape};
ghost use Rattle.spec_model.specs.Rpc.{first_of, same_half, half_head_at};

use afs_num::types::{Half, Head, Mem, Node};
use afs_xdr::faults::XdrFault;
use afs_xdr::reading::Reader;
use afs_xdr::writing::Writer;
use spec_shape::faults::ShapeFault;

fn half_of_word(n: u32) -> Option<Half>
    ensures { result ≡ half_of n }
{
    match n {
        1 => Some(Half::Call),
        2 => Some(Half::Reply),
        3 => Some(Half::Boot),
        _ => None,
    }
}

fn word_of_half(half: Half) -> u32
    ensures { result ≡ half_number half }
{
    match half {
        Half::Call => 1,
        Half::Reply => 2,
        Half::Boot => 3,
    }
}

#[tactic(auto, unfolding(spec_model::specs::Heads::half_at))]
fn read_half(r: &mut Reader) -> Result<Half, XdrFault>
    ensures value { Reads half_at (λ x. x) r.old r.new result }
    ensures end { KeepsEnd r.old r.new }
{
    let n = r.word()?;
    match half_of_word(n) {
        Some(half) => Ok(half),
        None => Err(XdrFault::BadHead),
    }
}

#[tactic(auto, unfolding(spec_model::specs::Heads::node_at))]
fn read_node(r: &mut Reader) -> Result<Node, XdrFault>
    ensures value { Reads node_at (λ x. x) r.old r.new result }
    ensures end { KeepsEnd r.old r.new }
{
    let n = r.word()?;
    match Node::from_number(n) {
        Some(node) => Ok(node),
        None => Err(XdrFault::BadHead),
    }
}

/// Reads a header: `BadHead` at an unknown half or node, `Short` where the bytes end in it.
#[tactic(auto, unfolding(spec_model::specs::Heads::head_at))]
pub fn head_of(r: &mut Reader) -> Result<Head, XdrFault>
    ensures value { Reads head_at (λ x. x) r.old r.new result }
    ensures end { KeepsEnd r.old r.new }
{
    let mut ahead = r.fork();
    let half = read_half(&mut ahead)?;
    let from = read_node(&mut ahead)?;
    let to = read_node(&mut ahead)?;
    let epoch = ahead.word()?;
    let number = ahead.word()?;
    let boot = ahead.word()?;
    let stamp = ahead.word()?;
    let opcode = ahead.word()?;
    *r = ahead;
    Ok(Head {
        half,
        from,
        to,
        epoch,
        number,
        boot,
        stamp,
        opcode,
    })
}

fn is_half(a: Half, b: Half) -> bool
    ensures { result ≡ same_half a b }
{
    match (a, b) {
        (Half::Call, Half::Call) | (Half::Reply, Half::Reply) | (Half::Boot, Half::Boot) => true,
        _ => false,
    }
}

/// Reads a header of this half.
#[tactic(auto, unfolding(spec_model::specs::Rpc::half_head_at))]
pub fn head_of_half(r: &mut Reader, half: Half) -> Result<Head, ShapeFault>
    ensures { ReadsShape (half_head_at half) (λ h. h) r.old r.new result }
{
    match head_of(r) {
        Ok(head) => {
            if is_half(head.half, half) {
                Ok(head)
            } else {
                Err(ShapeFault::Head(XdrFault::BadHead))
            }
        }
        Err(fault) => Err(ShapeFault::Head(fault)),
    }
}

/// The header of a message. It takes no memory.
pub fn read_head(bytes: &[u8]) -> Result<Head, XdrFault>
    ensures { Gives (λ h. h) (first_of (head_at bytes.now)) result }
{
    let mut r = Reader::new(bytes);
    head_of(&mut r)
}

/// Appends a header. Want of memory leaves the writer as it was.
pub fn write_head(head: &Head, w: &mut Writer) -> Mem<()>
    ensures ok { OnOk result (w.new ≡ w.old ++ words (head_words head.now)) }
    ensures fits { AreWords (head_words head.now) }
    ensures err { OnErr result (w.new ≡ w.old) }
{
    w.words(&[
        word_of_half(head.half),
        head.from.number(),
        head.to.number(),
        head.epoch,
        head.number,
        head.boot,
        head.stamp,
        head.opcode,
    ])
}
