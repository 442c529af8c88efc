//! What is told of a step.

ghost use Rattle.std.specs.Prelude.{◌≡◌, [], ◌∷◌, ◌++◌, length, IfOk, OnOk, OnErr, Some};
ghost use Rattle.afs_clients.specs.Happening.{entry_of, front_lines, ClientTells};

use afs_num::histories::Actor;
use afs_num::sequences::Sequence;
use afs_num::types::{Mem, Node};
use afs_wire::Wire;
use spec_history::lines::{Entry, Line, Lines, Outs};
use std::alloc::Global;

/// One line, with room for no other: a long run has many entries of one line.
pub fn one_line(alloc: Global, line: Line) -> Mem<Lines>
    ensures { IfOk result (λ ls. ls ≡ line ∷ []) }
{
    let mut lines = Sequence::from_vec(Vec::with_capacity(alloc, 1)?);
    lines.push(line)?;
    Ok(lines)
}

/// A step that tells one line and sends nothing.
pub fn told_alone(alloc: Global, line: Line) -> Mem<Outs>
    ensures { IfOk result (ClientTells line) }
{
    Ok(Outs {
        lines: one_line(alloc, line)?,
        parcels: Sequence::new(alloc),
    })
}

/// These lines behind one that comes first, if there is one. Where there is no room for it, it is made for this line alone: no
/// other comes, and room for as many again is a large block, which takes long to find.
fn with_front(front: Option<Line>, lines: Lines) -> Mem<Lines>
    ensures { IfOk result (λ ls. ls ≡ front_lines front ++ lines) }
{
    let Some(line) = front else {
        return Ok(lines);
    };
    let mut all = lines.into_vec();
    all.reserve_exact(1)?;
    all.insert(0, line)?;
    Ok(Sequence::from_vec(all))
}

/// Tells a node's step: its messages are sent, and its entry says how many they are. Where memory is wanting nothing is told
/// or sent.
pub fn tell(
    wire: &mut Wire,
    history: &mut Vec<Entry>,
    node: Node,
    front: Option<Line>,
    outs: Outs,
) -> Mem<()>
    ensures gone { wire.new.gone ≡ wire.old.gone }
    ensures sent { OnOk result (wire.new.messages ≡ wire.old.messages ++ outs.parcels) }
    ensures history { OnOk result (history.new.items ≡ history.old.items ++ entry_of node (front_lines front ++ outs.lines) (length outs.parcels) ∷ []) }
    ensures err { OnErr result ((wire.new.messages ≡ wire.old.messages) × (history.new.items ≡ history.old.items)) }
{
    let Outs { parcels, lines } = outs;
    let lines = with_front(front, lines)?;
    wire.reserve(parcels.len())?;
    history.push(Entry {
        actor: Actor::Node(node),
        lines,
        sent: parcels.len(),
    })?;
    wire.send_all(parcels);
    Ok(())
}
