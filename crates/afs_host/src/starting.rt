//! A server node that is down begins again.

ghost use Rattle.std.specs.Prelude.{◌≡◌, ◌<◌, ◌+◌, ◌++◌, ◌∷◌, [], false, vec_capacity, vec_len, IfOk};
ghost use Rattle.spec_history.specs.declared.lines.Line.TheVariants as lines;
ghost use Rattle.afs_volstore.specs.Stores.{IsCounted};
ghost use Rattle.afs_host.specs.Starting.{IsRefused, Stays};

use crate::resting::{Resting, rest_of};
use crate::stores::OnDisk;
use afs_disk::Disk;
use afs_num::faults::StoreFault;
use afs_num::records::Mark;
use afs_num::sequences::Sequence;
use afs_num::types::{Mem, Node};
use spec_history::lines::{Line, Lines, Outs};
use std::alloc::Global;

/// How a node began again: it is up, and gives this out; or it stays down, with these lines. Or memory ran out: before anything was
/// told or kept; or after the record of its boot, when nothing can be told of that any more.
#[derive(Drop)]
pub enum Start<U, R> {
    Up(U, Outs),
    Down(R, Lines),
    Unchanged(R),
    Lost(R),
}

/// That the disk of a node failed, and nothing else.
pub fn fault_alone(alloc: Global, node: Node) -> Mem<Lines>
    ensures { IfOk result (λ ls. ls ≡ lines.Fault node ∷ []) }
{
    let mut lines = Lines::new(alloc);
    lines.push(Line::Fault { node })?;
    Ok(lines)
}

/// These lines, with room for one more.
pub fn with_room(lines: Lines) -> Mem<Vec<Line>>
    ensures items { IfOk result (λ ls. ls.items ≡ lines) }
    ensures room { IfOk result (λ ls. vec_len ls < vec_capacity ls) }
{
    let mut lines = lines.into_vec();
    lines.reserve(1)?;
    Ok(lines)
}

/// These lines, and one more, for which there is room.
pub fn with_line(lines: Vec<Line>, last: Line) -> Lines
    requires { vec_len lines < vec_capacity lines }
    ensures { result ≡ lines.items ++ last ∷ [] }
{
    let mut lines = lines;
    match lines.push(last) {
        Ok(()) => Sequence::from_vec(lines),
        Err(_) => unreachable!(),
    }
}

/// A node stays down, and tells this after the lines with which the restart began: what these told is told, so its mark is
/// that of the store.
pub fn stay<U, T: OnDisk>(store: T, front: Vec<Line>, last: Line) -> Start<U, Resting<T::D>>
    requires room { vec_len front < vec_capacity front }
    ensures stays { Stays (T.shown store) front.items last result }
    ensures kept { (T.shown store).closed ≡ false → T.kept store (T.D.seen (T.shown store).fuse.disk) (T.D.may_leave (T.shown store).fuse.disk) }
    ensures counted { (T.shown store).closed ≡ false → IsCounted (T.shown store).count (T.D.seen (T.shown store).fuse.disk) }
    ensures capacity { (T.shown store).capacity ≡ T.D.limit (T.shown store).fuse.disk }
{
    Start::Down(rest_of(store), with_line(front, last))
}

/// What is left of a node of which nothing was told: its mark is the one that was told before.
pub fn untold<T: OnDisk>(store: T, told: Mark) -> Resting<T::D>
    ensures value { result ≡ record { disk = (T.shown store).fuse.disk; mark = told } }
    ensures kept { (T.shown store).closed ≡ false → T.kept store (T.D.seen (T.shown store).fuse.disk) (T.D.may_leave (T.shown store).fuse.disk) }
    ensures counted { (T.shown store).closed ≡ false → IsCounted (T.shown store).count (T.D.seen (T.shown store).fuse.disk) }
{
    let Resting { disk, mark: _ } = rest_of(store);
    Resting { disk, mark: told }
}

impl<D: Disk> Resting<D> {
    /// A node whose disk can't be taken up stays down, and tells just this, unless memory ran out.
    pub fn refused<U>(self, refusal: StoreFault, told: Lines) -> Start<U, Resting<D>>
        ensures { IsRefused refusal self told result }
    {
        if refusal == StoreFault::OutOfMemory {
            return Start::Unchanged(self);
        }
        Start::Down(self, told)
    }
}
