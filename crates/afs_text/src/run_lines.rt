//! The lines of a run whose clients take every act.

ghost use Rattle.afs_text.specs.Laying.{Lays};
ghost use Rattle.afs_text.specs.RunText.{line_text};

use crate::acts::lay_begin;
use crate::laying::{TextPiece, lay_short};
use crate::lines::{
    lay_answer, lay_change, lay_crash, lay_drop, lay_drop_all, lay_dumped, lay_enable, lay_fail,
    lay_fault, lay_fence, lay_full, lay_given, lay_grant, lay_located, lay_locked, lay_made,
    lay_older, lay_owe, lay_quit, lay_read, lay_recovered, lay_released, lay_restart, lay_settle,
    lay_stop, lay_stuck, lay_tick, lay_timeout, lay_unlocked, lay_vanish, lay_version,
};
use crate::pieces::Print;
use afs_outside::outside::{Failed, Sink, put_bytes};
use spec_history::lines::Line;

/// Lays a line.
#[tactic(auto, unfolding(crate::specs::RunText::line_text))]
pub(crate) fn lay_line<K: Sink>(
    sink: &mut K,
    piece: &mut TextPiece,
    line: &Line,
) -> Result<(), Failed>
    ensures { Lays (line_text line.now) piece.old piece.new (K.held sink.old) (K.held sink.new) (K.faults sink.old) (K.faults sink.new) result }
{
    match line {
        Line::Begin { node, act } => lay_begin(sink, piece, *node, &act.get()),
        Line::Given { place } => lay_given(sink, piece, *place),
        Line::Grant {
            server,
            client,
            fid,
            index,
            expiry,
        } => lay_grant(sink, piece, *server, *client, *fid, *index, *expiry),
        Line::Change { server, key, count } => lay_change(sink, piece, *server, *key, *count),
        Line::Version { version } => lay_version(sink, piece, version),
        Line::Read {
            client,
            fid,
            index,
            source,
            body,
        } => lay_read(sink, piece, *client, *fid, *index, *source, body),
        Line::Answer { node, code } => lay_answer(sink, piece, *node, *code),
        Line::Timeout {
            caller,
            callee,
            epoch,
            number,
            count,
        } => lay_timeout(sink, piece, *caller, *callee, *epoch, *number, *count),
        Line::Tick { ticks } => lay_tick(sink, piece, *ticks),
        Line::Stop { node, calls, pick } => lay_stop(sink, piece, *node, *calls, *pick),
        Line::Fail { node, calls } => lay_fail(sink, piece, *node, *calls),
        Line::Crash { node } => lay_crash(sink, piece, *node),
        Line::Fault { node } => lay_fault(sink, piece, *node),
        Line::Restart { node, boot } => lay_restart(sink, piece, *node, *boot),
        Line::Full { node } => lay_full(sink, piece, *node),
        Line::Drop { client, fid } => lay_drop(sink, piece, *client, *fid),
        Line::DropAll { client, server } => lay_drop_all(sink, piece, *client, *server),
        Line::Owe {
            server,
            client,
            fid,
            number,
        } => lay_owe(sink, piece, *server, *client, *fid, *number),
        Line::Settle {
            server,
            client,
            number,
        } => lay_settle(sink, piece, *server, *client, *number),
        Line::Quit {
            server,
            client,
            number,
        } => lay_quit(sink, piece, *server, *client, *number),
        Line::Made {
            server,
            volume,
            count,
        } => lay_made(sink, piece, *server, *volume, *count),
        Line::Fence { volume, server } => lay_fence(sink, piece, *volume, *server),
        Line::Enable { volume, server } => lay_enable(sink, piece, *volume, *server),
        Line::Vanish { volume, server } => lay_vanish(sink, piece, *volume, *server),
        Line::Released {
            family,
            volume,
            release,
            server,
        } => lay_released(sink, piece, *family, *volume, *release, *server),
        Line::Locked {
            volume,
            stamp,
            operation,
        } => lay_locked(sink, piece, *volume, *stamp, *operation),
        Line::Unlocked { volume } => lay_unlocked(sink, piece, *volume),
        Line::Recovered { volume } => lay_recovered(sink, piece, *volume),
        Line::Located { volume, server } => lay_located(sink, piece, *volume, *server),
        Line::Older {
            node,
            offered,
            seen,
        } => lay_older(sink, piece, *node, *offered, *seen),
        Line::BeginAdmin { node, act } => lay_begin(sink, piece, *node, &act.get()),
        Line::Stuck { node, code } => lay_stuck(sink, piece, *node, *code),
        Line::Dumped {
            node,
            label,
            length,
        } => lay_dumped(sink, piece, *node, label, *length),
        Line::Void => lay_short(sink, piece, &"void\n"),
    }
}

impl Print for Line {
    ghost text = { line_text };

    fn print<K: Sink>(&self, sink: &mut K) -> Result<(), Failed> {
        let mut piece = TextPiece::new();
        lay_line(sink, &mut piece, self)?;
        put_bytes(sink, piece.as_slice())
    }
}
