//! The lines of a server's steps.

ghost use Rattle.std.specs.Prelude.{◌≡◌, ◌++◌, [], ◌∷◌, map, OnOk};
ghost use Rattle.spec_history.specs.declared.lines.Line.TheVariants as lines;
ghost use Rattle.spec_rows.specs.Callbacks.{owe_line, quit_line, settle_line, timeout_line};
ghost use Rattle.afs_callees.specs.Telling.{grant_line};

use afs_num::types::{Fid, Mem, Node};
use spec_breaks::types::OwedBreak;
use spec_history::lines::{Line, Lines};

/// A promise that a reply grants: on this fid, under the index of what the reply tells.
#[derive(Clone, Copy)]
pub struct Grant {
    pub fid: Fid,
    pub index: u32,
}

/// Tells the promises that a client is granted until this time.
pub fn tell_grants(
    lines: &mut Lines,
    server: Node,
    client: Node,
    expiry: u32,
    grants: &[Grant],
) -> Mem<()>
    ensures { OnOk result (lines.new ≡ lines.old ++ map (grant_line server client expiry) grants.now) }
{
    for grant in grants {
        lines.push(Line::Grant {
            server,
            client,
            fid: grant.fid,
            index: grant.index,
            expiry,
        })?;
    }
    Ok(())
}

/// Tells the breaks that are owed from now on.
pub fn tell_owed(lines: &mut Lines, server: Node, breaks: &[OwedBreak]) -> Mem<()>
    ensures { OnOk result (lines.new ≡ lines.old ++ map (owe_line server) breaks.now) }
{
    for owed in breaks {
        lines.push(Line::Owe {
            server,
            client: owed.client,
            fid: owed.what,
            number: owed.number,
        })?;
    }
    Ok(())
}

/// Tells the breaks that a client has handled.
pub fn tell_settled(lines: &mut Lines, server: Node, client: Node, breaks: &[OwedBreak]) -> Mem<()>
    ensures { OnOk result (lines.new ≡ lines.old ++ map (settle_line server client) breaks.now) }
{
    for owed in breaks {
        lines.push(Line::Settle {
            server,
            client,
            number: owed.number,
        })?;
    }
    Ok(())
}

/// Tells the breaks that are given up, as the client doesn't answer.
pub fn tell_quit(lines: &mut Lines, server: Node, client: Node, breaks: &[OwedBreak]) -> Mem<()>
    ensures { OnOk result (lines.new ≡ lines.old ++ map (quit_line server client) breaks.now) }
{
    for owed in breaks {
        lines.push(Line::Quit {
            server,
            client,
            number: owed.number,
        })?;
    }
    Ok(())
}

/// Tells that a call to a client has waited too long, so often by now.
pub fn tell_timeout(
    lines: &mut Lines,
    server: Node,
    boot: u32,
    client: Node,
    number: u32,
    count: u32,
) -> Mem<()>
    ensures { OnOk result (lines.new ≡ lines.old ++ timeout_line server boot client number count ∷ []) }
{
    lines.push(Line::Timeout {
        caller: server,
        callee: client,
        epoch: boot,
        number,
        count,
    })
}
