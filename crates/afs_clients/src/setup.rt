//! A cell's clients at set-up, and the volumes that each of its servers has then.

ghost use Rattle.std.specs.Prelude.{◌≡◌, ◌<◌, ◌+◌, length, map, IfOk};
ghost use Rattle.afs_grammar.specs.CellScripts.{IsCellScript};
ghost use Rattle.afs_grammar.specs.Lines.{lines_of_server};
ghost use Rattle.afs_clients.specs.Seating.{AreFirstClients};

use crate::clients::ClientSeat;
use afs_num::types::Mem;
use spec_history::scripts::{Script, VolumeLine};
use std::alloc::Global;

/// The volumes of a server, in the script's order.
pub fn lines_at(alloc: Global, script: &Script, server: u8) -> Mem<Vec<&VolumeLine>>
    ensures { IfOk result (λ ls. map (λ l. l.now) ls.items ≡ lines_of_server server script.now.volumes) }
{
    let mut lines = Vec::new(alloc);
    for line in script.volumes.as_slice() {
        if line.server == server {
            lines.push(line)?;
        }
    }
    Ok(lines)
}

/// The clients at set-up, in order of number.
pub fn clients_at_first<'a>(alloc: Global, script: &'a Script) -> Mem<Vec<ClientSeat<'a>>>
    requires script { IsCellScript script.now }
    ensures first { IfOk result (λ cs. AreFirstClients script.now 1 cs.items) }
    ensures count { IfOk result (λ cs. length cs.items ≡ script.now.clients) }
{
    let mut clients = Vec::with_capacity(alloc, script.clients as usize)?;
    for before in 0..script.clients {
        clients.push(ClientSeat::new(alloc, script, before + 1)?)?;
    }
    Ok(clients)
}
