//! One client of the cell is given something.

ghost use Rattle.std.specs.Prelude.{◌≡◌, ℕ, true};
ghost use Rattle.afs_grammar.specs.CellScripts.{IsCellScript};
ghost use Rattle.afs_clients.specs.Happening.{ClientHears, ClientsHappened, ClientTakes, IsVoidClient};
ghost use Rattle.afs_clients.specs.Ready.{AllReady};

use crate::clients::ClientSeat;
use crate::happening::{ClientInput, Happened};
use crate::places::Places;
use spec_history::scripts::Script;
use std::alloc::Global;

/// A client is given a message.
pub fn client_hears<'a>(
    clients: &mut Places<ClientSeat<'a>>,
    script: &Script,
    client: u8,
    bytes: &[u8],
    now: u32,
) -> Happened
    requires ready { AllReady script.now clients.old.items }
    ensures { (place : ℕ) → ClientsHappened script.now client (λ seat. seat.is_away ≡ true) (ClientHears client now place bytes.now) clients.old.items clients.new.items result }
{
    let _script = script;
    let Some(i) = clients.find(client) else {
        return Happened::Nothing;
    };
    clients.at(i).hear(client, bytes, now)
}

/// A client is given something that is no message.
pub fn client_takes<'a>(
    alloc: Global,
    clients: &mut Places<ClientSeat<'a>>,
    script: &Script,
    client: u8,
    now: u32,
    given: ClientInput,
) -> Happened
    requires script { IsCellScript script.now }
    requires ready { AllReady script.now clients.old.items }
    ensures { ClientsHappened script.now client (IsVoidClient given) (ClientTakes script.now client now given) clients.old.items clients.new.items result }
{
    let Some(i) = clients.find(client) else {
        return Happened::Nothing;
    };
    clients.at(i).take(alloc, script, client, now, given)
}
