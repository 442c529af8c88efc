//! The boot numbers of nodes, as a caller knows them.

ghost use Rattle.std.specs.Prelude.{◌≡◌, OnErr, OnOk};
ghost use Rattle.afs_num.specs.Nodes.{same_node};
ghost use Rattle.spec_rows.specs.ClientRow.{boot_of, with_boot};

use afs_num::keyed::{Keyed, find_keyed, put_first};
use afs_num::types::{Mem, Node};
use std::marker::Model;

/// The boot number of a server, as it was told.
#[derive(Drop)]
pub struct KnownBoot {
    pub server: Node,
    pub boot: u32,
}

impl Model for KnownBoot {
    ghost use Rattle.spec_rows.specs.States.{KnownBoot};

    ghost Value = { KnownBoot };

    ghost view = { λ k. record { server = k.server; boot = k.boot } };
}

impl Keyed for KnownBoot {
    type Key = Node;

    ghost key = { λ k. k.server };

    ghost same = { same_node };

    fn key(&self) -> Node {
        self.server
    }

    fn is_under(&self, other: &Node) -> bool {
        self.server.is(other)
    }
}

/// The boot number of a server, which is 1 until it tells another.
pub fn boot_of(server: &Node, boots: &[KnownBoot]) -> u32
    ensures { result ≡ boot_of server.now boots.now }
{
    match find_keyed(boots, server) {
        Some(known) => known.boot,
        None => 1,
    }
}

/// Notes the boot number that a server told.
pub fn note_boot(boots: &mut Vec<KnownBoot>, server: Node, boot: u32) -> Mem<()>
    ensures ok { OnOk result (boots.new.items ≡ with_boot server boot boots.old.items) }
    ensures err { OnErr result (boots.new.items ≡ boots.old.items) }
{
    boots.reserve(1)?;
    put_first(boots, KnownBoot { server, boot });
    Ok(())
}
