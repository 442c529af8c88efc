//! Edits, made and asked.

ghost use Rattle.std.specs.Prelude.{◌≡◌, ◌≤◌, Some, length};
ghost use Rattle.spec_ideal.specs.Operations.{no_amend};
ghost use Rattle.spec_ideal.specs.VnodeImage.{most_contents};
ghost use Rattle.spec_ideal.specs.Volumes.{edit_number};
ghost use Rattle.afs_changes.specs.Planning.{amend_seen, edit_seen};
ghost use Rattle.afs_volume.specs.Seen.{names_spelled, SpellsNames};

use crate::edits::{Amend, Edit};
use afs_num::sequences::Octets;

impl Amend {
    /// Nothing but the index.
    pub fn nothing() -> Amend
        ensures { amend_seen result ≡ no_amend }
    {
        Amend {
            contents: None,
            names: None,
            links: None,
            parent: None,
            status: None,
            acl: None,
        }
    }

    /// A number of links.
    pub fn with_links(links: u64) -> Amend
        ensures { amend_seen result ≡ record no_amend { links = Some links } }
    {
        let mut amend = Amend::nothing();
        amend.links = Some(links);
        amend
    }

    /// Another parent.
    pub fn with_parent(vnode: u32, unique: u32) -> Amend
        ensures { amend_seen result ≡ record no_amend { parent = Some (vnode, unique) } }
    {
        let mut amend = Amend::nothing();
        amend.parent = Some((vnode, unique));
        amend
    }

    /// The names of a directory, and its links where they change.
    pub fn with_names(names: Octets, links: Option<u64>) -> Amend
        requires spelled { SpellsNames (Some names) }
        requires short { length names ≤ most_contents }
        ensures { amend_seen result ≡ record no_amend { names = Some (names_spelled names); links = links } }
    {
        let mut amend = Amend::nothing();
        amend.names = Some(names);
        amend.links = links;
        amend
    }
}

impl Edit {
    /// The number of the vnode.
    pub fn number(&self) -> u32
        ensures { result ≡ edit_number (edit_seen self.now) }
    {
        match self {
            Edit::Amends(number, _) => *number,
            Edit::Makes(number, _) => *number,
            Edit::Frees(number) => *number,
        }
    }
}
