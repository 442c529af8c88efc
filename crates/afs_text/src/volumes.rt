//! The lines of what stands at the end of a run whose clients take every act: of volumes, and of their vnodes.

ghost use Rattle.afs_text.specs.FinalText.{head_line_text, version_line_text};

use crate::bytes::Name;
use crate::pieces::Print;
use afs_num::histories::Version;
use afs_num::types::Node;
use afs_num::volumes::VolumeHead;
use afs_outside::outside::{Failed, Sink};

/// A volume's own line.
#[derive(Drop)]
pub struct VolumeLine<'a> {
    pub server: Node,
    pub head: &'a VolumeHead,
}

impl<'a> Print for VolumeLine<'a> {
    ghost text = { λ v. head_line_text v.server v.head.now };

    #[tactic(auto, unfolding(crate::specs::FinalText::head_line_text))]
    fn print<K: Sink>(&self, sink: &mut K) -> Result<(), Failed> {
        let head = self.head;
        row!(
            "volume ",
            self.server,
            " ",
            head.id,
            " ",
            Name(head.name.as_slice()),
            " ",
            head.kind,
            " ",
            head.flags,
            "\n"
        )
        .print(sink)
    }
}

/// The line of a vnode: its kind, and its last version.
#[derive(Drop)]
pub struct VnodeLine<'a> {
    pub kind: u32,
    pub version: &'a Version,
}

impl<'a> Print for VnodeLine<'a> {
    ghost text = { λ v. version_line_text v.kind v.version.now };

    #[tactic(auto, unfolding(crate::specs::FinalText::version_line_text))]
    fn print<K: Sink>(&self, sink: &mut K) -> Result<(), Failed> {
        let version = self.version;
        row!(
            "vnode ",
            version.fid,
            " ",
            self.kind,
            " ",
            version.index,
            " ",
            version.data_version,
            " ",
            &version.body,
            "\n"
        )
        .print(sink)
    }
}
