//! Statuses, and the words of a volume beside them.

ghost use Rattle.std.specs.Prelude.{◌≡◌};
ghost use Rattle.spec_shape.specs.Rows.{no_callback, no_sync};
ghost use Rattle.spec_ideal.specs.Replies.{sync_of};
ghost use Rattle.spec_ideal.specs.VnodeImage.{FitsImage};
ghost use Rattle.afs_volume.specs.Giving.{volume_of};
ghost use Rattle.afs_reads.specs.Replying.{IsStatus};
ghost use Rattle.afs_volume.specs.Seen.{IsReadable};

use crate::rights::Rights;
use afs_num::calls::{AfsCallBack, AfsFetchStatus, AfsVolSync};
use afs_num::vnodes::Vnode;
use afs_volume::Volume;
use afs_volume::bodies::bytes_of;

/// No promise; the server fills it in.
pub fn no_callback() -> AfsCallBack
    ensures { result ≡ no_callback }
{
    AfsCallBack {
        version: 0,
        expiration_time: 0,
        kind: 0,
    }
}

fn sync_with(release: u32) -> AfsVolSync
    ensures { result ≡ record no_sync { release = release } }
{
    AfsVolSync {
        release,
        spare1: 0,
        spare2: 0,
        spare3: 0,
        spare4: 0,
        spare5: 0,
    }
}

/// No release, beside no status.
pub fn no_sync() -> AfsVolSync
    ensures { result ≡ no_sync }
{
    sync_with(0)
}

/// The status of a vnode on which a caller and everyone have these rights.
#[tactic(auto, unfolding(afs_volume::specs::Seen::seen))]
pub fn status_with(x: &Vnode, rights: Rights) -> AfsFetchStatus
    requires readable { IsReadable x.now }
    requires fits { FitsImage x.now }
    ensures { IsStatus rights.caller rights.anonymous x.now result }
{
    AfsFetchStatus {
        interface_version: 1,
        file_type: x.kind,
        link_count: x.link_count,
        length: bytes_of(x).len() as u32,
        data_version: x.data_version,
        author: 0,
        owner: x.owner,
        caller_access: rights.caller,
        anonymous_access: rights.anonymous,
        unix_mode_bits: x.mode,
        parent_vnode: x.parent_vnode,
        parent_unique: x.parent_unique,
        seg_size: x.segment_size,
        client_mod_time: x.client_time,
        server_mod_time: x.server_time,
        group: x.group,
        sync_counter: x.index,
        spare1: 0,
        spare2: 0,
        spare3: 0,
        spare4: 0,
    }
}

/// The release is that of a read-only or backup volume; a read-write volume has none.
pub fn sync(volume: &Volume) -> AfsVolSync
    ensures { result ≡ sync_of (volume_of volume.now) }
{
    sync_with(if volume.head.kind == 0 {
        0
    } else {
        volume.head.release
    })
}
