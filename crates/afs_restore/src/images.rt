//! The images of a dump.

ghost use Rattle.spec_dumps.specs.Streams.{image_words_field, next_at};
ghost use Rattle.afs_restore.specs.Reading.{words_in, ReadsField};

use crate::fields::{kind, same_word, word};
use crate::stops::Stop;
use afs_num::sequences::Octets;
use afs_num::vnodes::Vnode;
use afs_xdr::reading::Reader;
use std::alloc::Global;

/// The words with which the image of a vnode and the end of a dump begin.
const VNODE_TAG: u32 = 3;

const END_TAG: u32 = 4;

/// The number of the vnode whose image comes next, or none at the end of the images. The number is still to be read with the
/// image.
#[tactic(auto, unfolding(spec_dumps::specs::Streams::next_at))]
pub fn next(r: &mut Reader) -> Result<Option<u32>, Stop>
    ensures { ReadsField next_at (λ n. n) r.old r.new result }
{
    let mut ahead = r.fork();
    let tag = word(&mut ahead)?;
    if tag == END_TAG {
        *r = ahead;
        return Ok(None);
    }
    if tag != VNODE_TAG {
        return Err(Stop::Bad);
    }
    *r = ahead.fork();
    let number = word(&mut ahead)?;
    Ok(Some(number))
}

/// A vnode that nothing is known of.
pub fn no_vnode(alloc: Global) -> Vnode {
    Vnode {
        vnode: 0,
        unique: 0,
        kind: 0,
        index: 0,
        data_version: 0,
        link_count: 0,
        owner: 0,
        group: 0,
        mode: 0,
        segment_size: 0,
        client_time: 0,
        server_time: 0,
        parent_vnode: 0,
        parent_unique: 0,
        change_counter: 0,
        acl: Octets::new(alloc),
        contents: Octets::new(alloc),
    }
}

/// The words of the image of this vnode: a vnode whose access list and contents are still to be read.
pub fn image_words(alloc: Global, r: &mut Reader, pair: (u32, u32)) -> Result<Vnode, Stop>
    ensures { ReadsField (image_words_field pair).at words_in r.old r.new result }
{
    let vnode = same_word(r, pair.0)?;
    let unique = same_word(r, pair.1)?;
    let kind = kind(r, vnode)?;
    let index = word(r)?;
    let data_version = word(r)?;
    let link_count = word(r)?;
    let owner = word(r)?;
    let group = word(r)?;
    let mode = word(r)?;
    let segment_size = word(r)?;
    let client_time = word(r)?;
    let server_time = word(r)?;
    let parent_vnode = word(r)?;
    let parent_unique = word(r)?;
    let change_counter = word(r)?;
    Ok(Vnode {
        vnode,
        unique,
        kind,
        index,
        data_version,
        link_count,
        owner,
        group,
        mode,
        segment_size,
        client_time,
        server_time,
        parent_vnode,
        parent_unique,
        change_counter,
        acl: Octets::new(alloc),
        contents: Octets::new(alloc),
    })
}
