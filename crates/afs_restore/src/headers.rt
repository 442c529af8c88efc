//! What stands in a dump before its list.

ghost use Rattle.std.specs.Prelude.{◌≡◌, IfOk};
ghost use Rattle.spec_dumps.specs.Streams.{dump_header_field, headers_field, volume_header_field};
ghost use Rattle.afs_restore.specs.Reading.{headers_told, source_told, volume_told, ReadsField};

use crate::fields::{mark, text, word};
use crate::stops::Stop;
use afs_num::sequences::Octets;
use afs_num::types::Mem;
use afs_xdr::reading::Reader;
use std::alloc::Global;

/// The words with which parts of a dump begin, the word by which it is known, and the version of its form.
const DUMP_HEADER_TAG: u32 = 1;

const VOLUME_HEADER_TAG: u32 = 2;

const BEGIN_MAGIC: u32 = 0xB3A1_1322;

const DUMP_VERSION: u32 = 1;

/// The most bytes of a volume's name.
const MOST_NAME: u32 = 32;

/// What the dump header tells: the number and the name of the dumped volume, and since which change counter it was dumped.
#[derive(Drop)]
pub struct Source {
    pub id: u32,
    pub name: Octets,
    pub from: u32,
}

/// What the volume header tells. Of it the family is looked at, and quota, unique number, counter and release are restored.
#[derive(Clone, Copy, Debug, PartialEq, Eq)]
pub struct Told {
    pub id: u32,
    pub family: u32,
    pub kind: u32,
    pub quota: u32,
    pub unique: u32,
    pub counter: u32,
    pub release: u32,
}

/// Both headers.
#[derive(Drop)]
pub struct Headers {
    pub source: Source,
    pub told: Told,
}

/// Headers that tell nothing.
pub fn no_headers(alloc: Global) -> Headers {
    Headers {
        source: Source {
            id: 0,
            name: Octets::new(alloc),
            from: 0,
        },
        told: Told {
            id: 0,
            family: 0,
            kind: 0,
            quota: 0,
            unique: 0,
            counter: 0,
            release: 0,
        },
    }
}

/// A copy of headers.
pub fn copy_headers(alloc: Global, headers: &Headers) -> Mem<Headers>
    ensures { IfOk result (λ h. h ≡ headers.now) }
{
    Ok(Headers {
        source: Source {
            id: headers.source.id,
            name: headers.source.name.copy(alloc)?,
            from: headers.source.from,
        },
        told: headers.told,
    })
}

/// The dump header.
#[tactic(auto, unfolding(spec_dumps::specs::Streams::dump_header_field))]
fn dump_header(alloc: Global, r: &mut Reader) -> Result<Source, Stop>
    ensures { ReadsField dump_header_field.at source_told r.old r.new result }
{
    mark(r, DUMP_HEADER_TAG)?;
    mark(r, BEGIN_MAGIC)?;
    mark(r, DUMP_VERSION)?;
    let id = word(r)?;
    let name = text(r, MOST_NAME)?;
    let from = word(r)?;
    Ok(Source {
        id,
        name: Octets::from_slice(alloc, name)?,
        from,
    })
}

/// The volume header.
#[tactic(auto, unfolding(spec_dumps::specs::Streams::volume_header_field))]
fn volume_header(r: &mut Reader) -> Result<Told, Stop>
    ensures { ReadsField volume_header_field.at volume_told r.old r.new result }
{
    mark(r, VOLUME_HEADER_TAG)?;
    let id = word(r)?;
    let family = word(r)?;
    let kind = word(r)?;
    let quota = word(r)?;
    let unique = word(r)?;
    let counter = word(r)?;
    let release = word(r)?;
    Ok(Told {
        id,
        family,
        kind,
        quota,
        unique,
        counter,
        release,
    })
}

/// Both headers.
pub fn read_headers(alloc: Global, r: &mut Reader) -> Result<Headers, Stop>
    ensures { ReadsField headers_field.at headers_told r.old r.new result }
{
    let source = dump_header(alloc, r)?;
    let told = volume_header(r)?;
    Ok(Headers { source, told })
}
