//! Records: a kind, a head, the fields of the kind.

ghost use Rattle.std.specs.Prelude.{◌≡◌, ◌++◌, OnOk, IfOk};
ghost use Rattle.afs_xdr.specs.Words.{word};
ghost use Rattle.spec_records.specs.Records.{body_at, row, record_at, record_bytes, FitsRecord};
ghost use Rattle.afs_record.specs.Reading.{GivesForm};

use crate::faults::RecordFault;
use crate::heads::{may_call, read_head, write_head};
use crate::tables::{number_of, read_body, write_body};
use afs_num::records::{RecordBody, StoreRecord};
use afs_num::sequences::Octets;
use afs_num::types::Mem;
use afs_xdr::reading::Reader;
use afs_xdr::writing::Writer;
use spec_records::laws::read_records_are_spelled;
use std::alloc::Global;

/// How many bytes the record of a change takes without its reply, its vnodes and the numbers of those that are gone, with the
/// longest pad. Most other records take fewer.
const FRAME: usize = 52;

/// How many bytes the image of a vnode takes without its access list and its contents, with the longest pads.
const IMAGE: usize = 74;

/// How many bytes a record takes, or a few more; one of the first volumes takes more. It is asked for room before it is written.
fn room_for(rec: &StoreRecord) -> usize {
    let mut room = rec.head.reply.len().saturating_add(FRAME);
    if let RecordBody::Change {
        vnodes,
        removed,
        ..
    } = &rec.body
    {
        room = room.saturating_add(removed.len().saturating_mul(4));
        for vnode in vnodes.as_slice() {
            let bytes = vnode.contents.len().saturating_add(vnode.acl.len());
            room = room.saturating_add(bytes).saturating_add(IMAGE);
        }
    }
    room
}

/// The one spelling of a record.
#[tactic(auto, unfolding(spec_records::specs::Records::record_bytes))]
pub fn encode_record(alloc: Global, rec: &StoreRecord) -> Mem<Octets>
    requires { FitsRecord rec.now }
    ensures { IfOk result (λ bytes. bytes ≡ record_bytes rec.now) }
{
    let mut w = Writer::with_capacity(alloc, room_for(rec))?;
    w.word(number_of(&rec.body))?;
    write_head(&rec.head, &mut w)?;
    write_body(&rec.body, &mut w)?;
    Octets::from_vec(w.into_vec()?)
}

/// The record that these bytes are, as it is read.
#[tactic(auto, unfolding(spec_records::specs::Records::record_at))]
fn read_record(alloc: Global, bytes: &[u8]) -> Result<StoreRecord, RecordFault>
    ensures { GivesForm (record_at bytes.now) result }
{
    let mut r = Reader::new(bytes);
    let number = r.word()?;
    let head = read_head(alloc, &mut r)?;
    if !may_call(number, head.caller) {
        return Err(RecordFault::NoForm);
    }
    let body = read_body(alloc, number, &mut r)?;
    Ok(StoreRecord { head, body })
}

/// The record that these bytes are. `NoForm` where they are none.
pub fn decode_record(alloc: Global, bytes: &[u8]) -> Result<StoreRecord, RecordFault>
    ensures value { GivesForm (record_at bytes.now) result }
    ensures fits { IfOk result (λ r. FitsRecord r) }
    ensures spelled { IfOk result (λ r. record_bytes r ≡ bytes.now) }
{
    read_records_are_spelled();
    let rec = read_record(alloc, bytes)?;
    Ok(rec)
}
