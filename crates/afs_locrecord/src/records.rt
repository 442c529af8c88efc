//! Records: a kind, a head, the fields of the kind.

ghost use Rattle.std.specs.Prelude.{◌≡◌, IfOk};
ghost use Rattle.spec_records.specs.LocRecords.{loc_record_at, loc_record_bytes, FitsLocRecord};
ghost use Rattle.afs_record.specs.Reading.{GivesForm};

use crate::tables::{number_of, read_body, write_body};
use crate::types::LocRecord;
use afs_num::sequences::Octets;
use afs_num::types::Mem;
use afs_record::faults::RecordFault;
use afs_record::heads::{may_call, read_head, write_head};
use afs_xdr::reading::Reader;
use afs_xdr::writing::Writer;
use spec_records::laws::read_loc_records_are_spelled;
use std::alloc::Global;

/// How many bytes the record of a change takes without its reply, with the longest name, 16 sites and the longest pads. A record
/// of the first entries may take more.
const FRAME: usize = 256;

/// The one spelling of a record.
#[tactic(auto, unfolding(spec_records::specs::LocRecords::loc_record_bytes))]
pub fn encode_loc_record(alloc: Global, rec: &LocRecord) -> Mem<Octets>
    requires { FitsLocRecord rec.now }
    ensures { IfOk result (λ bytes. bytes ≡ loc_record_bytes rec.now) }
{
    let mut w = Writer::with_capacity(alloc, rec.head.reply.len().saturating_add(FRAME))?;
    w.word(number_of(&rec.body))?;
    write_head(&rec.head, &mut w)?;
    write_body(&rec.body, &mut w)?;
    Octets::from_vec(w.into_vec()?)
}

/// The record that these bytes are, as it is read.
#[tactic(auto, unfolding(spec_records::specs::LocRecords::loc_record_at))]
fn read_record(alloc: Global, bytes: &[u8]) -> Result<LocRecord, RecordFault>
    ensures { GivesForm (loc_record_at bytes.now) result }
{
    let mut r = Reader::new(bytes);
    let number = r.word()?;
    let head = read_head(alloc, &mut r)?;
    if !may_call(number, head.caller) {
        return Err(RecordFault::NoForm);
    }
    let body = read_body(alloc, number, &mut r)?;
    Ok(LocRecord { head, body })
}

/// The record that these bytes are. `NoForm` where they are none.
pub fn decode_loc_record(alloc: Global, bytes: &[u8]) -> Result<LocRecord, RecordFault>
    ensures value { GivesForm (loc_record_at bytes.now) result }
    ensures fits { IfOk result (λ r. FitsLocRecord r) }
    ensures spelled { IfOk result (λ r. loc_record_bytes r ≡ bytes.now) }
{
    read_loc_records_are_spelled();
    let rec = read_record(alloc, bytes)?;
    Ok(rec)
}
