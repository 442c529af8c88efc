//! Shapes, and tables of them by opcode.

ghost use Rattle.std.specs.Prelude.{◌≡◌, ◌++◌, ◌<◌, ◌≤◌, ◌^◌, [], length, All, List, OnOk, OnErr, IfOk, IfErr, Some, None, option_map};
ghost use Rattle.std.specs.Option.{option_copied};
ghost use Rattle.std.specs.List.{prefix_len};
ghost use Rattle.afs_xdr.specs.Reading.{KeepsEnd};
ghost use Rattle.spec_shape.specs.Spelling.{fields_spelled, Extends, IsSpellable};
ghost use Rattle.spec_shape.specs.Parts.{field_of, fields_of};
ghost use Rattle.spec_shape.specs.Reading.{ReadsShape, fields_at};
ghost use Rattle.spec_shape.specs.Tables.{is_field, kinds_of, AreOf, AreInRange, kinds_in};
ghost use Rattle.afs_fields.specs.TableRows.{find_row, rows_of};
ghost use Rattle.spec_shape.specs.declared.faults.ShapeFault.TheVariants.{NoRow, OutOfMemory};

use crate::fields::{read_field, write_part};
use afs_num::types::Mem;
use afs_xdr::reading::Reader;
use afs_xdr::writing::Writer;
use spec_shape::faults::ShapeFault;
use spec_shape::kinds::{Field, Fields, Kind, Part};
use std::alloc::Global;

/// The kinds of a message's fields in order, and `Nothing` in the places behind the last.
#[derive(Drop)]
pub struct Shape<const N: usize> {
    pub kinds: [Kind; N],
}

/// The shape of the messages of one opcode.
#[derive(Drop)]
pub struct Row<const N: usize> {
    pub opcode: u32,
    pub shape: Shape<N>,
}

/// Shapes by opcode.
#[derive(Drop)]
pub struct Table<const R: usize, const N: usize> {
    pub rows: [Row<N>; R],
}

/// How many kinds stand before the first `Nothing`.
fn count_of(kinds: &[Kind]) -> usize
    ensures value { result ≡ prefix_len is_field kinds.now }
    ensures within { result ≤ length kinds.now }
{
    kinds.iter().take_while(|kind| kind.is_field()).count()
}

/// The kinds before the first `Nothing`.
fn before_nothing(kinds: &[Kind]) -> &[Kind]
    ensures value { result.now ≡ kinds_of kinds.now }
    ensures within { length result.now ≤ length kinds.now }
{
    let count = count_of(kinds);
    kinds.split_at(count).0
}

/// No fields yet, with room for so many.
fn room_for(alloc: Global, count: usize) -> Result<Fields, ShapeFault>
    ensures ok { IfOk result (λ fs. fs ≡ []) }
    ensures err { IfErr result (λ e. e ≡ OutOfMemory) }
{
    match Vec::with_capacity(alloc, count) {
        Ok(fields) => Ok(Fields::from_vec(fields)),
        Err(_) => Err(ShapeFault::OutOfMemory),
    }
}

/// The fields of these kinds, one after the other; the first is in place 1 of the message.
#[tactic(auto, unfolding(spec_shape::specs::Reading::fields_at))]
fn read_kinds(alloc: Global, kinds: &[Kind], r: &mut Reader) -> Result<Fields, ShapeFault>
    requires { length kinds.now < 2 ^ 31 }
    ensures value { ReadsShape (fields_at 1 kinds.now) (λ fs. fs) r.old r.new result }
    ensures count { IfOk result (λ fs. length fs ≡ length kinds.now) }
    ensures end { KeepsEnd r.old r.new }
{
    let mut fields = room_for(alloc, kinds.len())?;
    let mut place = 1;
    for kind in kinds {
        match read_field(alloc, *kind, r) {
            Ok(field) => match fields.push(field) {
                Ok(()) => {}
                Err(_) => return Err(ShapeFault::OutOfMemory),
            },
            Err(fault) => return Err(fault.at(place)),
        }
        place += 1;
    }
    Ok(fields)
}

/// Appends fields, one after the other.
fn write_all(fields: &[Field], w: &mut Writer) -> Mem<()>
    requires { All IsSpellable fields.now }
    ensures ok { OnOk result (w.new ≡ w.old ++ fields_spelled fields.now) }
    ensures err { OnErr result (Extends w.old w.new) }
{
    for field in fields {
        write_part(field.part(), w)?;
    }
    Ok(())
}

/// Appends fields that lie elsewhere, one after the other. After want of memory bytes of them may stand behind those
/// from before.
pub fn write_parts(parts: &[Part], w: &mut Writer) -> Mem<()>
    requires { All (λ p. IsSpellable (field_of p)) parts.now }
    ensures ok { OnOk result (w.new ≡ w.old ++ fields_spelled (fields_of parts.now)) }
    ensures fits { OnOk result (AreInRange (fields_of parts.now)) }
    ensures err { OnErr result (Extends w.old w.new) }
{
    for part in parts {
        write_part(*part, w)?;
    }
    Ok(())
}

/// The row of an opcode.
fn row_in<const N: usize>(rows: &[Row<N>], opcode: u32) -> Option<&Row<N>>
    ensures { option_copied result ≡ find_row opcode rows.now }
{
    for row in rows {
        if row.opcode == opcode {
            return Some(row);
        }
    }
    None
}

impl<const N: usize> Shape<N> {
    /// The kinds of the fields.
    pub fn kinds(&self) -> &[Kind]
        ensures value { result.now ≡ kinds_of self.now.kinds }
        ensures within { length result.now ≤ N }
    {
        before_nothing(&self.kinds)
    }

    /// Reads the fields. Their places are counted from 1, since a call's user or a reply's code stands before them. A
    /// refusal, and want of memory, leave the reader as it was.
    pub fn read_fields(&self, alloc: Global, r: &mut Reader) -> Result<Fields, ShapeFault>
        requires { N < 2 ^ 31 }
        ensures value { ReadsShape (fields_at 1 (kinds_of self.now.kinds)) (λ fs. fs) r.old r.new result }
        ensures few { IfOk result (λ fs. length fs ≤ N) }
        ensures end { KeepsEnd r.old r.new }
        ensures err { OnErr result (r.new ≡ r.old) }
    {
        let mut ahead = r.fork();
        let fields = read_kinds(alloc, self.kinds(), &mut ahead)?;
        *r = ahead;
        Ok(fields)
    }

    /// Appends the fields. Want of memory leaves the writer as it was.
    pub fn write_fields(&self, fields: &Fields, w: &mut Writer) -> Mem<()>
        requires { AreOf (kinds_of self.now.kinds) fields.now }
        ensures ok { OnOk result (w.new ≡ w.old ++ fields_spelled fields.now) }
        ensures err { OnErr result (w.new ≡ w.old) }
    {
        let before = w.len();
        match write_all(fields.as_slice(), w) {
            Ok(()) => Ok(()),
            Err(e) => {
                w.truncate(before);
                Err(e)
            }
        }
    }
}

impl<const R: usize, const N: usize> Table<R, N> {
    /// The shape of an opcode.
    pub fn shape(&self, opcode: u32) -> Result<&Shape<N>, ShapeFault>
        requires { (R < 1000) × (N < 1000) }
        ensures row { IfOk result (λ s. option_map (λ r. r.shape) (find_row opcode self.now.rows) ≡ Some s.now) }
        ensures kinds { IfOk result (λ s. kinds_in opcode (rows_of self.now.rows) ≡ Some (kinds_of s.now.kinds)) }
        ensures none { IfErr result (λ e. (e ≡ NoRow opcode) × (kinds_in opcode (rows_of self.now.rows) ≡ None)) }
    {
        match row_in(&self.rows, opcode) {
            Some(row) => Ok(&row.shape),
            None => Err(ShapeFault::NoRow(opcode)),
        }
    }
}
