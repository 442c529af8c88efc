//! Fields of a shape, read and written.

use afs_fields::tables::{Row, Shape, Table};
use afs_num::types::Fid;
use afs_xdr::reading::Reader;
use afs_xdr::writing::Writer;
use spec_shape::kinds::{Field, Fields, Kind};
use std::alloc::Global;
use std::fmt::Write as _;
use std::test::Fail;

const NAMES: Table<1, 3> = Table {
    rows: [Row {
        opcode: 140,
        shape: Shape {
            kinds: [Kind::Fid, Kind::Opaque(4), Kind::Nothing],
        },
    }],
};

/// A fid, three bytes with their pad, and a byte more.
const LINK: &[u8] = &[
    0, 0, 0, 1, 0, 0, 0, 2, 0, 0, 0, 3, 0, 0, 0, 3, b'a', b'b', b'c', 0, 9,
];

fn put_field(out: &mut String, field: &Field) {
    let _ = match field {
        Field::Fid(fid) => write!(out, "fid {}.{}.{} ", fid.volume, fid.vnode, fid.unique),
        Field::Opaque(bytes) => write!(out, "{} bytes ", bytes.len()),
        _ => out.push_str("another "),
    };
}

fn put_fields(out: &mut String, fields: &Fields) {
    for field in fields.as_slice() {
        put_field(out, field);
    }
}

/// Tells what fields are read by this shape, and how many bytes are left.
fn put_read(out: &mut String, alloc: Global, shape: &Shape<3>, bytes: &[u8]) {
    let mut reader = Reader::new(bytes);
    match shape.read_fields(alloc, &mut reader) {
        Ok(fields) => {
            put_fields(out, &fields);
            drop(fields);
        }
        Err(fault) => {
            let _ = write!(out, "{fault:?} ");
        }
    }
    let _ = write!(out, "{} left", reader.left_len());
}

/// What is read of these bytes by the shape of this opcode.
fn told(alloc: Global, opcode: u32, bytes: &[u8]) -> String {
    let mut out = String::new(alloc);
    let table = NAMES;
    match table.shape(opcode) {
        Ok(shape) => put_read(&mut out, alloc, shape, bytes),
        Err(fault) => {
            let _ = write!(out, "{fault:?}");
        }
    }
    out
}

#[test]
fn fields_are_read(rt: HostRuntime) {
    let told = told(rt.alloc(), 140, LINK);
    assert_eq!(rt; told.as_str(), "fid 1.2.3 3 bytes 1 left");
}

#[test]
fn a_refusal_leaves_the_reader(rt: HostRuntime) {
    let unknown = told(rt.alloc(), 141, LINK);
    assert_eq!(rt; unknown.as_str(), "NoRow(141)");
    let short = told(rt.alloc(), 140, LINK.get(..19).unwrap_or(b""));
    assert_eq!(rt; short.as_str(), "Field(2, Short) 19 left");
}

#[test]
fn fields_are_written(rt: HostRuntime) -> Result<(), Fail> {
    let shape = Shape {
        kinds: [Kind::Fid, Kind::Word, Kind::Nothing],
    };
    let mut fields = Fields::new(rt.alloc());
    fields.push(Field::Fid(Fid {
        volume: 1,
        vnode: 2,
        unique: 3,
    }))?;
    fields.push(Field::Word(9))?;
    let mut writer = Writer::new(rt.alloc());
    let is_written = shape.write_fields(&fields, &mut writer).is_ok();
    drop(fields);
    assert!(rt; is_written);
    let want = [0, 0, 0, 1, 0, 0, 0, 2, 0, 0, 0, 3, 0, 0, 0, 9];
    assert_eq!(rt; writer.into_vec()?.as_slice(), want.as_slice());
    Ok(())
}
