//! What an interface's list of messages is made into: the table of their shapes, the parts that one is written from,
//! and how one is read. A list has a line a row: `136 RemoveFile { directory: Fid, name: Opaque[256] }`.

/// The first eight kinds.
#[macro_export]
macro_rules! first_kinds {
    (
        $a:expr, $b:expr, $c:expr, $d:expr, $e:expr, $f:expr, $g:expr, $h:expr $(, $more:expr)*
    ) => {
        $crate::tables::Shape {
            kinds: [$a, $b, $c, $d, $e, $f, $g, $h],
        }
    };
}

/// The table of the shapes, with `Nothing` in the places behind the last kind.
#[macro_export]
macro_rules! table_of {
    (
        ()
        [$($opcode:literal $name:ident { $($field:ident: $kind:ident $([$most:expr])?),* }),*]
    ) => {
        $crate::tables::Table {
            rows: [$($crate::tables::Row {
                opcode: $opcode,
                shape: $crate::first_kinds!(
                    $(spec_shape::kinds::Kind::$kind $(($most))?,)*
                    spec_shape::kinds::Kind::Nothing,
                    spec_shape::kinds::Kind::Nothing,
                    spec_shape::kinds::Kind::Nothing,
                    spec_shape::kinds::Kind::Nothing,
                    spec_shape::kinds::Kind::Nothing,
                    spec_shape::kinds::Kind::Nothing,
                    spec_shape::kinds::Kind::Nothing,
                    spec_shape::kinds::Kind::Nothing
                ),
            }),*],
        }
    };
}

/// The shape of this opcode's row, without the table around it.
#[macro_export]
macro_rules! shape_of {
    (
        ($opcode:ident)
        [$($number:literal $name:ident { $($field:ident: $kind:ident $([$most:expr])?),* }),*]
    ) => {{
        let nothing = spec_shape::kinds::Kind::Nothing;
        match $opcode {
            $($number => Ok($crate::first_kinds!(
                $(spec_shape::kinds::Kind::$kind $(($most))?,)*
                nothing,
                nothing,
                nothing,
                nothing,
                nothing,
                nothing,
                nothing,
                nothing
            )),)*
            _ => Err(spec_shape::faults::ShapeFault::NoRow($opcode)),
        }
    }};
}

/// Appends the fields of a message of this enum.
#[macro_export]
macro_rules! written_of {
    (
        ($message:ident, $w:ident, $enum:ident)
        [$($opcode:literal $name:ident { $($field:ident: $kind:ident $([$most:expr])?),* }),*]
    ) => {
        match $message {
            $($enum::$name { $($field),* } => $crate::tables::write_parts(&[$(spec_shape::kinds::Part::$kind($field)),*], $w),)*
        }
    };
}

/// A field that isn't of a fixed size, where a message is taken apart.
#[macro_export]
macro_rules! long_field {
    (Opaque $value:ident) => { $value };
    (Fids $value:ident) => { $value };
    (CallBacks $value:ident) => { $value };
    (Statuses $value:ident) => { $value };
    (Volumes $value:ident) => { $value };
    ($kind:ident $value:ident) => { _ };
}

/// How many bytes a field of this kind takes, or three more: an opaque has a pad of three bytes at most.
#[macro_export]
macro_rules! field_room {
    (Word $value:ident) => { 4 };
    (Signed $value:ident) => { 4 };
    (VolumeKind $value:ident) => { 4 };
    (Server $value:ident) => { 4 };
    (Fid $value:ident) => { 12 };
    (StoreStatus $value:ident) => { 24 };
    (FetchStatus $value:ident) => { 84 };
    (CallBack $value:ident) => { 12 };
    (VolSync $value:ident) => { 24 };
    (Entry $value:ident) => { 192 };
    (Opaque $value:ident) => { $value.len().saturating_add(7) };
    (Fids $value:ident) => { $value.len().saturating_mul(12).saturating_add(4) };
    (CallBacks $value:ident) => { $value.len().saturating_mul(12).saturating_add(4) };
    (Statuses $value:ident) => { $value.len().saturating_mul(84).saturating_add(4) };
    (Volumes $value:ident) => { $value.len().saturating_mul(16).saturating_add(4) };
}

/// So many bytes, and those of these fields.
#[macro_export]
macro_rules! room_with {
    ($room:expr;) => { $room };
    ($room:expr; $kind:ident $value:ident $($more:ident)*) => { $crate::room_with!($room.saturating_add($crate::field_room!($kind $value)); $($more)*) };
}

/// How many bytes the fields of a message of this enum take, or a few more: a location entry is taken to be the longest, and each
/// pad too.
#[macro_export]
macro_rules! room_of {
    (
        ($message:ident, $enum:ident)
        [$($opcode:literal $name:ident { $($field:ident: $kind:ident $([$most:expr])?),* }),*]
    ) => {
        match $message {
            $($enum::$name { $($field: $crate::long_field!($kind $field)),* } => $crate::room_with!(0_usize; $($kind $field)*),)*
        }
    };
}

/// Fields of these kinds, up to the last.
#[macro_export]
macro_rules! slots_of {
    () => { $crate::taking::End };
    ($kind:ident $([$most:expr])? $(, $more:ident $([$further:expr])?)*) => {
        $crate::taking::Then<$crate::slots::$kind $(<{ $most }>)?, $crate::slots_of!($($more $([$further])?),*)>
    };
}

/// The values of fields, each beside those behind it.
#[macro_export]
macro_rules! values_of {
    () => { () };
    ($first:ident $(, $more:ident)*) => { ($first, $crate::values_of!($($more),*)) };
}

/// Reads the message of this enum and opcode.
#[macro_export]
macro_rules! message_read {
    (
        ($opcode:ident, $alloc:ident, $r:ident, $enum:ident)
        [$($number:literal $name:ident { $($field:ident: $kind:ident $([$most:expr])?),* }),*]
    ) => {
        match $opcode {
            $($number => match $crate::taking::read_values::<$crate::slots_of!($($kind $([$most])?),*)>($alloc, $r) {
                Ok($crate::values_of!($($field),*)) => Ok($enum::$name { $($field),* }),
                Err(fault) => Err(fault),
            },)*
            _ => Err(spec_shape::faults::ShapeFault::NoRow($opcode)),
        }
    };
}
