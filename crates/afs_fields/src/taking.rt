//! The fields of a message as they are read, each as what its kind says.

ghost use Rattle.std.specs.Prelude.{◌≡◌, ◌+◌, ◌<◌, ◌^◌, [], ◌∷◌, length};
ghost use Rattle.spec_shape.specs.Reading.{ReadsField, field_at, fields_to_end_at};
ghost use Rattle.spec_shape.specs.Taking.{no_more, taken_behind};
ghost use Rattle.spec_shape.specs.Taken.{fields_from_at, IsFirst, TakesRead};

use afs_xdr::reading::Reader;
use spec_shape::faults::{FieldFault, ShapeFault};
use std::alloc::Global;
use std::marker::PhantomData;

/// A field of one kind: what it holds, and how it is read.
pub trait Slot {
    ghost use Rattle.std.specs.Prelude.{List, Option};
    ghost use Rattle.spec_shape.specs.declared.kinds.Kind.{Kind};
    ghost use Rattle.spec_shape.specs.declared.kinds.Field.{Field};

    type Value: Drop;

    ghost kind: { Kind };

    ghost field: { Self.Value → Field };

    ghost first: { List Field → Option (Self.Value × List Field) };

    ghost is_first: { IsFirst field first };

    /// Reads a value of the kind.
    fn read(alloc: Global, r: &mut Reader) -> Result<Self::Value, FieldFault>
        ensures { ReadsField (field_at kind) field r.old r.new result };
}

/// Fields of their kinds, one after another up to the last.
pub trait Slots {
    ghost use Rattle.std.specs.Prelude.{List, Option};
    ghost use Rattle.spec_shape.specs.declared.kinds.Kind.{Kind};
    ghost use Rattle.spec_shape.specs.declared.kinds.Field.{Field};

    type Values: Drop;

    ghost kinds: { List Kind };

    ghost taken: { List Field → Option Self.Values };

    /// Reads their values up to the last byte, each beside those behind it. The first stands in this place of the message.
    fn read(alloc: Global, place: u32, r: &mut Reader) -> Result<Self::Values, ShapeFault>
        requires { place + length kinds < 2 ^ 32 }
        ensures { TakesRead taken (fields_from_at place kinds r.old.left) result };
}

/// No field.
pub struct End;

impl Slots for End {
    type Values = ();

    ghost kinds = { [] };

    ghost taken = { no_more };

    #[inline]
    #[tactic(auto, using(crate::proofs::TakenLaws::ends, crate::proofs::TakenLaws::more))]
    fn read(_: Global, place: u32, r: &mut Reader) -> Result<(), ShapeFault> {
        match r.end() {
            Ok(()) => Ok(()),
            Err(fault) => Err(ShapeFault::Field(place, fault)),
        }
    }
}

/// A field, and those behind it.
pub struct Then<A: Slot, B: Slots> {
    first: PhantomData<A>,
    rest: PhantomData<B>,
}

impl<A: Slot, B: Slots> Slots for Then<A, B> {
    type Values = (A::Value, B::Values);

    ghost kinds = { A.kind ∷ B.kinds };

    ghost taken = { taken_behind A.first B.taken };

    #[inline]
    #[tactic(auto, using(crate::proofs::TakenLaws::stops))]
    fn read(
        alloc: Global,
        place: u32,
        r: &mut Reader,
    ) -> Result<(A::Value, B::Values), ShapeFault> {
        let first = match A::read(alloc, r) {
            Ok(first) => first,
            Err(fault) => return Err(fault.at(place)),
        };
        let rest = B::read(alloc, place + 1, r)?;
        Ok((first, rest))
    }
}

/// Reads the values of a message's fields up to the last byte.
#[inline]
#[tactic(auto, using(crate::proofs::TakenLaws::from_one))]
pub fn read_values<S: Slots>(alloc: Global, r: &mut Reader) -> Result<S::Values, ShapeFault>
    requires { 1 + length S.kinds < 2 ^ 32 }
    ensures { TakesRead S.taken (fields_to_end_at S.kinds r.old.left) result }
{
    S::read(alloc, 1, r)
}
