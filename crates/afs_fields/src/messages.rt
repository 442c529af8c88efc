//! The messages of any interface, by the rows of their table.

ghost use Rattle.std.specs.Prelude.{◌≡◌, ◌++◌, Ok, Err, IfOk, IfErr, OnOk, OnErr};
ghost use Rattle.std.specs.List.{AllByRecursion};
ghost use Rattle.spec_shape.specs.Spelling.{fields_spelled, Extends, IsSpellable};
ghost use Rattle.spec_shape.specs.Tables.{kinds_of, AreInRange};
ghost use Rattle.spec_shape.specs.Rows.{message_of, IsSoundTable};
ghost use Rattle.spec_shape.specs.Bodies.{row_at};
ghost use Rattle.spec_shape.specs.Taken.{row_fields_at, TakesRead};
ghost use Rattle.spec_shape.specs.declared.faults.ShapeFault.TheVariants.{NoRow};

use crate::tables::Shape;
use afs_num::types::Mem;
use afs_xdr::reading::Reader;
use afs_xdr::writing::Writer;
use spec_shape::faults::ShapeFault;
use std::alloc::Global;

/// The calls of an interface, or its replies.
pub trait Messages {
    ghost use Rattle.spec_shape.specs.Rows.{MessageTable};

    type Message: Drop;

    ghost table: { MessageTable Self.Message };

    /// The shape of an opcode.
    fn shape(opcode: u32) -> Result<Shape<8>, ShapeFault>
        ensures kinds { IfOk result (λ s. row_at table opcode ≡ Ok (kinds_of s.kinds)) }
        ensures none { IfErr result (λ e. (e ≡ NoRow opcode) × (row_at table opcode ≡ Err (NoRow opcode))) };

    /// Reads the message of this opcode up to the last byte.
    fn read(alloc: Global, opcode: u32, r: &mut Reader) -> Result<Self::Message, ShapeFault>
        ensures { TakesRead (message_of table opcode) (row_fields_at table opcode r.old.left) result };

    /// How many bytes the fields of a message take, or more. It is asked for room before they are appended.
    fn room(message: &Self::Message) -> usize;

    /// Appends the fields of a message. After want of memory bytes of them may stand behind those from before.
    fn write(message: &Self::Message, w: &mut Writer) -> Mem<()>
        requires { AllByRecursion IsSpellable (table.row message.now).fields }
        ensures ok { OnOk result (w.new ≡ w.old ++ fields_spelled (table.row message.now).fields) }
        ensures fits { OnOk result (AreInRange (table.row message.now).fields) }
        ensures err { OnErr result (Extends w.old w.new) };

    ghost is_sound: { IsSoundTable table };
}
