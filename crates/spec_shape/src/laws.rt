//! What holds of the fields of all shapes.

ghost use Rattle.std.specs.Prelude.{◌≡◌, ◌++◌, ◌<◌, ℕ, List, Ok, get_or};
ghost use Rattle.spec_shape.specs.declared.kinds.Kind.{Kind};
ghost use Rattle.spec_shape.specs.declared.kinds.Field.{Field};
ghost use Rattle.spec_shape.specs.Spelling.{fields_spelled};
ghost use Rattle.spec_shape.specs.Reading.{fields_at};
ghost use Rattle.spec_shape.specs.Tables.{AreOf, AreInRange};

/// What is spelled is read again, whatever follows it.
pub fn fields_are_read_again()
    ensures { (place : ℕ) (kinds : List Kind) (fields : List Field) (rest : List ℕ) →
        AreOf kinds fields → AreInRange fields →
        fields_at place kinds (fields_spelled fields ++ rest) ≡ Ok (fields, rest) }
{}

/// What is read is spelled so, and is of the shape's kinds and within its limits.
pub fn fields_are_spelled_so()
    ensures { (place : ℕ) (kinds : List Kind) (bytes : List ℕ) (fields : List Field) (rest : List ℕ) →
        ((i : ℕ) → get_or bytes i 0 < 256) → fields_at place kinds bytes ≡ Ok (fields, rest) →
        (bytes ≡ fields_spelled fields ++ rest) × AreOf kinds fields × AreInRange fields }
{}
