//! Values that a field of a register holds as codes. Not `From`: a code is not the number that the
//! value stands for, so it is asked for by name.

ghost use Rattle.std.specs.Prelude.{◌≡◌, ℕ, ◌%◌, ◌^◌};
ghost use Rattle.registers.specs.Fields.{field_at, FieldSet, IsCoding};
ghost use Rattle.registers.specs.declared.fields.Field.{Field};

use crate::fields::Field;

/// A value that one field of a register holds as its code.
pub(crate) trait Coded {
    ghost FIELD: { Field };

    ghost code: { Self → ℕ };

    // the code that the bits of the field stand for
    ghost stands_for: { ℕ → ℕ };

    /// The field.
    const FIELD: Field;

    /// The value that the field's bits stand for; higher bits do not count.
    fn from_code(bits: u8) -> Self
        ensures { code result ≡ stands_for (bits % 2 ^ FIELD.width) };

    /// The value's code.
    fn code(self) -> u8
        ensures { result ≡ code self };

    ghost laws: { IsCoding FIELD.width code stands_for };
}

/// The value in its field of the byte.
pub(crate) fn read<C: Coded>(byte: u8) -> C
    ensures { C.code result ≡ C.stands_for (field_at C.FIELD.place C.FIELD.width byte) }
{
    C::from_code(C::FIELD.read(byte))
}

/// The byte with the value in its field, which reads back; all other bits stay.
pub(crate) fn write<C: Coded>(byte: u8, value: C) -> u8
    ensures sets { FieldSet C.FIELD.place C.FIELD.width (C.code value) byte result }
    ensures back { (c : C) → C.code c ≡ C.stands_for (field_at C.FIELD.place C.FIELD.width result) → c ≡ value }
{
    C::FIELD.write(byte, value.code())
}
