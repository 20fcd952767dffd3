//! Fields: neighbouring bits of a register that hold one value.

ghost use Rattle.std.specs.Prelude.{◌≡◌, ℕ, ◌+◌, ◌%◌, ◌^◌, ◌<◌, ◌≤◌};
ghost use Rattle.registers.specs.Fields.{field_at, FieldSet, IsInside};

/// A field of a byte: so many bits from a place on.
#[derive(Clone, Copy)]
pub(crate) struct Field {
    /// The lowest bit.
    pub(crate) place: u32,
    /// How many bits.
    pub(crate) width: u32,
    ghost inside: { IsInside place width },
}

impl Field {
    /// The field's value in the byte.
    pub(crate) fn read(self, byte: u8) -> u8
        ensures { result ≡ field_at self.place self.width byte }
    {
        (byte >> self.place) & ((1 << self.width) - 1)
    }

    /// The byte with this value in the field; all other bits stay.
    pub(crate) fn write(self, byte: u8, value: u8) -> u8
        requires { value < 2 ^ self.width }
        ensures { FieldSet self.place self.width value byte result }
    {
        let mask = ((1 << self.width) - 1) << self.place;
        (byte & !mask) | (value << self.place)
    }
}
