//! The prescaler division register, on devices that have one: offset 6 while LCR bit 7 is set.
//! Bits 4 to 7 are reserved.

ghost use Rattle.std.specs.Prelude.{◌≡◌, ◌%◌};
ghost use Rattle.registers.specs.Fields.{field_at, FieldSet};

use crate::fields::Field;

/// Bit 0 of the division factor.
pub const PDF0: u8 = 1 << 0;
/// Bit 1 of the division factor.
pub const PDF1: u8 = 1 << 1;
/// Bit 2 of the division factor.
pub const PDF2: u8 = 1 << 2;
/// Bit 3 of the division factor.
pub const PDF3: u8 = 1 << 3;
/// Reserved.
pub const _RESERVED0: u8 = 1 << 4;
/// Reserved.
pub const _RESERVED1: u8 = 1 << 5;
/// Reserved.
pub const _RESERVED2: u8 = 1 << 6;
/// Reserved.
pub const _RESERVED3: u8 = 1 << 7;

// Not `Coded`: a factor is any byte, of which the field holds the low four bits, so its codes tell no
// two bytes apart.
const PDF: Field = Field { place: 0, width: 4 };

/// The division factor in the byte.
pub fn pdf(psd: u8) -> u8
    ensures { result ≡ field_at 0 4 psd }
{
    PDF.read(psd)
}

/// The byte with the low four bits of this division factor; bits 4 to 7 stay.
pub fn set_pdf(psd: u8, pdf: u8) -> u8
    ensures { FieldSet 0 4 (pdf % 16) psd result }
{
    PDF.write(psd, pdf % 16)
}
