//! Tests of register bits, by masks.

ghost use Rattle.registers.specs.Flags.{contains as has, meets};
ghost use Rattle.std.specs.Prelude.{◌≡◌};

/// Whether all bits of the mask are set in the byte.
#[tactic(auto, unfolding(crate::specs::Flags::contains))]
pub fn contains(byte: u8, mask: u8) -> bool
    ensures { result ≡ has byte mask }
{
    byte & mask == mask
}

/// Whether some bit of the mask is set in the byte.
#[tactic(auto, unfolding(crate::specs::Flags::meets))]
pub fn intersects(byte: u8, mask: u8) -> bool
    ensures { result ≡ meets byte mask }
{
    byte & mask != 0
}
