//! Bits of a register that a chip shows.

ghost use Rattle.bench.specs.Flag.{flagged};
ghost use Rattle.std.specs.Prelude.{◌≡◌};

/// The mask where the test holds.
pub fn flag(test: bool, mask: u8) -> u8
    ensures { result ≡ flagged test mask }
{
    if test { mask } else { 0 }
}
