//! The examples that are worked out by hand.

ghost use Rattle.backends.specs.Worked.{AllWorked};
ghost use Rattle.std.specs.Prelude.{◌≡◌, true, false, [], ◌∷◌};

use crate::place::MmioPlace;

/// All the examples hold. Which of three places fit: the highest at stride 1 does, the next one and
/// stride 3 there do not.
pub fn worked_examples() -> [bool; 3]
    ensures examples { AllWorked }
    ensures answer { result ≡ true ∷ false ∷ false ∷ [] }
{
    let _ = registers::divisor::worked_examples();
    let fits = MmioPlace::new(u64::MAX - 7, 1).is_ok();
    let past = MmioPlace::new(u64::MAX - 6, 1).is_ok();
    let uneven = MmioPlace::new(u64::MAX - 6, 3).is_ok();
    [fits, past, uneven]
}
