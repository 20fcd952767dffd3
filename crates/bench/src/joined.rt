//! What is joined to a chip.

ghost use Rattle.std.specs.Prelude.{◌≡◌, ℕ, List};
ghost use Rattle.backends.specs.declared.character.Character.{Character};
ghost use Rattle.backends.specs.Rules.{Moved};
ghost use Rattle.bench.specs.State.{State, state, IsSound, meaning_of};

use crate::chip_core::Core;

/// What is joined to a chip: before each access it lets characters arrive at the chip, and bytes
/// leave it, as the rules say.
pub trait Joined: Drop {
    // the characters that have come from the line
    ghost came: { Self → List Character };

    // the bytes that have left for it
    ghost gone: { Self → List ℕ };

    // the chip and what is joined to it, when an access acts
    ghost ticked: { State Self → State Self };

    // the chip stays sound: not among the laws below, since the device's states are made with it
    ghost sound: { (s : State Self) → IsSound came s → IsSound came (ticked s) };

    // The chip is a parameter: the fact that ties it to what is joined does not hold between the steps
    // of a tick, and a `Simulated` keeps it at every moment.

    /// What happens before an access acts.
    fn tick(&mut self, core: &mut Core)
        requires { IsSound came (state core.old self.old) }
        ensures { state core.new self.new ≡ ticked (state core.old self.old) };

    ghost moves: { (s : State Self) → Moved (meaning_of came gone s) (meaning_of came gone (ticked s)) };
}
