//! What makes a backend a 16550.

ghost use Rattle.std.specs.Prelude.{◌≡◌, ℕ, ◌<◌};
ghost use Rattle.backends.specs.Chip.{ChipState};
ghost use Rattle.backends.specs.Device.{reads, moves, writes};
ghost use Rattle.backends.specs.Rules.{KeepsRules, Reading, Writing};

use crate::backend::Backend;

/// A backend that keeps the rules of a 16550: its meaning is what such a chip holds, and every
/// access changes that meaning as the rules say.
pub trait Chip: Backend {
    ghost meaning: { Self → ChipState };

    /// Reads a register, told by the backend's state and by the chip's rules.
    fn look(&mut self, offset: u8) -> u8
        ensures value { result ≡ reads Self.Backend.device self.old offset }
        ensures state { self.new ≡ moves Self.Backend.device self.old offset }
        ensures rule { offset < 8 → Reading (meaning self.old) offset result (meaning self.new) }
    {
        self.read(offset)
    }

    /// Writes a register, told by the backend's state and by the chip's rules.
    fn put(&mut self, offset: u8, value: u8)
        ensures state { self.new ≡ writes Self.Backend.device self.old offset value }
        ensures rule { offset < 8 → Writing (meaning self.old) offset value (meaning self.new) }
    {
        self.write(offset, value)
    }

    ghost keeps: { KeepsRules Self.Backend.device meaning };
}
