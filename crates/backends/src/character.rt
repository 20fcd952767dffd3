//! Characters as a receiver has them.

ghost use Rattle.backends.specs.Rules.{unmarked as without_marks};
ghost use Rattle.std.specs.Prelude.{◌≡◌};

/// A received character: its byte, and the errors that came with it.
#[derive(Clone, Copy, Debug, PartialEq, Eq)]
pub struct Character {
    /// The byte.
    pub byte: u8,
    /// Its parity bit was wrong.
    pub parity: bool,
    /// It had no stop bit.
    pub framing: bool,
    /// The line was held low all through it: a break.
    pub broken: bool,
}

impl Character {
    /// A byte that came without an error.
    pub const fn unmarked(byte: u8) -> Self
        ensures { result ≡ without_marks byte }
    {
        Character {
            byte,
            parity: false,
            framing: false,
            broken: false,
        }
    }
}

/// How often each kind of error has happened.
#[derive(Clone, Copy, Debug, Default, PartialEq, Eq)]
pub struct Counts {
    /// Characters lost to an overrun.
    pub lost: u64,
    /// Characters with a wrong parity bit that became first in the queue.
    pub parity: u64,
    /// Characters without a stop bit that became first in the queue.
    pub framing: u64,
    /// Breaks that became first in the queue.
    pub broken: u64,
}
