//! Why a line has no answer.

ghost use Rattle.calls.specs.declared.fault.Fault.TheVariants.{Malformed, Memory};
ghost use Rattle.std.specs.Prelude.{◌≡◌};

use std::alloc::{AllocError, AllocFailed};
use std::error::Error;
use std::fmt;
use std::num::ParseIntError;

/// What went wrong with a line.
#[derive(Clone, Copy, Debug, PartialEq, Eq)]
pub enum Fault {
    /// Its words are not those that belong to a name.
    Malformed,
    /// No memory was left.
    Memory,
}

impl fmt::Display for Fault {
    fn fmt<W: fmt::Write>(&self, f: &mut fmt::Formatter<W>) -> fmt::Result {
        f.write_str(match self {
            Fault::Malformed => "a line of wrong words",
            Fault::Memory => "out of memory",
        })
    }
}

impl Error for Fault {}

impl From<ParseIntError> for Fault {
    ghost from_gives = { λ _ r. r ≡ Malformed };

    fn from(_e: ParseIntError) -> Fault {
        Fault::Malformed
    }
}

impl From<AllocError> for Fault {
    ghost from_gives = { λ _ r. r ≡ Memory };

    fn from(_e: AllocError) -> Fault {
        Fault::Memory
    }
}

impl<T: Drop> From<AllocFailed<T>> for Fault {
    ghost from_gives = { λ _ r. r ≡ Memory };

    fn from(_e: AllocFailed<T>) -> Fault {
        Fault::Memory
    }
}
