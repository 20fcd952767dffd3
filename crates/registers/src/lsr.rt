//! The line status register: read-only, and a read clears the error bits.

ghost use Rattle.registers.specs.Flags.{meets};
ghost use Rattle.std.specs.Prelude.{◌≡◌};

use crate::flags::intersects;

/// At least one received character waits.
pub const DATA_READY: u8 = 1 << 0;
/// A character was lost since the last read.
pub const OVERRUN_ERROR: u8 = 1 << 1;
/// The first waiting character came with a wrong parity bit.
pub const PARITY_ERROR: u8 = 1 << 2;
/// The first waiting character came without a stop bit.
pub const FRAMING_ERROR: u8 = 1 << 3;
/// The line was held low for a whole character.
pub const BREAK_INTERRUPT: u8 = 1 << 4;
/// The transmit FIFO, or the one transmit register, is empty.
pub const THR_EMPTY: u8 = 1 << 5;
/// Nothing is left to send, the shift register included.
pub const TRANSMITTER_EMPTY: u8 = 1 << 6;
/// Some waiting character bears an error.
pub const FIFO_DATA_ERROR: u8 = 1 << 7;

/// Whether the byte shows an error: overrun, parity, framing, a break, or one in the FIFO.
pub fn has_error(lsr: u8) -> bool
    ensures { result ≡ meets lsr 0x9E }
{
    intersects(
        lsr,
        OVERRUN_ERROR | PARITY_ERROR | FRAMING_ERROR | BREAK_INTERRUPT | FIFO_DATA_ERROR,
    )
}
