//! The FIFO control register: write-only, at offset 2. Bit 5 is reserved.

ghost use Rattle.std.specs.Prelude.{◌≡◌, ℕ, ◌%◌};
ghost use Rattle.std.proofs.Common.{rules, lit<, lit≤};
ghost use Rattle.registers.specs.Fields.{field_at, FieldSet};
ghost use Rattle.registers.specs.Fifo.{trigger_code, fifo_control};
ghost use Rattle.registers.specs.declared.fcr.FifoTriggerLevel.{FifoTriggerLevel as Level};

use crate::coded::{Coded, read, write};
use crate::fields::Field;

/// Turns both FIFOs on. The other bits, but for `ENABLE_DMA_END`, count only with this one.
pub const FIFO_ENABLE: u8 = 1 << 0;
/// Empties the receive FIFO; the bit clears itself.
pub const RX_FIFO_RESET: u8 = 1 << 1;
/// Empties the transmit FIFO; the bit clears itself.
pub const TX_FIFO_RESET: u8 = 1 << 2;
/// DMA of several characters at a time, in place of one.
pub const DMA_MODE: u8 = 1 << 3;
/// Signals the end of a DMA transfer, on devices that have it.
pub const ENABLE_DMA_END: u8 = 1 << 4;
/// Reserved.
pub const _RESERVED0: u8 = 1 << 5;
/// The low bit of the trigger level.
pub const RX_FIFO_TRIGGER_LEVEL0: u8 = 1 << 6;
/// The high bit of the trigger level.
pub const RX_FIFO_TRIGGER_LEVEL1: u8 = 1 << 7;

/// How many characters must wait in the receive FIFO before it interrupts.
#[derive(Clone, Copy, Debug, PartialEq, Eq)]
pub enum FifoTriggerLevel {
    /// One character.
    One,
    /// Four characters.
    Four,
    /// Eight characters.
    Eight,
    /// Fourteen characters.
    Fourteen,
}

impl FifoTriggerLevel {
    /// The level of a two-bit code; higher bits do not count.
    pub fn from_raw_bits(bits: u8) -> Self
        ensures { trigger_code result ≡ bits % 4 }
    {
        match bits % 4 {
            0b00 => Self::One,
            0b01 => Self::Four,
            0b10 => Self::Eight,
            _ => Self::Fourteen,
        }
    }

    /// The two-bit code of the level, and of no other.
    pub fn to_raw_bits(self) -> u8
        ensures code { result ≡ trigger_code self }
        ensures back { (l : Level) → trigger_code l ≡ result → l ≡ self }
    {
        match self {
            Self::One => 0b00,
            Self::Four => 0b01,
            Self::Eight => 0b10,
            Self::Fourteen => 0b11,
        }
    }
}

impl Coded for FifoTriggerLevel {
    const FIELD: Field = Field { place: 6, width: 2 };

    ghost FIELD = { record { place = 6; width = 2; inside = record { starts = lit< tt; narrow = lit< tt; ends = lit≤ tt } } };

    ghost code = { trigger_code };

    ghost stands_for = { λ n. n };

    fn from_code(bits: u8) -> Self {
        Self::from_raw_bits(bits)
    }

    fn code(self) -> u8 {
        self.to_raw_bits()
    }

    ghost laws = { Prim.search rules };
}

/// The trigger level in the byte.
pub fn fifo_trigger_level(fcr: u8) -> FifoTriggerLevel
    ensures { trigger_code result ≡ field_at 6 2 fcr }
{
    read::<FifoTriggerLevel>(fcr)
}

/// The byte with this trigger level, which reads back; bits 0 to 5 stay.
pub fn set_fifo_trigger_level(fcr: u8, level: FifoTriggerLevel) -> u8
    ensures sets { FieldSet 6 2 (trigger_code level) fcr result }
    ensures back { (l : Level) → trigger_code l ≡ field_at 6 2 result → l ≡ level }
{
    write::<FifoTriggerLevel>(fcr, level)
}

/// The byte that resets both FIFOs and, with a level, turns them on.
pub fn fifo_control(level: Option<FifoTriggerLevel>) -> u8
    ensures { result ≡ fifo_control level }
{
    let reset = RX_FIFO_RESET | TX_FIFO_RESET;
    match level {
        None => reset,
        Some(level) => set_fifo_trigger_level(FIFO_ENABLE | reset, level),
    }
}
