//! The interrupt status register: read-only, at offset 2.

ghost use Rattle.std.specs.Prelude.{◌≡◌, ◌%◌, not};
ghost use Rattle.registers.specs.Flags.{contains as has};
ghost use Rattle.registers.specs.Interrupts.{Decoded, rank};

use crate::flags::contains;

/// Clear while an interrupt is pending.
pub const INTERRUPT_STATUS: u8 = 1 << 0;
/// Bit 0 of the interrupt's code.
pub const IIC_0: u8 = 1 << 1;
/// Bit 1 of the interrupt's code.
pub const IIC_1: u8 = 1 << 2;
/// Bit 2 of the interrupt's code.
pub const IIC_2: u8 = 1 << 3;
/// A DMA reception has ended, on devices that signal it.
pub const DMA_RX_END: u8 = 1 << 4;
/// A DMA transmission has ended, on devices that signal it.
pub const DMA_TX_END: u8 = 1 << 5;
/// Set, with the next, while the FIFOs are on.
pub const FIFOS_ENABLED0: u8 = 1 << 6;
/// Set, with the one before, while the FIFOs are on.
pub const FIFOS_ENABLED1: u8 = 1 << 7;

/// Why the device interrupts.
#[derive(Clone, Copy, Debug, PartialEq, Eq)]
pub enum InterruptType {
    /// The first waiting character has an error or is a break. A read of the line status ends it.
    ReceiverLineStatus,
    /// The receive FIFO has reached its level. Reading characters ends it.
    ReceivedDataReady,
    /// Characters wait below the level, and for four character times none came or was read.
    ReceptionTimeout,
    /// The transmitter can take characters. A write of one, or a read of this status, ends it.
    TransmitterHoldingRegisterEmpty,
    /// A modem line has changed. A read of the modem status ends it.
    ModemStatus,
    /// A DMA reception has ended. A read of this status ends it.
    DmaReceptionEndOfTransfer,
    /// A DMA transmission has ended. A read of this status ends it.
    DmaTransmissionEndOfTransfer,
}

impl InterruptType {
    /// The urgency: 1 is served first, 6 last.
    pub fn priority(self) -> u8
        ensures { result ≡ rank self }
    {
        match self {
            Self::ReceiverLineStatus => 1,
            Self::ReceivedDataReady | Self::ReceptionTimeout => 2,
            Self::TransmitterHoldingRegisterEmpty => 3,
            Self::ModemStatus => 4,
            Self::DmaReceptionEndOfTransfer => 5,
            Self::DmaTransmissionEndOfTransfer => 6,
        }
    }

    // Not `TryFrom`: that no interrupt is pending is no error.
    /// The interrupt that an interrupt status byte shows, if one is pending.
    pub fn from_bits(isr_bits: u8) -> Option<Self>
        ensures { Decoded isr_bits result }
    {
        match isr_bits % 16 {
            0b0110 => Some(Self::ReceiverLineStatus),
            0b0100 => Some(Self::ReceivedDataReady),
            0b1100 => Some(Self::ReceptionTimeout),
            0b0010 => Some(Self::TransmitterHoldingRegisterEmpty),
            0b0000 => Some(Self::ModemStatus),
            0b1110 => Some(Self::DmaReceptionEndOfTransfer),
            0b1010 => Some(Self::DmaTransmissionEndOfTransfer),
            _ => None,
        }
    }
}

// The Rust asks the byte too.
/// The interrupt that the byte shows, if one is pending.
pub fn interrupt_type(isr: u8) -> Option<InterruptType>
    ensures { Decoded isr result }
{
    InterruptType::from_bits(isr)
}

/// Whether the byte shows an interrupt: its lowest bit is clear.
pub fn has_pending_interrupt(isr: u8) -> bool
    ensures { result ≡ not (has isr 0x01) }
{
    !contains(isr, INTERRUPT_STATUS)
}

/// Whether the byte shows FIFOs that exist and are on: both bits.
pub fn fifo_enabled(isr: u8) -> bool
    ensures { result ≡ has isr 0xC0 }
{
    contains(isr, FIFOS_ENABLED0 | FIFOS_ENABLED1)
}
