//! The registers' offsets from the base. An access above `SPR` reaches no register.

/// Received characters (read) and characters to send (write), while LCR bit 7 is clear.
pub const DATA: u8 = 0;
/// Interrupt enable, while LCR bit 7 is clear.
pub const IER: u8 = 1;
/// Interrupt status: reads of offset 2.
pub const ISR: u8 = 2;
/// FIFO control: writes of offset 2.
pub const FCR: u8 = 2;
/// Line control.
pub const LCR: u8 = 3;
/// Modem control.
pub const MCR: u8 = 4;
/// Line status.
pub const LSR: u8 = 5;
/// Modem status.
pub const MSR: u8 = 6;
/// Scratch pad.
pub const SPR: u8 = 7;
/// Low byte of the divisor, while LCR bit 7 is set.
pub const DLL: u8 = 0;
/// High byte of the divisor, while LCR bit 7 is set.
pub const DLM: u8 = 1;
/// Prescaler division, while LCR bit 7 is set, on devices that have one.
pub const PSD: u8 = 6;
