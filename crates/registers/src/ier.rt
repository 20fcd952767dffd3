//! The interrupt enable register. Bits 4 and 5 are reserved.

/// Interrupt when received data is ready, or waits too long.
pub const DATA_READY: u8 = 1 << 0;
/// Interrupt when the transmit FIFO, or the one transmit register, is empty.
pub const THR_EMPTY: u8 = 1 << 1;
/// Interrupt on an overrun, parity or framing error, or a break.
pub const RECEIVER_LINE_STATUS: u8 = 1 << 2;
/// Interrupt when a modem line changes.
pub const MODEM_STATUS: u8 = 1 << 3;
/// Reserved.
pub const _RESERVED0: u8 = 1 << 4;
/// Reserved.
pub const _RESERVED1: u8 = 1 << 5;
/// Interrupt at the end of a DMA reception, on devices that have it.
pub const DMA_RX_END: u8 = 1 << 6;
/// Interrupt at the end of a DMA transmission, on devices that have it.
pub const DMA_TX_END: u8 = 1 << 7;
