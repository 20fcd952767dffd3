//! The modem status register: read-only, and a read clears bits 0 to 3.

ghost use Rattle.registers.specs.Modem.{LineChanges};

/// Clear-to-send has changed since the last read.
pub const DELTA_CTS: u8 = 1 << 0;
/// Data-set-ready has changed since the last read.
pub const DELTA_DSR: u8 = 1 << 1;
/// The ring indicator has gone from set to clear since the last read.
pub const TRAILING_EDGE_RI: u8 = 1 << 2;
/// Carrier-detect has changed since the last read.
pub const DELTA_CD: u8 = 1 << 3;
/// Clear to send: the remote can receive.
pub const CTS: u8 = 1 << 4;
/// Data set ready: the remote is powered on.
pub const DSR: u8 = 1 << 5;
/// Ring indicator.
pub const RI: u8 = 1 << 6;
/// Carrier detect: the remote has a connection.
pub const CD: u8 = 1 << 7;

/// The change bits for the lines that differ between two bytes, of RI only where it has cleared.
pub fn modem_line_changes(old: u8, new: u8) -> u8
    ensures { LineChanges old new result }
{
    // a line's change bit stands four places below it
    let changed = (old ^ new) >> 4;
    let cleared = (old & !new) >> 4;
    (changed & (DELTA_CTS | DELTA_DSR | DELTA_CD)) | (cleared & TRAILING_EDGE_RI)
}
