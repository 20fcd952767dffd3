//! The modem lines, as the modem status register shows them.

ghost use Rattle.bench.specs.Modem.{line_bits, outputs, lines as shown_lines, latched, shown, unchanged, still};
ghost use Rattle.std.specs.Prelude.{◌≡◌};

use crate::flag::flag;
use registers::flags::contains;
use registers::mcr::{DTR, LOOP_BACK, OUT_1, OUT_2_INT_ENABLE, RTS};
use registers::msr::{CD, CTS, DSR, RI, modem_line_changes};

/// The lines that the other side drives.
#[derive(Clone, Copy)]
pub struct ModemLines {
    /// The other side can receive.
    pub clear_to_send: bool,
    /// It is powered on.
    pub data_set_ready: bool,
    /// It rings.
    pub ring_indicator: bool,
    /// It has a carrier.
    pub carrier_detect: bool,
}

impl ModemLines {
    /// The lines in bits 4 to 7.
    fn bits(self) -> u8
        ensures { result ≡ line_bits self }
    {
        flag(self.clear_to_send, CTS)
            | flag(self.data_set_ready, DSR)
            | flag(self.ring_indicator, RI)
            | flag(self.carrier_detect, CD)
    }

    /// The outputs of this modem control, as loop mode leads them back.
    fn outputs(mcr: u8) -> ModemLines
        ensures { result ≡ outputs mcr }
    {
        ModemLines {
            clear_to_send: contains(mcr, RTS),
            data_set_ready: contains(mcr, DTR),
            ring_indicator: contains(mcr, OUT_1),
            carrier_detect: contains(mcr, OUT_2_INT_ENABLE),
        }
    }
}

/// The lines outside loop mode in bits 4 to 7, and the change bits that no read has cleared.
// A byte, made once: otherwise each read of the modem status would make it.
#[derive(Clone, Copy)]
pub struct Modem {
    pub fixed: u8,
    pub changes: u8,
}

impl Modem {
    /// Fixed lines, and no change.
    pub fn new(lines: ModemLines) -> Modem
        ensures { result ≡ still lines }
    {
        Modem {
            fixed: lines.bits(),
            changes: 0,
        }
    }

    /// The lines with this modem control in bits 4 to 7: in loop mode its outputs.
    fn lines(&self, mcr: u8) -> u8
        ensures { result ≡ shown_lines self.now mcr }
    {
        if contains(mcr, LOOP_BACK) {
            ModemLines::outputs(mcr).bits()
        } else {
            self.fixed
        }
    }

    /// The modem control was written.
    pub fn latch(&mut self, old: u8, new: u8)
        ensures { self.new ≡ latched self.old old new }
    {
        let before = self.lines(old);
        let after = self.lines(new);
        self.changes |= modem_line_changes(before, after);
    }

    /// The modem status is read, which clears the change bits.
    pub fn read(&mut self, mcr: u8) -> u8
        ensures value { result ≡ shown self.old mcr }
        ensures state { self.new ≡ unchanged self.old }
    {
        let shown = self.lines(mcr) | self.changes;
        self.changes = 0;
        shown
    }
}
