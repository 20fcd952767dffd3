//! The chip itself: its queues and registers, without the line.

ghost use Rattle.std.specs.Prelude.{◌≡◌, ℕ};
ghost use Rattle.bench.specs.Core.{status as shown_status, interrupts_shown, answer as answering, answered, controlled, switched, reset as emptying, modem_controlled, written, turned, accepting};
ghost use Rattle.bench.specs.Making.{Made};
ghost use Rattle.bench.specs.Receiver.{Room};

use crate::flag::flag;
use crate::modem::{Modem, ModemLines};
use crate::receiver::Receiver;
use crate::ring::Ring;
use crate::settings::{Fifos, Settings};
use crate::transmitter::Transmitter;
use backends::{Character, Counts};
use registers::fcr::{FIFO_ENABLE, RX_FIFO_RESET, TX_FIFO_RESET};
use registers::flags::contains;
use registers::mcr::LOOP_BACK;
use registers::{lsr, offsets};

/// Nothing is held or turns back: the chip has no shift register, so both bits agree.
const EMPTY: u8 = lsr::THR_EMPTY | lsr::TRANSMITTER_EMPTY;

/// A chip without what is joined to it.
#[derive(Drop)]
pub struct Core {
    pub receiver: Receiver,
    pub transmitter: Transmitter,
    pub settings: Settings,
    pub modem: Modem,
}

impl Core {
    /// A chip with all registers at 0.
    pub fn new(fifos: bool, scratch: bool, lines: ModemLines) -> Core
        ensures { Made fifos scratch lines result }
    {
        let none = Counts::default();
        Core {
            receiver: Receiver {
                queue: Ring::new(Character::unmarked(0)),
                counts: none,
                seen: none,
            },
            transmitter: Transmitter {
                held: Ring::new(0),
                turning: Ring::new(0),
            },
            settings: Settings::new(fifos, scratch),
            modem: Modem::new(lines),
        }
    }

    /// Whether a character may reach the receiver: one more may be lost.
    pub fn accepts(&self) -> bool
        ensures { result ≡ accepting self.now }
    {
        self.receiver.counts.lost < u64::MAX
    }

    /// In loop mode the oldest byte comes round.
    pub fn turn(&mut self)
        requires { Room self.old.receiver.counts }
        ensures { self.new ≡ turned self.old }
    {
        if self.accepts() {
            if let Some(byte) = self.transmitter.turning.pop() {
                self.receiver
                    .reach(self.settings.fifos, Character::unmarked(byte));
            }
        }
    }

    /// The line status.
    fn status(&self) -> u8
        ensures { result ≡ shown_status self.now }
    {
        let counts = self.receiver.counts;
        let seen = self.receiver.seen;
        flag(self.receiver.queue.len() > 0, lsr::DATA_READY)
            | flag(seen.lost < counts.lost, lsr::OVERRUN_ERROR)
            | flag(seen.parity < counts.parity, lsr::PARITY_ERROR)
            | flag(seen.framing < counts.framing, lsr::FRAMING_ERROR)
            | flag(seen.broken < counts.broken, lsr::BREAK_INTERRUPT)
            | flag(self.transmitter.filling() == 0, EMPTY)
            | flag(
                self.settings.fifos.on() && self.receiver.any_marked(),
                lsr::FIFO_DATA_ERROR,
            )
    }

    /// The interrupt status: no interrupt, and whether the FIFOs are on.
    fn interrupt_status(&self) -> u8
        ensures { result ≡ interrupts_shown self.now.settings }
    {
        if self.settings.fifos.on() { 0xC1 } else { 0x01 }
    }

    /// A register is read.
    pub fn read(&mut self, offset: u8) -> u8
        requires { Room self.old.receiver.counts }
        ensures value { result ≡ answering self.old offset }
        ensures state { self.new ≡ answered self.old offset }
    {
        match offset {
            offsets::DATA => {
                if self.settings.divisor_reached() {
                    self.settings.dll
                } else {
                    self.receiver.take()
                }
            }
            offsets::IER => {
                if self.settings.divisor_reached() {
                    self.settings.dlm
                } else {
                    self.settings.ier
                }
            }
            offsets::ISR => self.interrupt_status(),
            offsets::LCR => self.settings.lcr,
            offsets::MCR => self.settings.mcr,
            offsets::LSR => {
                let status = self.status();
                self.receiver.seen = self.receiver.counts;
                status
            }
            offsets::MSR => self.modem.read(self.settings.mcr),
            _ => self.settings.scratch(),
        }
    }

    /// The FIFOs are turned on or off: both queues are emptied.
    fn switch(&mut self, fifos: Fifos)
        ensures { self.new ≡ switched fifos self.old }
    {
        self.receiver.queue.clear();
        self.transmitter.strike();
        self.settings.fifos = fifos;
    }

    /// Two bits of the FIFO control empty one queue each.
    fn reset(&mut self, value: u8)
        ensures { self.new ≡ emptying value self.old }
    {
        if contains(value, RX_FIFO_RESET) {
            self.receiver.queue.clear();
        }
        if contains(value, TX_FIFO_RESET) {
            self.transmitter.strike();
        }
    }

    /// The FIFO control is written.
    fn control_fifos(&mut self, value: u8)
        ensures { self.new ≡ controlled self.old.settings.fifos value self.old }
    {
        match self.settings.fifos {
            Fifos::Absent => {}
            Fifos::Off => {
                if contains(value, FIFO_ENABLE) {
                    self.switch(Fifos::On);
                }
            }
            Fifos::On => {
                if contains(value, FIFO_ENABLE) {
                    self.reset(value);
                } else {
                    self.switch(Fifos::Off);
                }
            }
        }
    }

    /// The modem control is written: as loop mode ends, what has not come round vanishes.
    fn control_modem(&mut self, value: u8)
        ensures { self.new ≡ modem_controlled value self.old }
    {
        if self.settings.looping() && !contains(value, LOOP_BACK) {
            self.transmitter.turning.clear();
        }
        self.modem.latch(self.settings.mcr, value);
        self.settings.mcr = value;
    }

    /// A register is written.
    pub fn write(&mut self, offset: u8, value: u8)
        ensures { self.new ≡ written self.old offset value }
    {
        match offset {
            offsets::DATA => {
                if self.settings.divisor_reached() {
                    self.settings.dll = value;
                } else {
                    self.transmitter.send(
                        self.settings.looping(),
                        self.settings.fifos.capacity(),
                        value,
                    );
                }
            }
            offsets::IER => {
                if self.settings.divisor_reached() {
                    self.settings.dlm = value;
                } else {
                    self.settings.ier = value;
                }
            }
            offsets::FCR => self.control_fifos(value),
            offsets::LCR => self.settings.lcr = value,
            offsets::MCR => self.control_modem(value),
            offsets::LSR | offsets::MSR => {}
            _ => self.settings.keep_scratch(value),
        }
    }
}
