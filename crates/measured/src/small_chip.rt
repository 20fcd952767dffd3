//! A small simulated chip.

ghost use Rattle.std.specs.Prelude.{◌<◌, ◌≡◌};
ghost use Rattle.measured.specs.SmallChip.{quiet, arrived, status, oldest, taken, identity, stored, chip_device};

use crate::seen::mix;
use crate::watched::Watched;
use backends::Backend;
use registers::offsets;

/// A chip with a receive ring of 16 places. While the line has characters left, one arrives
/// before each read of the line status. The transmitter is always empty. Of the registers that
/// keep what is written, only the wired bits can be read back.
#[derive(Drop)]
pub struct SmallChip {
    // the comparison needs the ring of the chip that the Rust's driver runs on
    ring: [u8; 16],
    head: u8,
    tail: u8,
    left: usize,
    registers: [u8; 8],
    wired: u8,
    sum: u32,
}

impl SmallChip {
    /// A chip with nothing in its ring, whose line has so many characters left.
    pub fn new(left: usize, wired: u8) -> Self
        ensures { result ≡ quiet left wired }
    {
        SmallChip {
            ring: [0; 16],
            head: 0,
            tail: 0,
            left,
            registers: [0; 8],
            wired,
            sum: 0,
        }
    }

    /// The next character of the line arrives, if there is one.
    fn arrive(&mut self)
        ensures { self.new ≡ arrived self.old }
    {
        if self.left > 0 {
            self.ring[(self.head % 16) as usize] = (self.left % 256) as u8;
            self.head = self.head.wrapping_add(1);
            self.left -= 1;
        }
    }

    /// The line status.
    fn status(&self) -> u8
        ensures { result ≡ status self.now }
    {
        if self.head == self.tail { 0x60 } else { 0x61 }
    }

    /// Takes the oldest character out of the ring; 0 where it has none.
    fn take(&mut self) -> u8
        ensures value { result ≡ oldest self.old }
        ensures state { self.new ≡ taken self.old }
    {
        if self.head == self.tail {
            return 0;
        }
        let byte = self.ring[(self.tail % 16) as usize];
        self.tail = self.tail.wrapping_add(1);
        byte
    }

    /// The interrupt status: none pending, and whether the FIFOs are on.
    fn identity(&self) -> u8
        ensures { result ≡ identity self.now }
    {
        if (self.registers[2] & self.wired) % 2 == 1 {
            0xC1
        } else {
            0x01
        }
    }

    /// Keeps what was written. A write of the FIFO control empties the ring.
    fn store(&mut self, offset: u8, value: u8)
        requires { offset < 8 }
        ensures { self.new ≡ stored self.old offset value }
    {
        self.sum = mix(self.sum, offset, value);
        self.registers[offset as usize] = value;
        if offset == offsets::FCR {
            self.tail = self.head;
        }
    }
}

impl Backend for SmallChip {
    ghost device = { chip_device };

    fn read(&mut self, offset: u8) -> u8 {
        if offset >= 8 {
            return 0xFF;
        }
        match offset {
            offsets::DATA => self.take(),
            offsets::LSR => {
                self.arrive();
                self.status()
            }
            offsets::ISR => self.identity(),
            _ => self.registers[offset as usize] & self.wired,
        }
    }

    fn write(&mut self, offset: u8, value: u8) {
        if offset < 8 {
            self.store(offset, value);
        }
    }
}

impl Watched for SmallChip {
    ghost place = { λ s. s.left };

    ghost sum = { λ s. s.sum };

    fn place(&self) -> usize {
        self.left
    }

    fn sum(&self) -> u32 {
        self.sum
    }
}
