//! A scripted device that keeps a sum over what is written.

ghost use Rattle.measured.specs.Tape.{tape_device};
ghost use Rattle.std.specs.Prelude.{◌≡◌};

use crate::seen::mix;
use crate::watched::Watched;
use backends::Backend;

/// A device that answers each read with the next byte of a list, and with 0xFF after its end.
#[derive(Drop)]
pub struct Tape<'a> {
    // an index, which tells how many were read: a rest would need the first length beside it
    bytes: &'a [u8],
    at: usize,
    sum: u32,
}

impl<'a> Tape<'a> {
    /// A tape at the beginning of its bytes.
    pub fn new(bytes: &'a [u8]) -> Self
        ensures { (result.bytes.now ≡ bytes.now) × (result.at ≡ 0) × (result.sum ≡ 0) }
    {
        Tape {
            bytes,
            at: 0,
            sum: 0,
        }
    }
}

impl<'a> Backend for Tape<'a> {
    ghost device = { tape_device };

    fn read(&mut self, offset: u8) -> u8 {
        if offset >= 8 || self.at >= self.bytes.len() {
            return 0xFF;
        }
        let byte = self.bytes[self.at];
        self.at += 1;
        byte
    }

    fn write(&mut self, offset: u8, value: u8) {
        if offset < 8 {
            self.sum = mix(self.sum, offset, value);
        }
    }
}

impl<'a> Watched for Tape<'a> {
    ghost place = { λ s. s.at };

    ghost sum = { λ s. s.sum };

    fn place(&self) -> usize {
        self.at
    }

    fn sum(&self) -> u32 {
        self.sum
    }
}
