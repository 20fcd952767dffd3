//! A checksum that sees which bytes there were, how many, and in what order.

ghost use Rattle.throughput.specs.Sums.{blank, joined, with_byte, with_bytes};
ghost use Rattle.std.specs.Prelude.{◌≡◌};

use std::ops::AddAssign;

/// How many bytes there were, and the sum of all bytes, each times its place counted from 1.
#[derive(Clone, Copy, Default)]
pub struct Checksum {
    pub count: u64,
    pub sum: u64,
}

impl Checksum {
    /// One byte more.
    fn with(self, byte: u8) -> Checksum
        ensures { result ≡ with_byte byte self }
    {
        let count = self.count.wrapping_add(1);
        Checksum {
            count,
            sum: self.sum.wrapping_add(count.wrapping_mul(u64::from(byte))),
        }
    }

    /// These bytes more.
    pub fn with_all(self, bytes: &[u8]) -> Checksum
        ensures { result ≡ with_bytes bytes.now self }
    {
        bytes.iter().fold(self, |sum, byte| sum.with(*byte))
    }

    /// The checksum of these bytes alone.
    pub fn of(bytes: &[u8]) -> Checksum
        ensures { result ≡ with_bytes bytes.now blank }
    {
        Checksum::default().with_all(bytes)
    }
}

/// The counts and the sums of both.
impl AddAssign for Checksum {
    ghost add_assign_gives = { λ s t r. r ≡ joined s t };

    fn add_assign(&mut self, other: Checksum) {
        self.count = self.count.wrapping_add(other.count);
        self.sum = self.sum.wrapping_add(other.sum);
    }
}
