//! The totals, and how they are printed.

ghost use Rattle.throughput.specs.Sums.{added, none, of_chip};
ghost use Rattle.std.specs.Prelude.{◌≡◌, fold};

use crate::checksum::Checksum;
use std::fmt;
use std::iter::Sum;
use std::ops::AddAssign;

/// What became of the characters on some chips.
#[derive(Clone, Copy, Default)]
pub struct Totals {
    /// How many chips there were.
    pub chips: u64,
    /// How many bytes `send_bytes` reported taken.
    pub sent: u64,
    /// What left for the line.
    pub left: Checksum,
    /// What `receive_bytes` handed out.
    pub received: Checksum,
    /// How many characters were lost.
    pub lost: u64,
}

impl Totals {
    /// Of one chip, which these bytes left.
    pub fn of_one(sent: u64, left: &[u8], received: Checksum, lost: u64) -> Totals
        ensures { result ≡ of_chip sent left.now received lost }
    {
        Totals {
            chips: 1,
            sent,
            left: Checksum::of(left),
            received,
            lost,
        }
    }
}

/// Those of both.
impl AddAssign for Totals {
    ghost add_assign_gives = { λ s t r. r ≡ added s t };

    fn add_assign(&mut self, more: Totals) {
        self.chips = self.chips.wrapping_add(more.chips);
        self.sent = self.sent.wrapping_add(more.sent);
        self.left += more.left;
        self.received += more.received;
        self.lost = self.lost.wrapping_add(more.lost);
    }
}

/// Those of all items.
impl Sum<Totals> for Totals {
    ghost sum_gives = { λ ts r. r ≡ fold added none ts };

    fn sum<I: Iterator<Item = Totals>>(iter: I) -> Totals {
        let mut totals = Totals::default();
        for more in iter {
            totals += more;
        }
        totals
    }
}

impl fmt::Display for Totals {
    fn fmt<W: fmt::Write>(&self, f: &mut fmt::Formatter<W>) -> fmt::Result {
        let Totals {
            chips,
            sent,
            left,
            received,
            lost,
        } = *self;
        writeln!(f, "chips: {chips}")?;
        writeln!(f, "sent: {sent}")?;
        writeln!(f, "left for the line: {}", left.count)?;
        writeln!(f, "checksum of what left: {}", left.sum)?;
        writeln!(f, "received: {}", received.count)?;
        writeln!(f, "checksum of the received: {}", received.sum)?;
        writeln!(f, "lost: {lost}")
    }
}
