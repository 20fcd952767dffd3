//! The divisors that give an integer rate at the usual clock.

ghost use Rattle.std.specs.Prelude.{◌≡◌, ℕ, nat_eq};
ghost use Rattle.registers.specs.Divisors.{divisor_value, DividesClock, Listed};
ghost use Rattle.std.specs.Cmp.Rules.{comparing};
ghost use Rattle.std.specs.Ordering.{on};
ghost use Rattle.std.proofs.Common.{rules};
ghost use Rattle.std.specs.Cmp as Keys;

/// The divisors from 1 to 65,535 of 115,200, which is the usual clock over 16.
#[derive(Clone, Copy, Debug)]
pub enum Divisor {
    Divisor1 = 1,
    Divisor2 = 2,
    Divisor3 = 3,
    Divisor4 = 4,
    Divisor5 = 5,
    Divisor6 = 6,
    Divisor8 = 8,
    Divisor9 = 9,
    Divisor10 = 10,
    Divisor12 = 12,
    Divisor15 = 15,
    Divisor16 = 16,
    Divisor18 = 18,
    Divisor20 = 20,
    Divisor24 = 24,
    Divisor25 = 25,
    Divisor30 = 30,
    Divisor32 = 32,
    Divisor36 = 36,
    Divisor40 = 40,
    Divisor45 = 45,
    Divisor48 = 48,
    Divisor50 = 50,
    Divisor60 = 60,
    Divisor64 = 64,
    Divisor72 = 72,
    Divisor75 = 75,
    Divisor80 = 80,
    Divisor90 = 90,
    Divisor96 = 96,
    Divisor100 = 100,
    Divisor120 = 120,
    Divisor128 = 128,
    Divisor144 = 144,
    Divisor150 = 150,
    Divisor160 = 160,
    Divisor180 = 180,
    Divisor192 = 192,
    Divisor200 = 200,
    Divisor225 = 225,
    Divisor240 = 240,
    Divisor256 = 256,
    Divisor288 = 288,
    Divisor300 = 300,
    Divisor320 = 320,
    Divisor360 = 360,
    Divisor384 = 384,
    Divisor400 = 400,
    Divisor450 = 450,
    Divisor480 = 480,
    Divisor512 = 512,
    Divisor576 = 576,
    Divisor600 = 600,
    Divisor640 = 640,
    Divisor720 = 720,
    Divisor768 = 768,
    Divisor800 = 800,
    Divisor900 = 900,
    Divisor960 = 960,
    Divisor1152 = 1152,
    Divisor1200 = 1200,
    Divisor1280 = 1280,
    Divisor1440 = 1440,
    Divisor1536 = 1536,
    Divisor1600 = 1600,
    Divisor1800 = 1800,
    Divisor1920 = 1920,
    Divisor2304 = 2304,
    Divisor2400 = 2400,
    Divisor2560 = 2560,
    Divisor2880 = 2880,
    Divisor3200 = 3200,
    Divisor3600 = 3600,
    Divisor3840 = 3840,
    Divisor4608 = 4608,
    Divisor4800 = 4800,
    Divisor5760 = 5760,
    Divisor6400 = 6400,
    Divisor7200 = 7200,
    Divisor7680 = 7680,
    Divisor9600 = 9600,
    Divisor11520 = 11520,
    Divisor12800 = 12800,
    Divisor14400 = 14400,
    Divisor19200 = 19200,
    Divisor23040 = 23040,
    Divisor28800 = 28800,
    Divisor38400 = 38400,
    Divisor57600 = 57600,
}

impl From<Divisor> for u16 {
    ghost from_gives = { λ d n. n ≡ divisor_value d };

    /// The number in the divisor's name.
    fn from(divisor: Divisor) -> u16 {
        divisor as u16
    }
}

impl Divisor {
    /// The divisor as a number. The list has each divisor of 115,200 up to 65,535 and no other
    /// number.
    pub fn value(self) -> u16
        ensures value { result ≡ divisor_value self }
        ensures divides { DividesClock result }
        ensures complete { (d : ℕ) → DividesClock d → Listed d }
    {
        u16::from(self)
    }
}

// By hand, since a caller is promised that the numbers are compared: a derived comparison speaks of
// variants, and takes no clause.
impl PartialEq for Divisor {
    ghost eq = { on divisor_value nat_eq };

    ghost laws = { Keys.partial_equiv_from_equiv (Prim.search (comparing, rules)) };

    fn eq(&self, other: &Self) -> bool {
        u16::from(*self) == u16::from(*other)
    }
}

impl Eq for Divisor {
    ghost laws = { Prim.search (comparing, rules) };
}
