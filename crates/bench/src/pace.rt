//! The pace: on which accesses a byte leaves or comes round.

ghost use Rattle.std.specs.Prelude.{◌≡◌, ℕ};
ghost use Rattle.bench.specs.Pace.{beats, passed};

/// How many accesses there are between two beats, and how many of them have passed.
#[derive(Clone, Copy)]
pub struct Pace {
    pub between: u16,
    pub passed: u16,
}

impl Pace {
    /// One access more: whether it is a beat.
    pub fn beat(&mut self) -> bool
        ensures value { result ≡ beats self.old }
        ensures state { self.new ≡ passed self.old }
    {
        let beats = self.passed >= self.between;
        self.passed = if beats { 0 } else { self.passed + 1 };
        beats
    }
}
