//! What the registers of the chip are set to.

ghost use Rattle.backends.specs.Chip.{capacity as holds, is_on};
ghost use Rattle.bench.specs.Making.{all_zero};
ghost use Rattle.bench.specs.Settings.{mode, loops, reaches_divisor, scratch_byte, scratch_kept};
ghost use Rattle.std.specs.Prelude.{◌≡◌};

use registers::flags::contains;
use registers::lcr::DLAB;
use registers::mcr::LOOP_BACK;

/// Whether the chip has FIFOs, and whether they are on.
#[derive(Clone, Copy)]
pub enum Fifos {
    /// The chip has none.
    Absent,
    /// It has them, and they are off.
    Off,
    /// They are on.
    On,
}

impl Fifos {
    /// How many characters each direction holds.
    pub fn capacity(self) -> u8
        ensures { result ≡ holds (mode self) }
    {
        if self.on() { 16 } else { 1 }
    }

    /// Whether they are on.
    pub fn on(self) -> bool
        ensures { result ≡ is_on (mode self) }
    {
        matches!(self, Fifos::On)
    }
}

/// The registers that keep what is written to them.
#[derive(Clone, Copy)]
pub struct Settings {
    pub ier: u8,
    pub lcr: u8,
    pub mcr: u8,
    pub dll: u8,
    pub dlm: u8,
    /// The scratch register, where there is one.
    pub scratch: Option<u8>,
    pub fifos: Fifos,
}

impl Settings {
    /// All registers at 0. FIFOs start off.
    pub fn new(fifos: bool, scratch: bool) -> Settings
        ensures { result ≡ all_zero fifos scratch }
    {
        Settings {
            ier: 0,
            lcr: 0,
            mcr: 0,
            dll: 0,
            dlm: 0,
            scratch: scratch.then_some(0),
            fifos: if fifos { Fifos::Off } else { Fifos::Absent },
        }
    }

    /// Loop mode.
    pub fn looping(&self) -> bool
        ensures { result ≡ loops self.now }
    {
        contains(self.mcr, LOOP_BACK)
    }

    /// Offsets 0 and 1 reach the divisor's bytes.
    pub fn divisor_reached(&self) -> bool
        ensures { result ≡ reaches_divisor self.now }
    {
        contains(self.lcr, DLAB)
    }

    /// What a read of the scratch register gives: 0xFF where there is none.
    pub fn scratch(&self) -> u8
        ensures { result ≡ scratch_byte self.now.scratch }
    {
        self.scratch.unwrap_or(0xFF)
    }

    /// The scratch register is written.
    pub fn keep_scratch(&mut self, byte: u8)
        ensures { self.new ≡ scratch_kept byte self.old }
    {
        if let Some(kept) = &mut self.scratch {
            *kept = byte;
        }
    }
}
