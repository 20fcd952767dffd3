//! Reads of the status registers that keep what a read clears.

ghost use Rattle.std.specs.Prelude.{◌≡◌, ℕ, ◌+◌, ◌≤◌, [], ◌∷◌};
ghost use Rattle.backends.specs.Device.{Runs, rd};
ghost use Rattle.driver.specs.Kept.{kept};
ghost use Rattle.driver.specs.Traces.{noting};

use crate::uart::Uart16550;
use backends::Backend;
use registers::{lsr, offsets};

/// The line status bits that a read clears: overrun, parity, framing, break.
const ERROR_FLAGS: u8 = 0x1E;

/// The modem status bits that a read clears: the changes of the four lines.
const CHANGE_INDICATORS: u8 = 0x0F;

// One method for both would take the register, the mask and the saved byte, which are all that a
// body here has.
impl<B: Backend> Uart16550<B> {
    /// Reads the line status. The read clears the error bits on the device, so they are saved.
    pub(crate) fn read_lsr(&mut self) -> u8
        ensures accesses { Runs B.device (rd 5 result ∷ []) self.old.backend self.new.backend }
        ensures keeps { kept self.new ≡ noting (kept self.old) (result ∷ []) [] }
    {
        let lsr = self.backend.read(offsets::LSR);
        self.lsr_saved |= lsr & ERROR_FLAGS;
        lsr
    }

    /// Reads the modem status. The read clears the change bits on the device, so they are saved.
    pub(crate) fn read_msr(&mut self) -> u8
        ensures accesses { Runs B.device (rd 6 result ∷ []) self.old.backend self.new.backend }
        ensures keeps { kept self.new ≡ noting (kept self.old) [] (result ∷ []) }
    {
        let msr = self.backend.read(offsets::MSR);
        self.msr_saved |= msr & CHANGE_INDICATORS;
        msr
    }
}
