//! The saved status bits, for those who watch the driver.

ghost use Rattle.std.specs.Prelude.{◌≡◌};

use crate::uart::Uart16550;

impl<B> Uart16550<B> {
    /// The line status bits that reads have cleared on the device since the last `lsr`.
    pub fn lsr_saved(&self) -> u8
        ensures { result ≡ self.now.lsr_saved }
    {
        self.lsr_saved
    }

    /// The modem status bits that reads have cleared on the device since the last `msr`.
    pub fn msr_saved(&self) -> u8
        ensures { result ≡ self.now.msr_saved }
    {
        self.msr_saved
    }
}
