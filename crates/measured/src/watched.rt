//! Runs on a device that tells what it saw of them.

ghost use Rattle.std.specs.Prelude.{◌≡◌, ℕ};

use crate::seen::Seen;
use backends::Backend;
use driver::Uart16550;

/// A device that tells how far it has come, and the sum over all writes to it.
pub trait Watched: Backend {
    ghost place: { Self → ℕ };

    ghost sum: { Self → ℕ };

    /// How far the device has come.
    fn place(&self) -> usize
        ensures { result ≡ place self.now };

    /// The sum over all writes.
    fn sum(&self) -> u32
        ensures { result ≡ sum self.now };

    /// What the device saw of a run that did so much and left this line status.
    fn seen(&self, done: usize, lsr: u8) -> Seen
        ensures { (result.done ≡ done) × (result.place ≡ place self.now) × (result.sum ≡ sum self.now) × (result.lsr ≡ lsr) }
    {
        Seen {
            done,
            place: self.place(),
            sum: self.sum(),
            lsr,
        }
    }
}

/// Makes a run on a new driver over this device, and tells what the device saw of it.
pub fn watch<D: Watched + Drop, R: FnOnce(&mut Uart16550<D>) -> usize>(device: D, run: R) -> Seen
    requires { R.IsAlwaysCallable run }
    ensures { (uart after : _) × R.post run uart result.done after }
{
    let mut uart = Uart16550::new_with_backend(device);
    let done = run(&mut uart);
    let lsr = uart.lsr();
    uart.backend().seen(done, lsr)
}
