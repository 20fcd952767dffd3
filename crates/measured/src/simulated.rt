//! Exported runs over a small simulated chip.
//!
//! C calls each by a name of its own, so there is a function for each run, on either device.

ghost use Rattle.std.specs.Prelude.{◌≤◌, length};

use crate::runs;
use crate::seen::Seen;
use crate::small_chip::SmallChip;
use crate::watched::watch;

/// Receives into a buffer, so many places a call, from a line with so many characters left.
#[unsafe(no_mangle)]
pub extern "C" fn receive_simulated(
    left: usize,
    wired: u8,
    buffer: &mut [u8],
    places: usize,
) -> Seen
    ensures { result.done ≤ length buffer.old }
{
    watch(
        SmallChip::new(left, wired),
        |uart| runs::receive(uart, buffer, places),
    )
}

/// Sends a record so many times, while the line has so many characters left.
#[unsafe(no_mangle)]
pub extern "C" fn send_simulated(left: usize, wired: u8, bytes: &[u8], rounds: usize) -> Seen
    ensures { result.done ≤ rounds }
{
    watch(
        SmallChip::new(left, wired),
        |uart| runs::send(uart, bytes, rounds),
    )
}

/// Sets the device up once for each rate, while the line has so many characters left.
#[unsafe(no_mangle)]
pub extern "C" fn init_simulated(left: usize, wired: u8, rates: &[u32]) -> Seen
    ensures { result.done ≤ length rates.now }
{
    watch(SmallChip::new(left, wired), |uart| runs::init(uart, rates))
}
