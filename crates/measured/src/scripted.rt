//! Exported runs over a scripted device.
//!
//! C calls each by a name of its own, so there is a function for each run, on either device.

ghost use Rattle.std.specs.Prelude.{◌≤◌, length};

use crate::runs;
use crate::seen::Seen;
use crate::tape::Tape;
use crate::watched::watch;

/// Receives into a buffer, so many places a call.
#[unsafe(no_mangle)]
pub extern "C" fn receive_scripted(script: &[u8], buffer: &mut [u8], places: usize) -> Seen
    ensures { result.done ≤ length buffer.old }
{
    watch(
        Tape::new(script),
        |uart| runs::receive(uart, buffer, places),
    )
}

/// Sends a record so many times.
#[unsafe(no_mangle)]
pub extern "C" fn send_scripted(script: &[u8], bytes: &[u8], rounds: usize) -> Seen
    ensures { result.done ≤ rounds }
{
    watch(Tape::new(script), |uart| runs::send(uart, bytes, rounds))
}

/// Sets the device up once for each rate.
#[unsafe(no_mangle)]
pub extern "C" fn init_scripted(script: &[u8], rates: &[u32]) -> Seen
    ensures { result.done ≤ length rates.now }
{
    watch(Tape::new(script), |uart| runs::init(uart, rates))
}
