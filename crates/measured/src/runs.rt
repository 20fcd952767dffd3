//! The loops that are measured, over any device.

ghost use Rattle.std.specs.Prelude.{◌≤◌, length};

use backends::Backend;
use driver::Uart16550;
use registers::config::{BaudRate, Config};

/// Fills the buffer in pieces of so many places, each by one call, and answers how many
/// characters came. A piece of 0 places is taken as one of 1.
pub fn receive<B: Backend>(uart: &mut Uart16550<B>, buffer: &mut [u8], places: usize) -> usize
    ensures { result ≤ length buffer.old }
{
    let mut received = 0;
    for piece in buffer.chunks_exact_mut(places.max(1)) {
        received += uart.receive_bytes(piece);
    }
    received
}

/// Sends a record so many times, and answers how often it was taken whole with no fruitless poll.
pub fn send<B: Backend>(uart: &mut Uart16550<B>, record: &[u8], rounds: usize) -> usize
    ensures { result ≤ rounds }
{
    // a chain takes 1.15 times the Rust's instructions; the bar is what this loop takes, 1.10 times
    let mut done = 0;
    for _round in 0..rounds {
        if uart.send_bytes_exact(record, 0).result.is_ok() {
            done += 1;
        }
    }
    done
}

/// Sets the device up once for each rate, and answers how often that was accepted.
pub fn init<B: Backend>(uart: &mut Uart16550<B>, rates: &[u32]) -> usize
    ensures { result ≤ length rates.now }
{
    rates
        .iter()
        .map(|rate| Config {
            baud_rate: BaudRate::Custom(*rate),
            ..Config::DEFAULT
        })
        .filter(|config| uart.init(*config, 0).result.is_ok())
        .count()
}
