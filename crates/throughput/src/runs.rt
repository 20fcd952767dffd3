//! The runs: a message through one chip, and the runs on all chips.

use crate::checksum::Checksum;
use crate::message::{Arrival, LENGTH, message, tape};
use crate::totals::Totals;
use anyhow::anyhow;
use backends::Backend;
use bench::{Bench, BenchOptions, ModemLines, Plug, TapeEntry};
use driver::Uart16550;
use registers::FIFO_SIZE;
use registers::config::Config;
use std::alloc::{AllocError, Global};

/// How many plugs send the message and receive it back.
const PLUGS: u8 = 50;
/// How many benches send it into their store.
const STORES: u8 = 50;
/// How many benches receive it character by character.
const STEADY_TAPES: u8 = 25;
/// How many benches receive it in bursts.
const BURST_TAPES: u8 = 25;

/// The modem lines of all chips.
// The program `characters` has the same lines: each program is read alone.
const LINES: ModemLines = ModemLines {
    clear_to_send: true,
    data_set_ready: true,
    ring_indicator: false,
    carrier_detect: true,
};

/// A chip with FIFOs and this tape, and with room for the message.
fn bench(heap: Global, tape: Vec<TapeEntry>) -> Result<Bench, AllocError> {
    let options = BenchOptions {
        fifos: true,
        scratch: true,
        pace: 1,
        lines: LINES,
    };
    Ok(Bench::new(options, tape, vec![in heap; 0; LENGTH as usize]?))
}

/// A driver over this chip, initialised.
fn started<B: Backend + Drop>(chip: B) -> anyhow::Result<Uart16550<B>> {
    let mut uart = Uart16550::new_with_backend(chip);
    if uart.init(Config::DEFAULT, 0).result.is_err() {
        return Err(anyhow!("init was refused"));
    }
    Ok(uart)
}

/// Sends the message, sixteen bytes to a call, and answers how many bytes were taken.
fn send<B: Backend>(uart: &mut Uart16550<B>, bytes: &[u8]) -> u64 {
    let sent = bytes
        .chunks(FIFO_SIZE)
        .map(|part| uart.send_bytes(part) as u64)
        .fold(0, u64::wrapping_add);
    // one access more, on which the last byte leaves
    let _ = uart.lsr();
    sent
}

/// Adds what waits to the checksum, at most sixteen characters.
fn take<B: Backend>(uart: &mut Uart16550<B>, received: &mut Checksum) {
    let mut buffer = [0; FIFO_SIZE];
    let n = uart.receive_bytes(&mut buffer);
    *received = received.with_all(&buffer[..n]);
}

/// Receives as many characters as the message has, at most sixteen to a call.
fn receive<B: Backend>(uart: &mut Uart16550<B>) -> Checksum {
    let mut received = Checksum::default();
    for _ in 0..LENGTH as usize / FIFO_SIZE {
        take(uart, &mut received);
    }
    received
}

/// Sends the message, sixteen bytes to a call, and after each call receives what came back.
fn exchange<B: Backend>(uart: &mut Uart16550<B>, bytes: &[u8]) -> (u64, Checksum) {
    let mut sent: u64 = 0;
    let mut received = Checksum::default();
    for part in bytes.chunks(FIFO_SIZE) {
        sent = sent.wrapping_add(uart.send_bytes(part) as u64);
        take(uart, &mut received);
    }
    (sent, received)
}

/// A simulated chip that tells what became of its characters.
trait Told {
    /// The bytes that left for the line.
    fn left(&self) -> &[u8];

    /// How many characters were lost.
    fn lost(&self) -> u64;
}

impl Told for Plug {
    fn left(&self) -> &[u8] {
        self.carried()
    }

    fn lost(&self) -> u64 {
        self.counts().lost
    }
}

impl Told for Bench {
    fn left(&self) -> &[u8] {
        Bench::left(self)
    }

    fn lost(&self) -> u64 {
        self.counts().lost
    }
}

/// A run on one chip, which answers how many bytes were taken and what was received.
fn on_chip<C: Backend + Told + Drop, R: FnOnce(&mut Uart16550<C>) -> (u64, Checksum)>(
    chip: C,
    run: R,
) -> anyhow::Result<Totals>
    requires { R.IsAlwaysCallable run }
{
    let mut uart = started(chip)?;
    let (sent, received) = run(&mut uart);
    let chip = uart.backend();
    Ok(Totals::of_one(sent, chip.left(), received, chip.lost()))
}

/// The message through a plug, and back.
fn on_plug(heap: Global, bytes: &[u8]) -> anyhow::Result<Totals> {
    let plug = Plug::new(LINES, vec![in heap; 0; LENGTH as usize]?);
    on_chip(plug, |uart| exchange(uart, bytes))
}

/// The message from a tape.
fn from_tape(heap: Global, arrival: Arrival) -> anyhow::Result<Totals> {
    let chip = bench(heap, tape(heap, arrival)?)?;
    on_chip(chip, |uart| (0, receive(uart)))
}

/// The message into a store.
fn into_store(heap: Global, bytes: &[u8]) -> anyhow::Result<Totals> {
    let chip = bench(heap, Vec::new(heap))?;
    on_chip(chip, |uart| (send(uart, bytes), Checksum::default()))
}

/// The message on every chip.
pub fn all(heap: Global) -> anyhow::Result<Totals> {
    let bytes = message(heap)?;
    let plugs = (0..PLUGS).map(|_| on_plug(heap, &bytes));
    let stores = (0..STORES).map(|_| into_store(heap, &bytes));
    let steady = (0..STEADY_TAPES).map(|_| from_tape(heap, Arrival::Steady));
    let bursts = (0..BURST_TAPES).map(|_| from_tape(heap, Arrival::Bursts));
    plugs.chain(stores).chain(steady).chain(bursts).sum()
}
