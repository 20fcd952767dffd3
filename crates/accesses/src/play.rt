//! A default `init` with budget 0 on a scripted device.

ghost use Rattle.accesses.specs.Play.{PlayedOn};

use backends::{Recorder, Script};
use driver::{Uart16550, Waited};
use registers::config::Config;
use registers::error::InitError;

/// A driver over a recorded script, after its `init`, and what that answered.
#[derive(Drop)]
pub struct Played<'a> {
    pub uart: Uart16550<Recorder<Script<'a>>>,
    pub answer: Waited<Result<(), InitError>>,
}

/// Plays the bytes as the answers to the reads of a default `init` with budget 0.
pub fn play<'a>(input: &'a [u8]) -> Played<'a>
    ensures { PlayedOn input.now result.uart result.answer }
{
    let mut uart = Uart16550::new_with_backend(Recorder::new(Script::new(input)));
    let answer = uart.init(Config::DEFAULT, 0);
    Played { uart, answer }
}
