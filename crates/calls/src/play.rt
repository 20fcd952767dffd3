//! The lines of a text, one after another.

use crate::calls::{Device, ROOM};
use crate::fault::Fault;
use crate::line::Line;
use crate::show::Accesses;
use crate::values::{Flag, Octet};
use crate::words::Words;
use crate::{calls, questions};
use backends::{Recording, Script};
use driver::Uart16550;
use std::alloc::Global;
use std::fmt;
use std::fmt::Write;
use std::slice::Iter;

/// The bytes of a `device` line, or none where it is malformed.
type Bytes = Option<Vec<u8>>;

/// A text as it is played: the scripts of the devices to come, and the device that stands now.
#[derive(Drop)]
struct Player<'a> {
    heap: Global,
    scripts: Iter<'a, Bytes>,
    device: Option<Device<'a>>,
    devices: u64,
}

/// The answers to all lines of a text, a line each. One that cannot be read is given back after `?`.
pub fn answers(heap: Global, text: &str) -> Result<String, Fault> {
    let scripts = scripts(heap, text)?;
    let mut player = Player {
        heap,
        scripts: scripts.iter(),
        device: None,
        devices: 0,
    };
    let mut out = String::new(heap);
    for line in text.lines() {
        player.line(line, &mut out)?;
    }
    Ok(out)
}

/// The bytes of all devices, in the order of their lines.
fn scripts(heap: Global, text: &str) -> Result<Vec<Bytes>, Fault> {
    text.lines()
        .filter(|line| line.starts_with("device"))
        .map(|line| script(heap, line))
        .try_collect(heap)
}

/// The bytes of one device.
fn script(heap: Global, line: &str) -> Result<Bytes, Fault> {
    match script_words(&mut Words::new(heap, line)) {
        Ok(bytes) => Ok(Some(bytes)),
        Err(Fault::Memory) => Err(Fault::Memory),
        Err(Fault::Malformed) => Ok(None),
    }
}

fn script_words(words: &mut Words<'_>) -> Result<Vec<u8>, Fault> {
    if words.word()? != "device" {
        return Err(Fault::Malformed);
    }
    let bytes = words.bytes()?;
    words.end()?;
    Ok(bytes)
}

impl<'a> Player<'a> {
    /// Answers one line.
    fn line(&mut self, text: &str, out: &mut String) -> Result<(), Fault> {
        let mut line = Line::new(self.heap, text)?;
        match self.answer(&mut line) {
            Ok(()) => writeln!(out, "{}", line.answer)?,
            Err(Fault::Malformed) => writeln!(out, "? {text}")?,
            Err(Fault::Memory) => return Err(Fault::Memory),
        }
        Ok(())
    }

    fn answer(&mut self, line: &mut Line<'_>) -> Result<(), Fault> {
        if line.text.starts_with("device") {
            return self.next_device(line);
        }
        match questions::answer(line) {
            Some(answered) => answered,
            None => self.call(line),
        }
    }

    /// Puts the next script's device in the place of the one that stands.
    fn next_device(&mut self, line: &mut Line<'_>) -> Result<(), Fault> {
        let Some(Some(bytes)) = self.scripts.next() else {
            return Err(Fault::Malformed);
        };
        let backend = Recording::new(Script::new(bytes));
        self.device = Some(Uart16550::new_with_backend(backend));
        self.devices = self.devices.saturating_add(1);
        let count = self.devices;
        write!(line.answer, "device {count}")?;
        Ok(())
    }

    /// Plays one call on the device that stands, and tells what it left.
    fn call(&mut self, line: &mut Line<'_>) -> Result<(), Fault> {
        let Some(device) = &mut self.device else {
            return Err(Fault::Malformed);
        };
        device.backend_mut().clear();
        calls::answer(device, line).unwrap_or(Err(Fault::Malformed))?;
        line.tell(&After(device))
    }
}

/// What the driver keeps after a call, and the accesses of the call.
#[derive(Drop)]
struct After<'a, 'd>(&'a Device<'d>);

impl fmt::Display for After<'_, '_> {
    fn fmt<W: fmt::Write>(&self, f: &mut fmt::Formatter<W>) -> fmt::Result {
        let device = self.0;
        let line = Octet(device.lsr_saved());
        let modem = Octet(device.msr_saved());
        let interrupts = Octet(device.config().interrupts);
        let fifo = Flag(device.fifo_enabled());
        let log = device.backend().log();
        let accesses = Accesses(log.recorded());
        write!(f, " | {line} {modem} {interrupts} {fifo} |{accesses}")?;
        match log.count().saturating_sub(ROOM as u64) {
            0 => Ok(()),
            more => write!(f, " and {more} more"),
        }
    }
}
