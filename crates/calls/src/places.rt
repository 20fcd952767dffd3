//! Questions about addresses.

ghost use Rattle.calls.specs.Landing.{landing};

use crate::line::{Answered, Line};
use crate::show::{Outcome, Two};
use crate::values::Optional;
use crate::words::Words;
use backends::{Backend, MmioBackend, MmioPlace, PioBackend, PortPlace, Space};

/// Answers one of these questions.
pub fn answer(line: &mut Line<'_>) -> Answered {
    Some(match line.name {
        "port" => line.answer(Words::one, |base| {
            Outcome(PortPlace::new(base).map(|place| PioBackend::new(place, NOWHERE).base()))
        }),
        "mmio" => line.answer(Words::two, |(base, stride)| {
            Outcome(MmioPlace::new(base, stride).map(|place| {
                let backend = MmioBackend::new(place, NOWHERE);
                Two(backend.base(), backend.stride())
            }))
        }),
        "mmio_place" => line.answer(Words::two, |(stride, offset)| {
            Outcome(MmioPlace::new(0, stride).map(|place| Optional(landed(place, offset))))
        }),
        _ => return None,
    })
}

/// An address space of which only the last write is known.
#[derive(Drop)]
pub struct Landing {
    address: Option<u64>,
}

/// Nothing was written yet.
const NOWHERE: Landing = Landing { address: None };

impl Space for Landing {
    ghost bus = { landing };

    fn read(&mut self, _address: u64) -> u8 {
        0xFF
    }

    fn write(&mut self, address: u64, _value: u8) {
        self.address = Some(address);
    }
}

/// Where a write to a register lands, if it does.
fn landed(place: MmioPlace, offset: u8) -> Option<u64> {
    let mut backend = MmioBackend::new(place, NOWHERE);
    backend.write(offset, 0);
    backend.space().address
}
