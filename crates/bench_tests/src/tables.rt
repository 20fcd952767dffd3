//! Runs as tables, and the chips to run them on.

use backends::{Access, Backend, Character, Kind};
use bench::{Bench, BenchOptions, ModemLines, TapeEntry};
use std::alloc::Global;
use std::process::Abort;
use std::test::*;

/// A row of a table: the register is read, and must give this byte.
pub fn r(offset: u8, value: u8) -> Access {
    Access::read(offset, value)
}

/// A row of a table: this byte is written to the register.
pub fn w(offset: u8, value: u8) -> Access {
    Access::write(offset, value)
}

/// Makes the accesses of a table, in their order: which kind a row is makes a match, since rows are
/// values.
pub fn run<B: Backend>(rt: &impl Abort, chip: &mut B, table: &[Access]) -> Result<(), Fail> {
    for row in table {
        match row.kind {
            Kind::Read => assert_eq!(rt; chip.read(row.offset), row.value),
            Kind::Write => chip.write(row.offset, row.value),
        }
    }
    Ok(())
}

/// A character without marks.
pub fn plain(byte: u8, gap: u8) -> TapeEntry {
    marked(byte, false, false, gap)
}

/// A character with a wrong parity bit, and one without a stop bit.
pub fn marked(byte: u8, parity: bool, framing: bool, gap: u8) -> TapeEntry {
    TapeEntry {
        character: Character {
            parity,
            framing,
            ..Character::unmarked(byte)
        },
        gap,
    }
}

/// No line is set.
pub fn quiet() -> ModemLines {
    ModemLines {
        clear_to_send: false,
        data_set_ready: false,
        ring_indicator: false,
        carrier_detect: false,
    }
}

/// FIFOs and a scratch register, at this pace.
pub fn options(pace: u16) -> BenchOptions {
    BenchOptions {
        fifos: true,
        scratch: true,
        pace,
        lines: quiet(),
    }
}

/// A bench on which this tape runs; its store has room for so many bytes.
pub fn bench(
    heap: Global,
    with: BenchOptions,
    tape: &[TapeEntry],
    room: usize,
) -> Result<Bench, Fail> {
    Ok(Bench::new(with, tape.to_vec(heap)?, vec![in heap; 0; room]?))
}
