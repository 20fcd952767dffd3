//! The chip, its tape, and the calls.

use backends::Character;
use bench::{Bench, BenchOptions, ModemLines, TapeEntry};
use ledger::{Call, Entry};
use std::alloc::{AllocError, Global};

/// The character of this number. The first comes on the first access after the 22 of `init`, those
/// up to the twentieth at once with it, and the last thirty accesses later. The third has a wrong
/// parity bit.
fn entry(byte: u8) -> TapeEntry {
    TapeEntry {
        character: Character {
            parity: byte == 3,
            ..Character::unmarked(byte)
        },
        gap: match byte {
            1 => 23,
            21 => 30,
            _ => 0,
        },
    }
}

/// A chip with FIFOs: of the first twenty characters sixteen find room.
pub fn chip(heap: Global) -> Result<Bench, AllocError> {
    let lines = ModemLines {
        clear_to_send: true,
        data_set_ready: true,
        ring_indicator: false,
        carrier_detect: true,
    };
    let options = BenchOptions {
        fifos: true,
        scratch: true,
        pace: 1,
        lines,
    };
    let tape = (1..=21).map(entry).collect(heap)?;
    Ok(Bench::new(options, tape, vec![in heap; 0; 16]?))
}

/// A call that was not made yet.
fn to_make(list: &mut Vec<Entry>, call: Call) -> Result<(), AllocError> {
    list.push(Entry { call, answer: None })?;
    Ok(())
}

/// Three looks at the line status, with a receive, a send and a receive between them.
pub fn calls(heap: Global) -> Result<Vec<Entry>, AllocError> {
    let mut list = Vec::new(heap);
    to_make(&mut list, Call::Lsr)?;
    to_make(&mut list, Call::Receive(vec![in heap; 0; 10]?))?;
    to_make(&mut list, Call::Lsr)?;
    to_make(&mut list, Call::Send(b"hi!".to_vec(heap)?))?;
    to_make(&mut list, Call::Receive(vec![in heap; 0; 4]?))?;
    to_make(&mut list, Call::Lsr)?;
    Ok(list)
}
