//! The loopback test for words of 5 to 8 bits.

ghost use Rattle.std.specs.Prelude.{◌<◌};

use crate::play::*;
use registers::config::Config;
use registers::error::{BudgetError, ByteSendError, LoopbackError, Wait};
use registers::lcr::WordLength;
use std::process::Abort;
use std::test::*;

/// What the test sends first.
const BYTE: u8 = 0x42;

/// What it sends then.
const MESSAGE: [u8; 16] = *b"hello world!1337";

/// A place that no message was put into.
const EMPTY: [u8; 16] = [UNTOUCHED; 16];

/// What the reads of an `init` give that succeeds.
const SET_UP: [u8; 9] = [0x00, 0x42, 0x73, 0xC1, 0x60, 0x60, 0x60, 0xC1, 0xB0];

/// The word lengths, and the bits of a byte that they carry.
const WORDS: [(WordLength, u8); 4] = [
    (WordLength::FiveBits, 0x1F),
    (WordLength::SixBits, 0x3F),
    (WordLength::SevenBits, 0x7F),
    (WordLength::EightBits, 0xFF),
];

const BITS: [u8; 8] = [0x01, 0x02, 0x04, 0x08, 0x10, 0x20, 0x40, 0x80];

/// What comes back in loop mode, and what the test must make of it.
#[derive(Clone, Copy)]
struct Run {
    length: WordLength,
    /// The bits of a byte that the word carries.
    mask: u8,
    fifos: bool,
    byte: u8,
    message: [u8; 16],
    result: Result<(), LoopbackError>,
    place: [u8; 16],
    count: u64,
}

/// What the reads of such a test give. With FIFOs the message is sent at once, without them byte by
/// byte, each after a look whether there is room. The last read is that of the modem status.
fn reads(run: &Run) -> [u8; 58] {
    let mut reads = [0xB0; 58];
    let isr = if run.fifos { 0xC1 } else { 0x01 };
    reads[..10].copy_from_slice(&[
        0x0B, 0x05, 0x60, 0xB0, isr, 0x60, 0x60, 0x61, run.byte, 0x60,
    ]);
    // without FIFOs three reads for each byte, with them two
    let each = if run.fifos { 2 } else { 3 };
    for (of_byte, byte) in reads[10..].chunks_exact_mut(each).zip(run.message) {
        of_byte.copy_from_slice(&[0x61, byte, 0x60][..each]);
    }
    reads[57] = 0xB0;
    reads
}

/// Makes a test without a budget, by a driver that was set up for words of this length.
fn test(rt: &impl Abort, run: &Run) -> Result<(), Fail> {
    let config = Config {
        data_bits: run.length,
        ..Config::DEFAULT
    };
    let reads = reads(run);
    let mut device = over(&SET_UP);
    let _ = device.init(config, 0);
    replace(&mut device, &reads);
    let mut place = EMPTY;
    let waited = device.test_loopback(&mut place, 0);
    let count = device.backend().log().count();
    assert_eq!(rt;
        (
            waited.result,
            waited.fruitless,
            place,
            device.fifo_enabled(),
            count,
        ),
        (run.result, 0, run.place, run.fifos, run.count)
    );
    Ok(())
}

/// A run in which what was sent comes back, with only the word's bits, and others set.
fn good(length: WordLength, mask: u8, fifos: bool, others: u8) -> Run {
    let back = |byte: u8| (byte & mask) | others;
    Run {
        length,
        mask,
        fifos,
        byte: back(BYTE),
        message: MESSAGE.map(back),
        result: Ok(()),
        place: EMPTY,
        count: if fifos { 66 } else { 81 },
    }
}

/// Whether the word carries this bit. Where it does not, a wrong one makes no difference.
fn carries(run: &Run, bit: u8) -> bool {
    bit & run.mask != 0
}

/// A run in which this bit of the test byte is wrong.
fn wrong_byte(mut run: Run, bit: u8) -> Run {
    run.byte ^= bit;
    if carries(&run, bit) {
        run.result = Err(LoopbackError::UnexpectedLoopbackByte { actual: run.byte });
        run.count = 17;
    }
    run
}

/// A run in which this bit of a byte of the message is wrong.
fn wrong_message(mut run: Run, at: usize, bit: u8) -> Run
    requires { at < 16 }
{
    run.message[at] ^= bit;
    if carries(&run, bit) {
        run.result = Err(LoopbackError::UnexpectedLoopbackMsg);
        run.place = run.message;
    }
    run
}

/// A good run, and all runs with one wrong bit.
fn with_all_wrong_bits(rt: &impl Abort, run: Run) -> Result<(), Fail> {
    test(rt, &run)?;
    for bit in BITS {
        test(rt, &wrong_byte(run, bit))?;
        // each place of the message is wrong in a run of its own
        for at in 0..16 {
            test(rt, &wrong_message(run, at, bit))?;
        }
    }
    Ok(())
}

#[test]
fn every_bit_of_every_word(rt: HostRuntime) -> Result<(), Fail> {
    for (length, mask) in WORDS {
        for fifos in [true, false] {
            with_all_wrong_bits(&rt, good(length, mask, fifos, 0x00))?;
            with_all_wrong_bits(&rt, good(length, mask, fifos, !mask))?;
        }
    }
    Ok(())
}

/// Tests that end otherwise: what the reads give, and the refusal.
const OTHER_ENDS: [(&[u8], LoopbackError); 4] = [
    (
        &[0x0B, 0x05, 0x20],
        LoopbackError::BudgetUsedUp(BudgetError {
            wait: Wait::Transmitter,
        }),
    ),
    (
        &[0x0B, 0x05, 0x60, 0xB0, 0xC1, 0x61, 0x99],
        LoopbackError::BudgetUsedUp(BudgetError { wait: Wait::Drain }),
    ),
    (
        &[0x0B, 0x05, 0x60, 0xB0, 0xC1, 0x60, 0x00],
        LoopbackError::SendError(ByteSendError::NoCapacity),
    ),
    // two bytes of the message came back
    (
        b"\x0B\x05\x60\xB0\xC1\x60\x60\x61\x42\x60\x61h\x61e\x60",
        LoopbackError::BudgetUsedUp(BudgetError {
            wait: Wait::TestMessageReceived,
        }),
    ),
];

#[test]
fn other_ends_leave_the_place(rt: HostRuntime) -> Result<(), Fail> {
    for (reads, error) in OTHER_ENDS {
        let mut device = over(reads);
        let mut place = EMPTY;
        let waited = device.test_loopback(&mut place, 0);
        assert_eq!(rt; (waited.result, place), (Err(error), EMPTY));
    }
    Ok(())
}
