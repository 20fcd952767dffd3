//! Buffers of all sizes, with FIFOs and without.

use crate::play::*;
use backends::{Access, Kind};
use registers::config::Config;
use registers::offsets;
use std::process::Abort;
use std::test::*;

/// The room of the largest buffer.
const ROOM: usize = 33;

/// What is sent.
const NUMBERED: [u8; ROOM] =
    *b"\x01\x02\x03\x04\x05\x06\x07\x08\x09\x0A\x0B\x0C\x0D\x0E\x0F\x10\x11\
    \x12\x13\x14\x15\x16\x17\x18\x19\x1A\x1B\x1C\x1D\x1E\x1F\x20\x21";

/// No trigger level: the FIFOs stay off.
const NO_LEVEL: Config = Config {
    fifo_trigger_level: None,
    ..Config::DEFAULT
};

/// How a driver is set up.
#[derive(Clone, Copy)]
struct SetUp {
    /// An `init` or none, and what its reads give.
    init: Option<Config>,
    reads: &'static [u8],
    /// Whether FIFOs are used then.
    fifos: bool,
}

/// Both bits 6 and 7 of the interrupt status show FIFOs.
const SET_UPS: [SetUp; 5] = [
    SetUp {
        init: None,
        reads: &[],
        fifos: true,
    },
    SetUp {
        init: Some(Config::DEFAULT),
        reads: &[0x00, 0x42, 0x73, 0xC1, 0x60, 0x60, 0x60, 0xC1, 0xB0],
        fifos: true,
    },
    SetUp {
        init: Some(Config::DEFAULT),
        reads: &[0x00, 0x42, 0x73, 0x01, 0x60, 0x60, 0x60, 0x01, 0xB0],
        fifos: false,
    },
    SetUp {
        init: Some(Config::DEFAULT),
        reads: &[0x00, 0x42, 0x73, 0x81, 0x60, 0x60, 0x60, 0x81, 0xB0],
        fifos: false,
    },
    SetUp {
        init: Some(NO_LEVEL),
        reads: &[0x00, 0x42, 0x73, 0x60, 0x60, 0x60, 0xC1, 0xB0],
        fifos: false,
    },
];

/// How many bytes are moved, and in how many accesses.
type Moved = (usize, u64);

/// How many bytes there are to send, and what is moved with FIFOs, and without.
// A row is one line of a table; as a struct with its fields' names it would be eleven. It is taken
// apart by names where it is used.
type ToSend = (usize, Moved, Moved);

const SENDS: [ToSend; 6] = [
    (0, (0, 0), (0, 0)),
    (1, (1, 2), (1, 2)),
    (15, (15, 16), (1, 2)),
    (16, (16, 17), (1, 2)),
    (17, (16, 17), (1, 2)),
    (33, (16, 17), (1, 2)),
];

/// The same for exact sends: a question before every sixteenth byte with FIFOs, and before every
/// byte without.
const EXACT_SENDS: [ToSend; 6] = [
    (0, (0, 0), (0, 0)),
    (1, (1, 2), (1, 2)),
    (15, (15, 16), (15, 30)),
    (16, (16, 17), (16, 32)),
    (17, (17, 19), (17, 34)),
    (33, (33, 36), (33, 66)),
];

/// How many places there are, how many characters wait, how many places are filled, and in how many
/// accesses: two for each, and one that finds none where places are left.
// One line a row, and taken apart by names, as to send.
type ToReceive = (usize, usize, usize, u64);

const RECEIVES: [ToReceive; 15] = [
    (0, 0, 0, 0),
    (0, 5, 0, 0),
    (1, 0, 0, 1),
    (1, 1, 1, 2),
    (1, 40, 1, 2),
    (15, 7, 7, 15),
    (15, 40, 15, 30),
    (16, 0, 0, 1),
    (16, 15, 15, 31),
    (16, 16, 16, 32),
    (17, 16, 16, 33),
    (17, 40, 17, 34),
    (33, 1, 1, 3),
    (33, 32, 32, 65),
    (33, 33, 33, 66),
];

/// A driver that was set up so.
fn set_up<'a>(how: &SetUp) -> Device<'a> {
    let mut device = over(how.reads);
    if let Some(config) = how.init {
        let _ = perform(&mut device, Call::Init(config, 0));
    }
    device
}

/// What the reads of a device give on which the characters from 1 to n wait, at most 40.
fn waiting(n: usize) -> [u8; 81] {
    let mut reads = [0x60; 81];
    for (pair, byte) in reads.chunks_exact_mut(2).zip(1..=40).take(n) {
        pair.copy_from_slice(&[0x61, byte]);
    }
    reads
}

/// What a buffer holds that got the characters from 1 to n.
fn held(n: usize) -> [u8; ROOM] {
    let mut places = [UNTOUCHED; ROOM];
    let n = n.min(ROOM);
    places[..n].copy_from_slice(&NUMBERED[..n]);
    places
}

/// Whether the line status and the data are read in turn.
fn in_turn(log: &[Access]) -> bool {
    log.iter().enumerate().all(|(i, access)| {
        let offset = if i % 2 == 0 {
            offsets::LSR
        } else {
            offsets::DATA
        };
        access.kind == Kind::Read && access.offset == offset
    })
}

/// Whether the line status is read before every byte, or with FIFOs before every sixteenth, and the
/// bytes from 1 on are written.
fn in_bursts(log: &[Access], fifos: bool) -> bool {
    let each = if fifos { 17 } else { 2 };
    let in_order = log.iter().enumerate().all(|(i, access)| {
        let must = if i % each == 0 {
            (Kind::Read, offsets::LSR)
        } else {
            (Kind::Write, offsets::DATA)
        };
        (access.kind, access.offset) == must
    });
    let written = log.iter().filter(|access| access.kind == Kind::Write);
    let mut numbered = written.zip(1..=u8::MAX);
    in_order && numbered.all(|(access, byte)| access.value == byte)
}

/// Sends so many bytes, of which so many must be taken.
fn sends(rt: &impl Abort, how: &SetUp, row: &ToSend) -> Result<(), Fail> {
    let (bytes, _, _) = *row;
    let mut device = set_up(how);
    replace(&mut device, &[0x60]);
    let count = device.send_bytes(&NUMBERED[0..bytes.min(ROOM)]);
    look_sent(rt, &device, how, count, row)
}

/// Sends so many bytes exactly, without a fruitless poll.
fn sends_all(rt: &impl Abort, how: &SetUp, row: &ToSend) -> Result<(), Fail> {
    let (bytes, _, _) = *row;
    let mut device = set_up(how);
    replace(&mut device, &[0x60; ROOM]);
    let done = device.send_bytes_exact(&NUMBERED[0..bytes.min(ROOM)], 0);
    assert!(rt; done.result.is_ok() && done.fruitless == 0);
    look_sent(rt, &device, how, done.moved, row)
}

/// Looks at a driver after a send.
fn look_sent(
    rt: &impl Abort,
    device: &Device<'_>,
    how: &SetUp,
    sent: usize,
    row: &ToSend,
) -> Result<(), Fail> {
    let (_, with_fifos, without) = *row;
    let must = if how.fifos { with_fifos } else { without };
    let log = device.backend().log();
    let right = in_bursts(log.recorded(), how.fifos) && device.fifo_enabled() == how.fifos;
    assert_eq!(rt; (right, (sent, log.count())), (true, must));
    Ok(())
}

/// Receives into so many places where so many characters wait; so many places must be filled.
fn receives(rt: &impl Abort, how: &SetUp, row: &ToReceive) -> Result<(), Fail> {
    let (places, n, _, _) = *row;
    let reads = waiting(n);
    let mut device = set_up(how);
    replace(&mut device, &reads);
    let mut buffer = [UNTOUCHED; ROOM];
    let count = device.receive_bytes(&mut buffer[0..places.min(ROOM)]);
    look_received(rt, &device, &buffer, count, row)
}

/// The same by an exact receive without a budget, which is refused where a place is left.
fn receives_all(rt: &impl Abort, how: &SetUp, row: &ToReceive) -> Result<(), Fail> {
    let (places, n, filled, _) = *row;
    let reads = waiting(n);
    let mut device = set_up(how);
    replace(&mut device, &reads);
    let mut buffer = [UNTOUCHED; ROOM];
    let done = device.receive_bytes_exact(&mut buffer[0..places.min(ROOM)], 0);
    let short = filled < places;
    assert_eq!(rt;
        (done.result.is_err(), done.fruitless),
        (short, u32::from(short))
    );
    look_received(rt, &device, &buffer, done.moved, row)
}

/// Looks at a driver and a buffer after a receive.
fn look_received(
    rt: &impl Abort,
    device: &Device<'_>,
    buffer: &[u8; ROOM],
    count: usize,
    row: &ToReceive,
) -> Result<(), Fail> {
    let (_, _, filled, accesses) = *row;
    let log = device.backend().log();
    assert_eq!(rt;
        (count, *buffer, log.count(), in_turn(log.recorded())),
        (filled, held(filled), accesses, true)
    );
    Ok(())
}

// Each test has its loops: the borrow checker does not cover a function that calls a closure with a
// set-up, which holds a reference.
#[test]
fn to_send(rt: HostRuntime) -> Result<(), Fail> {
    for how in &SET_UPS {
        for row in &SENDS {
            sends(&rt, how, row)?;
        }
    }
    Ok(())
}

#[test]
fn to_send_exactly(rt: HostRuntime) -> Result<(), Fail> {
    for how in &SET_UPS {
        for row in &EXACT_SENDS {
            sends_all(&rt, how, row)?;
        }
    }
    Ok(())
}

#[test]
fn to_receive(rt: HostRuntime) -> Result<(), Fail> {
    for how in &SET_UPS {
        for row in &RECEIVES {
            receives(&rt, how, row)?;
            receives_all(&rt, how, row)?;
        }
    }
    Ok(())
}
