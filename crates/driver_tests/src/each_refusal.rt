//! Refusals 8 to 17, with every access of the call that is refused.

use crate::play::*;
use registers::config::Config;
use registers::error::{
    BudgetError, ByteReceiveError, ByteSendError, InitError, LoopbackError,
    RemoteReadyToReceiveError, Wait,
};
use std::test::*;

/// Refusals of the set-up and of a byte that is moved. 1,843,200 Hz are 16 × 12 × 9600, so the
/// divisor is 0C; eight bits without parity are 03, and level 14 with both FIFOs emptied is C7.
const SET_UP_AND_BYTES: [Step; 9] = [
    Step {
        call: Call::Init(Config::DEFAULT, 5),
        reads: &[0x5A, 0x00],
        answer: Answer::Init(Err(InitError::DeviceNotPresent), 0),
        accesses: "r7=5A w7=42 r7=00 w7=5A",
        lsr_saved: 0,
        msr_saved: 0,
    },
    Step {
        call: Call::Init(Config::DEFAULT, 5),
        reads: &[0x5A, 0x42, 0x42],
        answer: Answer::Init(Err(InitError::DeviceNotPresent), 0),
        accesses: "r7=5A w7=42 r7=42 w7=73 r7=42 w7=5A",
        lsr_saved: 0,
        msr_saved: 0,
    },
    Step {
        call: Call::Init(Config::DEFAULT, 1),
        reads: &[0x5A, 0x42, 0x73, 0xC1, 0x61, 0x41, 0x60, 0x20, 0x20],
        answer: Answer::Init(
            Err(InitError::BudgetUsedUp(BudgetError {
                wait: Wait::Transmitter,
            })),
            2,
        ),
        accesses: "r7=5A w7=42 r7=42 w7=73 r7=73 w7=5A w3=00 w1=00 w3=80 w0=0C w1=00 w3=00 \
            w3=03 w2=C7 r2=C1 r5=61 r0=41 r5=60 w4=0B r5=20 r5=20",
        lsr_saved: 0,
        msr_saved: 0,
    },
    Step {
        call: Call::Look(Look::ReadyToReceive),
        reads: &[0x60],
        answer: Answer::Ready(Err(ByteReceiveError)),
        accesses: "r5=60",
        lsr_saved: 0,
        msr_saved: 0,
    },
    Step {
        call: Call::TryReceive,
        reads: &[0x60, 0x41],
        answer: Answer::Byte(Err(ByteReceiveError)),
        accesses: "r5=60",
        lsr_saved: 0,
        msr_saved: 0,
    },
    Step {
        call: Call::Look(Look::ReadyToSend),
        reads: &[0x41],
        answer: Answer::Sent(Err(ByteSendError::NoCapacity)),
        accesses: "r5=41",
        lsr_saved: 0,
        msr_saved: 0,
    },
    Step {
        call: Call::TrySend(0x55),
        reads: &[0x00],
        answer: Answer::Sent(Err(ByteSendError::NoCapacity)),
        accesses: "r5=00",
        lsr_saved: 0,
        msr_saved: 0,
    },
    Step {
        call: Call::ReceiveExact(1),
        reads: &[0x60, 0x61, 0x41, 0x60],
        answer: Answer::Exact(
            Err(BudgetError {
                wait: Wait::Receive,
            }),
            2,
            1,
        ),
        accesses: "r5=60 r5=61 r0=41 r5=60",
        lsr_saved: 0,
        msr_saved: 0,
    },
    Step {
        call: Call::SendExact(1),
        reads: &[0x01, 0x41],
        answer: Answer::Exact(Err(BudgetError { wait: Wait::Send }), 2, 0),
        accesses: "r5=01 r5=41",
        lsr_saved: 0,
        msr_saved: 0,
    },
];

/// Refusals of the loopback test. It finds 0B in the modem control and 05 in the interrupt enable
/// register, and puts both back; the 03 between is 0B without bit 3.
const LOOPBACK: [Step; 5] = [
    Step {
        call: Call::Loopback(0),
        reads: &[0x0B, 0x05, 0x20],
        answer: Answer::Loopback(
            Err(LoopbackError::BudgetUsedUp(BudgetError {
                wait: Wait::Transmitter,
            })),
            1,
        ),
        accesses: "r4=0B r1=05 r5=20",
        lsr_saved: 0,
        msr_saved: 0,
    },
    Step {
        call: Call::Loopback(0),
        reads: &[0x0B, 0x05, 0x60, 0xB0, 0xC1, 0x61, 0x99, 0xB0],
        answer: Answer::Loopback(
            Err(LoopbackError::BudgetUsedUp(BudgetError { wait: Wait::Drain })),
            1,
        ),
        accesses: "r4=0B r1=05 r5=60 r6=B0 w1=00 w4=10 w2=C7 r2=C1 r5=61 r0=99 w4=03 r6=B0 \
            w4=0B w1=05",
        lsr_saved: 0,
        msr_saved: 0,
    },
    Step {
        call: Call::Loopback(0),
        reads: &[0x0B, 0x05, 0x60, 0xB0, 0xC1, 0x60, 0x40, 0xB0],
        answer: Answer::Loopback(Err(LoopbackError::SendError(ByteSendError::NoCapacity)), 0),
        accesses: "r4=0B r1=05 r5=60 r6=B0 w1=00 w4=10 w2=C7 r2=C1 r5=60 r5=40 w4=03 r6=B0 \
            w4=0B w1=05",
        lsr_saved: 0,
        msr_saved: 0,
    },
    Step {
        call: Call::Loopback(0),
        reads: &[0x0B, 0x05, 0x60, 0xB0, 0xC1, 0x60, 0x60, 0x61, 0x43, 0xB0],
        answer: Answer::Loopback(
            Err(LoopbackError::UnexpectedLoopbackByte { actual: 0x43 }),
            0,
        ),
        accesses: "r4=0B r1=05 r5=60 r6=B0 w1=00 w4=10 w2=C7 r2=C1 r5=60 r5=60 w0=42 r5=61 \
            r0=43 w4=03 r6=B0 w4=0B w1=05",
        lsr_saved: 0,
        msr_saved: 0,
    },
    // the last byte of `hello world!1337` comes back as a 6
    Step {
        call: Call::Loopback(0),
        reads: b"\x0B\x05\x60\xB0\xC1\x60\x60\x61\x42\x60\x61h\x61e\x61l\x61l\x61o\x61 \x61w\
            \x61o\x61r\x61l\x61d\x61!\x611\x613\x613\x616\xB0",
        answer: Answer::Loopback(Err(LoopbackError::UnexpectedLoopbackMsg), 0),
        accesses: "r4=0B r1=05 r5=60 r6=B0 w1=00 w4=10 w2=C7 r2=C1 r5=60 r5=60 w0=42 r5=61 \
            r0=42 r5=60 w0=68 w0=65 w0=6C w0=6C w0=6F w0=20 w0=77 w0=6F w0=72 w0=6C w0=64 w0=21 \
            w0=31 w0=33 w0=33 w0=37 r5=61 r0=68 r5=61 r0=65 r5=61 r0=6C r5=61 r0=6C r5=61 r0=6F \
            r5=61 r0=20 r5=61 r0=77 r5=61 r0=6F r5=61 r0=72 r5=61 r0=6C r5=61 r0=64 r5=61 r0=21 \
            r5=61 r0=31 r5=61 r0=33 r5=61 r0=33 r5=61 r0=36 w4=03 r6=B0 w4=0B w1=05",
        lsr_saved: 0,
        msr_saved: 0,
    },
];

/// Refusals for the remote's lines, and the same calls where the lines are right.
const REMOTE: [Step; 10] = [
    Step {
        call: Call::Init(CHECKED, 0),
        reads: &[0x00, 0x42, 0x73, 0xC1, 0x60, 0x60, 0x60, 0xC1, 0xB0],
        answer: Answer::Init(Ok(()), 0),
        accesses: "r7=00 w7=42 r7=42 w7=73 r7=73 w7=00 w3=00 w1=00 w3=80 w0=0C w1=00 w3=00 \
            w3=03 w2=C7 r2=C1 r5=60 w4=0B r5=60 r5=60 r2=C1 r6=B0 w1=00",
        lsr_saved: 0,
        msr_saved: 0,
    },
    Step {
        call: Call::Look(Look::ReadyToSend),
        reads: &[0x60, 0x0B, 0xE0],
        answer: Answer::Sent(Err(ByteSendError::RemoteNotClearToSend)),
        accesses: "r5=60 r4=0B r6=E0",
        lsr_saved: 0,
        msr_saved: 0,
    },
    // 11 is given for 12 too
    Step {
        call: Call::TrySend(0x55),
        reads: &[0x60, 0x0B, 0xE0],
        answer: Answer::Sent(Err(ByteSendError::NoCapacity)),
        accesses: "r5=60 r4=0B r6=E0",
        lsr_saved: 0,
        msr_saved: 0,
    },
    Step {
        call: Call::TrySend(0x55),
        reads: &[0x60, 0x0B, 0x10],
        answer: Answer::Sent(Ok(())),
        accesses: "r5=60 r4=0B r6=10 w0=55",
        lsr_saved: 0,
        msr_saved: 0,
    },
    // in loop mode the line does not count
    Step {
        call: Call::TrySend(0x55),
        reads: &[0x60, 0x10],
        answer: Answer::Sent(Ok(())),
        accesses: "r5=60 r4=10 w0=55",
        lsr_saved: 0,
        msr_saved: 0,
    },
    Step {
        call: Call::SendExact(1),
        reads: &[0x60, 0x0B, 0xE0, 0x60, 0x0B, 0xE0],
        answer: Answer::Exact(Err(BudgetError { wait: Wait::Send }), 2, 0),
        accesses: "r5=60 r4=0B r6=E0 r5=60 r4=0B r6=E0",
        lsr_saved: 0,
        msr_saved: 0,
    },
    Step {
        call: Call::Look(Look::CheckConnected),
        reads: &[0xD0],
        answer: Answer::Connected(Err(RemoteReadyToReceiveError::NoRemoteConnectedNoDSR)),
        accesses: "r6=D0",
        lsr_saved: 0,
        msr_saved: 0,
    },
    Step {
        call: Call::Look(Look::CheckConnected),
        reads: &[0xE0],
        answer: Answer::Connected(Err(RemoteReadyToReceiveError::RemoteNotClearToSend)),
        accesses: "r6=E0",
        lsr_saved: 0,
        msr_saved: 0,
    },
    Step {
        call: Call::Look(Look::CheckConnected),
        reads: &[0x30],
        answer: Answer::Connected(Ok(())),
        accesses: "r6=30",
        lsr_saved: 0,
        msr_saved: 0,
    },
    // a device that does not show loop mode, and no clear-to-send
    Step {
        call: Call::Loopback(0),
        reads: &[0x0B, 0x05, 0x60, 0xB0, 0xC1, 0x60, 0x60, 0x00, 0x00, 0xB0],
        answer: Answer::Loopback(Err(LoopbackError::SendError(ByteSendError::NoCapacity)), 0),
        accesses: "r4=0B r1=05 r5=60 r6=B0 w1=00 w4=10 w2=C7 r2=C1 r5=60 r5=60 r4=00 r6=00 \
            w4=03 r6=B0 w4=0B w1=05",
        lsr_saved: 0,
        msr_saved: 0,
    },
];

#[test]
fn set_up_and_bytes(rt: HostRuntime) -> Result<(), Fail> {
    play(&rt, rt.alloc(), &SET_UP_AND_BYTES)
}

#[test]
fn loopback(rt: HostRuntime) -> Result<(), Fail> {
    play(&rt, rt.alloc(), &LOOPBACK)
}

#[test]
fn remote(rt: HostRuntime) -> Result<(), Fail> {
    play(&rt, rt.alloc(), &REMOTE)
}
