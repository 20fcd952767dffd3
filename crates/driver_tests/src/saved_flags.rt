//! The saved flags: line errors and changes of modem lines that a call saw while it looked for
//! something else.

use crate::play::*;
use registers::config::Config;
use registers::dump::ConfigRegisterDump;
use registers::error::{
    BudgetError, ByteReceiveError, ByteSendError, InitError, LoopbackError, Wait,
};
use std::test::*;

/// Line errors: 02 overrun, 04 parity, 08 framing, 10 break. Changes: 01 clear-to-send, 02
/// data-set-ready, 04 ring, 08 carrier. Every step adds to what is saved, until a getter tells it.
const KEPT_UNTIL_TOLD: [Step; 17] = [
    Step {
        call: Call::Receive,
        reads: &[0x63, 0x41, 0x64],
        answer: Answer::Count(1),
        accesses: "r5=63 r0=41 r5=64",
        lsr_saved: 0x06,
        msr_saved: 0x00,
    },
    Step {
        call: Call::Send,
        reads: &[0x68],
        answer: Answer::Count(3),
        accesses: "r5=68 w0=48 w0=69 w0=21",
        lsr_saved: 0x0E,
        msr_saved: 0x00,
    },
    // 80 and the bits for ready are no errors of one character
    Step {
        call: Call::TryReceive,
        reads: &[0xE1, 0x42],
        answer: Answer::Byte(Ok(0x42)),
        accesses: "r5=E1 r0=42",
        lsr_saved: 0x0E,
        msr_saved: 0x00,
    },
    Step {
        call: Call::Look(Look::ReadyToReceive),
        reads: &[0x70],
        answer: Answer::Ready(Err(ByteReceiveError)),
        accesses: "r5=70",
        lsr_saved: 0x1E,
        msr_saved: 0x00,
    },
    Step {
        call: Call::Look(Look::CheckConnected),
        reads: &[0x31],
        answer: Answer::Connected(Ok(())),
        accesses: "r6=31",
        lsr_saved: 0x1E,
        msr_saved: 0x01,
    },
    Step {
        call: Call::Look(Look::Dump),
        reads: &[0x03, 0x0C, 0x00, 0x05, 0xC1, 0x03, 0x0B, 0x60, 0xB4, 0x5A],
        answer: Answer::Dump(ConfigRegisterDump {
            ier: 0x05,
            isr: 0xC1,
            lcr: 0x03,
            mcr: 0x0B,
            lsr: 0x7E,
            msr: 0xB5,
            spr: 0x5A,
            dll: 0x0C,
            dlm: 0x00,
        }),
        accesses: "r3=03 w3=83 r0=0C r1=00 w3=03 r1=05 r2=C1 r3=03 r4=0B r5=60 r6=B4 r7=5A",
        lsr_saved: 0x1E,
        msr_saved: 0x05,
    },
    Step {
        call: Call::Look(Look::Dump),
        reads: &[0x83, 0x01, 0x02, 0x00, 0x01, 0x83, 0x00, 0x20, 0x00, 0xFF],
        answer: Answer::Dump(ConfigRegisterDump {
            ier: 0x00,
            isr: 0x01,
            lcr: 0x83,
            mcr: 0x00,
            lsr: 0x3E,
            msr: 0x05,
            spr: 0xFF,
            dll: 0x01,
            dlm: 0x02,
        }),
        accesses: "r3=83 w3=83 r0=01 r1=02 w3=83 r1=00 r2=01 r3=83 r4=00 r5=20 r6=00 r7=FF",
        lsr_saved: 0x1E,
        msr_saved: 0x05,
    },
    Step {
        call: Call::Look(Look::Lsr),
        reads: &[0x60],
        answer: Answer::Register(0x7E),
        accesses: "r5=60",
        lsr_saved: 0x00,
        msr_saved: 0x05,
    },
    Step {
        call: Call::Look(Look::Lsr),
        reads: &[0x60],
        answer: Answer::Register(0x60),
        accesses: "r5=60",
        lsr_saved: 0x00,
        msr_saved: 0x05,
    },
    // what the getter reads itself is told, and not kept
    Step {
        call: Call::Look(Look::Lsr),
        reads: &[0xFF],
        answer: Answer::Register(0xFF),
        accesses: "r5=FF",
        lsr_saved: 0x00,
        msr_saved: 0x05,
    },
    Step {
        call: Call::Look(Look::Msr),
        reads: &[0xB8],
        answer: Answer::Register(0xBD),
        accesses: "r6=B8",
        lsr_saved: 0x00,
        msr_saved: 0x00,
    },
    Step {
        call: Call::Look(Look::Msr),
        reads: &[0xB0],
        answer: Answer::Register(0xB0),
        accesses: "r6=B0",
        lsr_saved: 0x00,
        msr_saved: 0x00,
    },
    // a dump alone keeps what it reads
    Step {
        call: Call::Look(Look::Dump),
        reads: &[0x03, 0x0C, 0x00, 0x05, 0xC1, 0x03, 0x0B, 0x62, 0xB2, 0x5A],
        answer: Answer::Dump(ConfigRegisterDump {
            ier: 0x05,
            isr: 0xC1,
            lcr: 0x03,
            mcr: 0x0B,
            lsr: 0x62,
            msr: 0xB2,
            spr: 0x5A,
            dll: 0x0C,
            dlm: 0x00,
        }),
        accesses: "r3=03 w3=83 r0=0C r1=00 w3=03 r1=05 r2=C1 r3=03 r4=0B r5=62 r6=B2 r7=5A",
        lsr_saved: 0x02,
        msr_saved: 0x02,
    },
    Step {
        call: Call::ReceiveExact(1),
        reads: &[0x64, 0x61, 0x41, 0x69, 0x42, 0x61, 0x43],
        answer: Answer::Exact(Ok(()), 1, 3),
        accesses: "r5=64 r5=61 r0=41 r5=69 r0=42 r5=61 r0=43",
        lsr_saved: 0x0E,
        msr_saved: 0x02,
    },
    Step {
        call: Call::SendExact(0),
        reads: &[0x10],
        answer: Answer::Exact(Err(BudgetError { wait: Wait::Send }), 1, 0),
        accesses: "r5=10",
        lsr_saved: 0x1E,
        msr_saved: 0x02,
    },
    Step {
        call: Call::Look(Look::Msr),
        reads: &[0x00],
        answer: Answer::Register(0x02),
        accesses: "r6=00",
        lsr_saved: 0x1E,
        msr_saved: 0x00,
    },
    Step {
        call: Call::Look(Look::Lsr),
        reads: &[0x61],
        answer: Answer::Register(0x7F),
        accesses: "r5=61",
        lsr_saved: 0x00,
        msr_saved: 0x00,
    },
];

/// What `init` and the loopback test keep, and what they forget.
const SET_UP_AND_LOOPBACK: [Step; 7] = [
    // the 1E before the wait is forgotten, what the wait sees is not
    Step {
        call: Call::Init(Config::DEFAULT, 1),
        reads: &[0x00, 0x42, 0x73, 0xC1, 0x7E, 0x22, 0x28],
        answer: Answer::Init(
            Err(InitError::BudgetUsedUp(BudgetError {
                wait: Wait::Transmitter,
            })),
            2,
        ),
        accesses: "r7=00 w7=42 r7=42 w7=73 r7=73 w7=00 w3=00 w1=00 w3=80 w0=0C w1=00 w3=00 \
            w3=03 w2=C7 r2=C1 r5=7E w4=0B r5=22 r5=28",
        lsr_saved: 0x0A,
        msr_saved: 0x00,
    },
    Step {
        call: Call::Look(Look::CheckConnected),
        reads: &[0x34],
        answer: Answer::Connected(Ok(())),
        accesses: "r6=34",
        lsr_saved: 0x0A,
        msr_saved: 0x04,
    },
    Step {
        call: Call::Init(Config::DEFAULT, 0),
        reads: &[0x00, 0x00],
        answer: Answer::Init(Err(InitError::DeviceNotPresent), 0),
        accesses: "r7=00 w7=42 r7=00 w7=00",
        lsr_saved: 0x0A,
        msr_saved: 0x04,
    },
    // its wait saw the 04; what loop mode showed is forgotten. The carrier went off between the
    // two looks at the modem lines; the changes that the second shows are the test's own
    Step {
        call: Call::Loopback(1),
        reads: &[0x0B, 0x05, 0x24, 0x60, 0xB1, 0xC1, 0x70, 0x1E, 0x37],
        answer: Answer::Loopback(Err(LoopbackError::SendError(ByteSendError::NoCapacity)), 1),
        accesses: "r4=0B r1=05 r5=24 r5=60 r6=B1 w1=00 w4=10 w2=C7 r2=C1 r5=70 r5=1E w4=03 \
            r6=37 w4=0B w1=05",
        lsr_saved: 0x0E,
        msr_saved: 0x0D,
    },
    // an accepted one forgets all
    Step {
        call: Call::Init(CHECKED, 1),
        reads: &[0x00, 0x42, 0x73, 0xC1, 0x60, 0x22, 0x60, 0x7E, 0xC1, 0xBF],
        answer: Answer::Init(Ok(()), 1),
        accesses: "r7=00 w7=42 r7=42 w7=73 r7=73 w7=00 w3=00 w1=00 w3=80 w0=0C w1=00 w3=00 \
            w3=03 w2=C7 r2=C1 r5=60 w4=0B r5=22 r5=60 r5=7E r2=C1 r6=BF w1=00",
        lsr_saved: 0x00,
        msr_saved: 0x00,
    },
    // the question whether something may be sent saves of both
    Step {
        call: Call::Look(Look::ReadyToSend),
        reads: &[0x62, 0x0B, 0xEA],
        answer: Answer::Sent(Err(ByteSendError::RemoteNotClearToSend)),
        accesses: "r5=62 r4=0B r6=EA",
        lsr_saved: 0x02,
        msr_saved: 0x0A,
    },
    Step {
        call: Call::Send,
        reads: &[0x70, 0x0B, 0x15],
        answer: Answer::Count(3),
        accesses: "r5=70 r4=0B r6=15 w0=48 w0=69 w0=21",
        lsr_saved: 0x12,
        msr_saved: 0x0F,
    },
];

#[test]
fn kept_until_told(rt: HostRuntime) -> Result<(), Fail> {
    play(&rt, rt.alloc(), &KEPT_UNTIL_TOLD)
}

#[test]
fn set_up_and_loopback(rt: HostRuntime) -> Result<(), Fail> {
    play(&rt, rt.alloc(), &SET_UP_AND_LOOPBACK)
}
