//! Budgets of 0, 1 and 65,535 at every wait.

use crate::play::*;
use registers::config::Config;
use registers::error::{BudgetError, InitError, LoopbackError, Wait};
use std::alloc::Global;
use std::process::Abort;
use std::test::*;

/// A call that waits.
#[derive(Clone, Copy)]
enum Waiter {
    Init,
    Loopback,
    Receive,
    Send,
}

/// A wait of a call.
#[derive(Clone, Copy)]
struct Row {
    waiter: Waiter,
    wait: Wait,
    /// What the reads give before the wait, in a fruitless poll of it, and after it.
    before: &'static [u8],
    poll: &'static [u8],
    after: &'static [u8],
    /// The accesses besides fruitless polls, and the bytes moved, where the budget is enough.
    accesses: u64,
    moved: usize,
    /// The same where it is one too small.
    cut_accesses: u64,
    cut_moved: usize,
}

const BUDGETS: [u16; 3] = [0, 1, 65_535];

/// The waits. Where no poll is fruitless an `init` makes 22 accesses, and a loopback test 66, or 81
/// without FIFOs. In the reads `\x61h` is a line status that shows a character, and the character.
const WAITS: [Row; 10] = [
    // presence 6, line 7, FIFOs 2, none stale 1, modem lines 1; then the poll that ends it and 4
    Row {
        waiter: Waiter::Init,
        wait: Wait::Transmitter,
        before: &[0x00, 0x42, 0x73, 0xC1, 0x60],
        poll: &[0x20],
        after: &[0x60, 0x60, 0xC1, 0xB0],
        accesses: 22,
        moved: 0,
        cut_accesses: 17,
        cut_moved: 0,
    },
    // the two registers; nothing is restored
    Row {
        waiter: Waiter::Loopback,
        wait: Wait::Transmitter,
        before: &[0x0B, 0x05],
        poll: &[0x20],
        after: b"\x60\xB0\xC1\x60\x60\x61\x42\x60\x61h\x61e\x61l\x61l\x61o\x61 \x61w\x61o\x61r\
            \x61l\x61d\x61!\x611\x613\x613\x617\xB0",
        accesses: 66,
        moved: 0,
        cut_accesses: 2,
        cut_moved: 0,
    },
    // 2, the transmitter 1, into loop mode 3, FIFOs 2, restoring 4
    Row {
        waiter: Waiter::Loopback,
        wait: Wait::Drain,
        before: &[0x0B, 0x05, 0x60, 0xB0, 0xC1],
        poll: &[0x61, 0x99],
        after: b"\x60\x60\x61\x42\x60\x61h\x61e\x61l\x61l\x61o\x61 \x61w\x61o\x61r\x61l\x61d\
            \x61!\x611\x613\x613\x617\xB0",
        accesses: 66,
        moved: 0,
        cut_accesses: 12,
        cut_moved: 0,
    },
    // those 12, the drain 1, the question and the byte 2
    Row {
        waiter: Waiter::Loopback,
        wait: Wait::TestByte,
        before: &[0x0B, 0x05, 0x60, 0xB0, 0xC1, 0x60, 0x60],
        poll: &[0x60],
        after: b"\x61\x42\x60\x61h\x61e\x61l\x61l\x61o\x61 \x61w\x61o\x61r\x61l\x61d\x61!\x611\
            \x613\x613\x617\xB0",
        accesses: 66,
        moved: 0,
        cut_accesses: 15,
        cut_moved: 0,
    },
    // those 15, and the byte that came back 2
    Row {
        waiter: Waiter::Loopback,
        wait: Wait::TestMessageSent,
        before: &[0x0B, 0x05, 0x60, 0xB0, 0xC1, 0x60, 0x60, 0x61, 0x42],
        poll: &[0x00],
        after: b"\x60\x61h\x61e\x61l\x61l\x61o\x61 \x61w\x61o\x61r\x61l\x61d\x61!\x611\x613\
            \x613\x617\xB0",
        accesses: 66,
        moved: 0,
        cut_accesses: 17,
        cut_moved: 0,
    },
    // those 17, the question and 16 bytes, and 15 bytes that came back 30
    Row {
        waiter: Waiter::Loopback,
        wait: Wait::TestMessageReceived,
        before: b"\x0B\x05\x60\xB0\xC1\x60\x60\x61\x42\x60\x61h\x61e\x61l\x61l\x61o\x61 \x61w\
            \x61o\x61r\x61l\x61d\x61!\x611\x613\x613",
        poll: &[0x60],
        after: &[0x61, 0x37, 0xB0],
        accesses: 66,
        moved: 0,
        cut_accesses: 64,
        cut_moved: 0,
    },
    // without FIFOs, at the second byte: those 17, and 4 for the first
    Row {
        waiter: Waiter::Loopback,
        wait: Wait::TestMessageSent,
        before: b"\x0B\x05\x60\xB0\x01\x60\x60\x61\x42\x60\x61h",
        poll: &[0x40],
        after: b"\x60\x61e\x60\x61l\x60\x61l\x60\x61o\x60\x61 \x60\x61w\x60\x61o\x60\x61r\x60\
            \x61l\x60\x61d\x60\x61!\x60\x611\x60\x613\x60\x613\x60\x617\xB0",
        accesses: 81,
        moved: 0,
        cut_accesses: 21,
        cut_moved: 0,
    },
    // without FIFOs, at the last byte: those 17, 60 for the others, the question and the byte 2
    Row {
        waiter: Waiter::Loopback,
        wait: Wait::TestMessageReceived,
        before: b"\x0B\x05\x60\xB0\x01\x60\x60\x61\x42\x60\x61h\x60\x61e\x60\x61l\x60\x61l\x60\
            \x61o\x60\x61 \x60\x61w\x60\x61o\x60\x61r\x60\x61l\x60\x61d\x60\x61!\x60\x611\x60\
            \x613\x60\x613\x60",
        poll: &[0x60],
        after: &[0x61, 0x37, 0xB0],
        accesses: 81,
        moved: 0,
        cut_accesses: 79,
        cut_moved: 0,
    },
    // three places, and the wait is for the second character
    Row {
        waiter: Waiter::Receive,
        wait: Wait::Receive,
        before: &[0x61, 0x41],
        poll: &[0x60],
        after: &[0x61, 0x42, 0x61, 0x43],
        accesses: 6,
        moved: 3,
        cut_accesses: 2,
        cut_moved: 1,
    },
    // twenty bytes, and the wait is after the first sixteen
    Row {
        waiter: Waiter::Send,
        wait: Wait::Send,
        before: &[0x60],
        poll: &[0x40],
        after: &[0x60],
        accesses: 22,
        moved: 20,
        cut_accesses: 17,
        cut_moved: 16,
    },
];

// Which call waits is a value of a table, here and in `answer`.

/// The call with a budget.
fn call(waiter: Waiter, budget: u16) -> Call {
    match waiter {
        Waiter::Init => Call::Init(Config::DEFAULT, budget),
        Waiter::Loopback => Call::Loopback(budget),
        Waiter::Receive => Call::ReceiveExact(budget),
        Waiter::Send => Call::SendExact(budget),
    }
}

/// The answer of a call that ends so.
fn answer(waiter: Waiter, ended: Result<(), BudgetError>, fruitless: u32, moved: usize) -> Answer {
    match waiter {
        Waiter::Init => Answer::Init(ended.map_err(InitError::BudgetUsedUp), fruitless),
        Waiter::Loopback => Answer::Loopback(ended.map_err(LoopbackError::BudgetUsedUp), fruitless),
        Waiter::Receive | Waiter::Send => Answer::Exact(ended, fruitless, moved),
    }
}

/// What the reads give with so many fruitless polls, and these bytes after them.
fn reads(heap: Global, row: &Row, polls: u32, after: &[u8]) -> Result<Vec<u8>, Fail> {
    let mut bytes = row.before.to_vec(heap)?;
    bytes.extend_from_slice(&row.poll.repeat(heap, polls as usize)?)?;
    bytes.extend_from_slice(after)?;
    Ok(bytes)
}

/// Makes the call, and looks at its answer and at the number of its accesses.
fn make(rt: &impl Abort, reads: &[u8], call: Call, answer: Answer, count: u64) -> Result<(), Fail> {
    let mut device = over(reads);
    assert_eq!(rt; perform(&mut device, call), answer);
    assert_eq!(rt; device.backend().log().count(), count);
    Ok(())
}

/// As many fruitless polls as the budget, and one more.
fn at_its_edge(rt: &impl Abort, heap: Global, row: &Row, budget: u16) -> Result<(), Fail> {
    let call = call(row.waiter, budget);
    let polls = u32::from(budget);
    let each = row.poll.len() as u64;
    let spent = each.saturating_mul(u64::from(budget));
    make(
        rt,
        &reads(heap, row, polls, row.after)?,
        call,
        answer(row.waiter, Ok(()), polls, row.moved),
        spent.saturating_add(row.accesses),
    )?;
    let refused = Err(BudgetError { wait: row.wait });
    make(
        rt,
        &reads(heap, row, polls + 1, &[0xB0])?,
        call,
        answer(row.waiter, refused, polls + 1, row.cut_moved),
        spent.saturating_add(each).saturating_add(row.cut_accesses),
    )
}

#[test]
fn every_wait(rt: HostRuntime) -> Result<(), Fail> {
    for row in &WAITS {
        for budget in BUDGETS {
            at_its_edge(&rt, rt.alloc(), row, budget)?;
        }
    }
    Ok(())
}

/// One fruitless poll in each wait of a loopback test: with budget 3 the fourth is one too many,
/// with budget 4 the fifth.
const ONE_BUDGET: [Step; 2] = [
    Step {
        call: Call::Loopback(3),
        reads: b"\x0B\x05\x20\x60\xB0\xC1\x61\x99\x60\x60\x60\x61\x42\x00\xB0",
        answer: Answer::Loopback(
            Err(LoopbackError::BudgetUsedUp(BudgetError {
                wait: Wait::TestMessageSent,
            })),
            4,
        ),
        accesses: "r4=0B r1=05 r5=20 r5=60 r6=B0 w1=00 w4=10 w2=C7 r2=C1 r5=61 r0=99 r5=60 \
            r5=60 w0=42 r5=60 r5=61 r0=42 r5=00 w4=03 r6=B0 w4=0B w1=05",
        lsr_saved: 0,
        msr_saved: 0,
    },
    Step {
        call: Call::Loopback(4),
        reads: b"\x0B\x05\x20\x60\xB0\xC1\x61\x99\x60\x60\x60\x61\x42\x00\x60\x61h\x60\xB0",
        answer: Answer::Loopback(
            Err(LoopbackError::BudgetUsedUp(BudgetError {
                wait: Wait::TestMessageReceived,
            })),
            5,
        ),
        accesses: "r4=0B r1=05 r5=20 r5=60 r6=B0 w1=00 w4=10 w2=C7 r2=C1 r5=61 r0=99 r5=60 \
            r5=60 w0=42 r5=60 r5=61 r0=42 r5=00 r5=60 w0=68 w0=65 w0=6C w0=6C w0=6F w0=20 w0=77 \
            w0=6F w0=72 w0=6C w0=64 w0=21 w0=31 w0=33 w0=33 w0=37 r5=61 r0=68 r5=60 w4=03 r6=B0 \
            w4=0B w1=05",
        lsr_saved: 0,
        msr_saved: 0,
    },
];

#[test]
fn one_budget_for_all_waits(rt: HostRuntime) -> Result<(), Fail> {
    play(&rt, rt.alloc(), &ONE_BUDGET)
}
