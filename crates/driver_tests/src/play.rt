//! Calls as rows of a table, on a scripted device whose accesses are recorded.

use backends::{Access, Kind, Recorder, Script};
use driver::{Transferred, Uart16550, Waited};
use registers::config::Config;
use registers::dump::ConfigRegisterDump;
use registers::error::{
    BudgetError, ByteReceiveError, ByteSendError, InitError, LoopbackError,
    RemoteReadyToReceiveError,
};
use std::alloc::Global;
use std::fmt;
use std::process::Abort;
use std::test::*;

/// A driver over a scripted device.
pub type Device<'a> = Uart16550<Recorder<Script<'a>>>;

/// A byte that no call writes into a buffer here.
pub const UNTOUCHED: u8 = 0xA5;

/// Sends ask for clear-to-send.
pub const CHECKED: Config = Config {
    check_cts_before_sending: true,
    ..Config::DEFAULT
};

/// What a `Send` sends.
const SHORT: [u8; 3] = *b"Hi!";

/// What a `SendExact` sends: four bytes more than a FIFO takes.
const LONG: [u8; 20] = *b"The quick brown fox.";

/// A call with its arguments. Receives have a buffer of three places.
#[derive(Clone, Copy)]
pub enum Call {
    Init(Config, u16),
    Loopback(u16),
    TryReceive,
    Receive,
    ReceiveExact(u16),
    TrySend(u8),
    Send,
    SendExact(u16),
    Look(Look),
}

/// A call that only looks at the device.
#[derive(Clone, Copy)]
pub enum Look {
    ReadyToReceive,
    ReadyToSend,
    CheckConnected,
    Lsr,
    Msr,
    Dump,
}

/// What a call answered. A second number is the fruitless polls, a third the bytes moved.
// With the driver's `Waited` and `Transferred` in it, an answer in a table would take more lines.
#[derive(Clone, Copy, Debug, PartialEq, Eq)]
pub enum Answer {
    Init(Result<(), InitError>, u32),
    Loopback(Result<(), LoopbackError>, u32),
    Ready(Result<(), ByteReceiveError>),
    Byte(Result<u8, ByteReceiveError>),
    Sent(Result<(), ByteSendError>),
    Connected(Result<(), RemoteReadyToReceiveError>),
    Exact(Result<(), BudgetError>, u32, usize),
    Count(usize),
    Register(u8),
    Dump(ConfigRegisterDump),
}

impl From<Waited<Result<(), InitError>>> for Answer {
    fn from(waited: Waited<Result<(), InitError>>) -> Answer {
        Answer::Init(waited.result, waited.fruitless)
    }
}

impl From<Waited<Result<(), LoopbackError>>> for Answer {
    fn from(waited: Waited<Result<(), LoopbackError>>) -> Answer {
        Answer::Loopback(waited.result, waited.fruitless)
    }
}

impl From<Transferred> for Answer {
    fn from(done: Transferred) -> Answer {
        Answer::Exact(done.result, done.fruitless, done.moved)
    }
}

/// A call, and what it must do.
#[derive(Clone, Copy)]
pub struct Step {
    /// The call.
    pub call: Call,
    /// What its reads give.
    pub reads: &'static [u8],
    /// Its answer.
    pub answer: Answer,
    /// Its accesses: `r5=60` is a read of the register at offset 5 that gave 60, `w0=42` a write.
    pub accesses: &'static str,
    /// The saved line status and modem status after it.
    pub lsr_saved: u8,
    pub msr_saved: u8,
}

/// A new driver over a device whose reads give these bytes.
pub fn over<'a>(reads: &'a [u8]) -> Device<'a> {
    Uart16550::new_with_backend(Recorder::new(Script::new(reads)))
}

/// Puts a new device under a driver, with nothing recorded.
pub fn replace<'a>(device: &mut Device<'a>, reads: &'a [u8]) {
    *device.backend_mut() = Recorder::new(Script::new(reads));
}

/// Accesses as in `Step`, with a blank before each.
// The letters of a kind belong to this text: the backends print none.
#[derive(Drop)]
struct Accesses<'a>(&'a [Access]);

impl fmt::Display for Accesses<'_> {
    fn fmt<W: fmt::Write>(&self, f: &mut fmt::Formatter<W>) -> fmt::Result {
        for access in self.0 {
            let way = match access.kind {
                Kind::Read => 'r',
                Kind::Write => 'w',
            };
            let offset = access.offset;
            let value = access.value;
            write!(f, " {way}{offset}={value:02X}")?;
        }
        Ok(())
    }
}

/// Makes a call.
// A match and no closures, here and in `answer_to`: a call is a value of a table.
pub fn perform(device: &mut Device<'_>, call: Call) -> Answer {
    match call {
        Call::Init(config, budget) => Answer::from(device.init(config, budget)),
        Call::Loopback(budget) => {
            Answer::from(device.test_loopback(&mut [UNTOUCHED; 16], budget))
        }
        Call::TryReceive => Answer::Byte(device.try_receive_byte()),
        Call::Receive => Answer::Count(device.receive_bytes(&mut [UNTOUCHED; 3])),
        Call::ReceiveExact(budget) => {
            Answer::from(device.receive_bytes_exact(&mut [UNTOUCHED; 3], budget))
        }
        Call::TrySend(byte) => Answer::Sent(device.try_send_byte(byte)),
        Call::Send => Answer::Count(device.send_bytes(&SHORT)),
        Call::SendExact(budget) => Answer::from(device.send_bytes_exact(&LONG, budget)),
        Call::Look(look) => answer_to(device, look),
    }
}

/// Makes a call that only looks.
fn answer_to(device: &mut Device<'_>, look: Look) -> Answer {
    match look {
        Look::ReadyToReceive => Answer::Ready(device.ready_to_receive()),
        Look::ReadyToSend => Answer::Sent(device.ready_to_send()),
        Look::CheckConnected => Answer::Connected(device.check_connected()),
        Look::Lsr => Answer::Register(device.lsr()),
        Look::Msr => Answer::Register(device.msr()),
        Look::Dump => Answer::Dump(device.config_register_dump()),
    }
}

/// Makes a call on a new device under the driver, and looks whether it does what it must.
fn make(
    rt: &impl Abort,
    heap: Global,
    device: &mut Device<'static>,
    step: &Step,
) -> Result<(), Fail> {
    replace(device, step.reads);
    assert_eq!(rt;
        perform(device, step.call),
        step.answer,
        "{}",
        step.accesses
    );
    let made = format!(in heap; "{}", Accesses(device.backend().log().recorded()))?;
    assert_eq!(rt; made.trim_start(), step.accesses);
    assert_eq!(rt;
        (device.lsr_saved(), device.msr_saved()),
        (step.lsr_saved, step.msr_saved),
        "{}",
        step.accesses
    );
    Ok(())
}

/// Makes these calls on one new driver, one after another.
pub fn play(rt: &impl Abort, heap: Global, steps: &[Step]) -> Result<(), Fail> {
    let mut device = over(&[]);
    for row in steps {
        make(rt, heap, &mut device, row)?;
    }
    Ok(())
}
