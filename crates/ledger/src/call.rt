//! Calls as values.

use driver::Transferred;
use registers::dump::ConfigRegisterDump;
use registers::error::{ByteReceiveError, ByteSendError, RemoteReadyToReceiveError};

/// A call of the driver with its arguments and buffers.
#[derive(Drop)]
pub enum Call {
    TryReceive,
    Receive(Vec<u8>),
    ReceiveExact(Vec<u8>, u16),
    ReadyToReceive,
    TrySend(u8),
    Send(Vec<u8>),
    SendExact(Vec<u8>, u16),
    ReadyToSend,
    CheckConnected,
    CheckPresent,
    EnableInterrupts(u8),
    DisableInterrupts(u8),
    Ier,
    Isr,
    Lcr,
    Mcr,
    Lsr,
    Msr,
    Spr,
    DllDlm,
    Dump,
}

/// What a call answered.
#[derive(Clone, Copy)]
pub enum Answer {
    /// The call was made, and answers nothing.
    Done,
    Byte(Result<u8, ByteReceiveError>),
    ReadyToReceive(Result<(), ByteReceiveError>),
    Sent(Result<(), ByteSendError>),
    Connected(Result<(), RemoteReadyToReceiveError>),
    Present(bool),
    Count(usize),
    Exact(Transferred),
    Register(u8),
    Divisor(u8, u8),
    Dump(ConfigRegisterDump),
}

/// A call and its answer.
#[derive(Drop)]
pub struct Entry {
    /// The call; its buffer, if it has one, is looked at when the call has ended.
    pub call: Call,
    /// The answer, once the call was made.
    pub answer: Option<Answer>,
}
