//! Refusals in an answer: `no`, the number, and the values.

ghost use Rattle.registers.specs.Refusal.{Refusal, address_refusal, baud_refusal, budget_refusal, divisor_refusal, init_refusal, loopback_refusal, receive_refusal, remote_refusal, send_refusal};
ghost use Rattle.std.specs.Prelude.{◌≡◌};

use crate::values::{Octet, Optional};
use registers::error::{
    BudgetError, ByteReceiveError, ByteSendError, InitError, InvalidAddressError,
    InvalidBaudRateError, InvalidDivisorError, LoopbackError, RemoteReadyToReceiveError, Wait,
};
use std::fmt;

/// An error that a call refuses with.
// Its number is printed, as the form of an answer has it; nothing in the program goes by a number.
pub trait Refused {
    ghost refusal: { Self → Refusal };

    /// The number of the question that was answered no.
    fn number(&self) -> u8
        ensures { result ≡ (refusal self.now).number };

    /// Writes the values that go with the number, each after a space. There may be none.
    fn values<W: fmt::Write>(&self, _f: &mut fmt::Formatter<W>) -> fmt::Result {
        Ok(())
    }

    /// Writes the whole refusal.
    fn tell<W: fmt::Write>(&self, f: &mut fmt::Formatter<W>) -> fmt::Result {
        let number = self.number();
        write!(f, "no {number}")?;
        self.values(f)
    }
}

impl Refused for InvalidAddressError {
    ghost refusal = { address_refusal };

    fn number(&self) -> u8 {
        match self {
            InvalidAddressError::InvalidStride(_) => 1,
            InvalidAddressError::InvalidBaseAddress(_) => 2,
        }
    }

    fn values<W: fmt::Write>(&self, f: &mut fmt::Formatter<W>) -> fmt::Result {
        match self {
            InvalidAddressError::InvalidStride(stride) => write!(f, " {stride}"),
            InvalidAddressError::InvalidBaseAddress(base) => write!(f, " {base}"),
        }
    }
}

impl Refused for InvalidDivisorError {
    ghost refusal = { divisor_refusal };

    fn number(&self) -> u8 {
        match self {
            InvalidDivisorError::ZeroFrequency => 3,
            InvalidDivisorError::ZeroBaudRate => 4,
            InvalidDivisorError::InvalidPrescaler => 5,
            InvalidDivisorError::NonInteger(_) => 6,
            InvalidDivisorError::OutOfRange { .. } => 7,
        }
    }

    fn values<W: fmt::Write>(&self, f: &mut fmt::Formatter<W>) -> fmt::Result {
        match self {
            InvalidDivisorError::NonInteger(e) => {
                let prescaler = Optional(e.prescaler_division_factor);
                write!(f, " {} {} {prescaler}", e.frequency, e.baud_rate)
            }
            InvalidDivisorError::OutOfRange { divisor } => write!(f, " {divisor}"),
            _ => Ok(()),
        }
    }
}

impl Refused for InvalidBaudRateError {
    ghost refusal = { baud_refusal };

    fn number(&self) -> u8 {
        match self {
            InvalidBaudRateError::ZeroFrequency => 3,
            InvalidBaudRateError::ZeroDivisor => 18,
            InvalidBaudRateError::InvalidPrescaler => 5,
            InvalidBaudRateError::NonInteger(_) => 19,
        }
    }

    fn values<W: fmt::Write>(&self, f: &mut fmt::Formatter<W>) -> fmt::Result {
        match self {
            InvalidBaudRateError::NonInteger(e) => {
                let prescaler = Optional(e.prescaler_division_factor);
                write!(f, " {} {} {prescaler}", e.frequency, e.divisor)
            }
            _ => Ok(()),
        }
    }
}

impl Refused for BudgetError {
    ghost refusal = { budget_refusal };

    fn number(&self) -> u8 {
        9
    }

    fn values<W: fmt::Write>(&self, f: &mut fmt::Formatter<W>) -> fmt::Result {
        f.write_str(match self.wait {
            Wait::Transmitter => " transmitter",
            Wait::Drain => " drain",
            Wait::TestByte => " test-byte",
            Wait::TestMessageSent => " test-message-sent",
            Wait::TestMessageReceived => " test-message-received",
            Wait::Receive => " receive",
            Wait::Send => " send",
        })
    }
}

impl Refused for InitError {
    ghost refusal = { init_refusal };

    fn number(&self) -> u8 {
        match self {
            InitError::DeviceNotPresent => 8,
            InitError::InvalidBaudRate(e) => e.number(),
            InitError::BudgetUsedUp(e) => e.number(),
        }
    }

    fn values<W: fmt::Write>(&self, f: &mut fmt::Formatter<W>) -> fmt::Result {
        match self {
            InitError::DeviceNotPresent => Ok(()),
            InitError::InvalidBaudRate(e) => e.values(f),
            InitError::BudgetUsedUp(e) => e.values(f),
        }
    }
}

impl Refused for ByteReceiveError {
    ghost refusal = { receive_refusal };

    fn number(&self) -> u8 {
        10
    }
}

impl Refused for ByteSendError {
    ghost refusal = { send_refusal };

    fn number(&self) -> u8 {
        match self {
            ByteSendError::NoCapacity => 11,
            ByteSendError::RemoteNotClearToSend => 12,
        }
    }
}

impl Refused for RemoteReadyToReceiveError {
    ghost refusal = { remote_refusal };

    fn number(&self) -> u8 {
        match self {
            RemoteReadyToReceiveError::NoRemoteConnectedNoDSR => 13,
            RemoteReadyToReceiveError::RemoteNotClearToSend => 14,
        }
    }
}

impl Refused for LoopbackError {
    ghost refusal = { loopback_refusal };

    fn number(&self) -> u8 {
        match self {
            LoopbackError::SendError(_) => 15,
            LoopbackError::UnexpectedLoopbackByte { .. } => 16,
            LoopbackError::UnexpectedLoopbackMsg => 17,
            LoopbackError::BudgetUsedUp(e) => e.number(),
        }
    }

    fn values<W: fmt::Write>(&self, f: &mut fmt::Formatter<W>) -> fmt::Result {
        match self {
            LoopbackError::SendError(e) => {
                let inner = e.number();
                write!(f, " {inner}")
            }
            LoopbackError::UnexpectedLoopbackByte { actual } => write!(f, " {}", Octet(*actual)),
            LoopbackError::UnexpectedLoopbackMsg => Ok(()),
            LoopbackError::BudgetUsedUp(e) => e.values(f),
        }
    }
}
