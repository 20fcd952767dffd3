//! Refusals. Each case has a number and values, which `specs/Refusal.antt` gives.

ghost use Rattle.registers.specs.declared.error.InitError.TheVariants.{InvalidBaudRate, BudgetUsedUp};
ghost use Rattle.registers.specs.declared.error.LoopbackError.TheVariants.{SendError, BudgetUsedUp as UsedUp};
ghost use Rattle.std.specs.Prelude.{◌≡◌};

/// No divisor is an integer for these values.
#[derive(Clone, Copy, Debug, PartialEq, Eq)]
pub struct NonIntegerDivisorError {
    /// The clock frequency.
    pub frequency: u32,
    /// The wanted rate.
    pub baud_rate: u32,
    /// The prescaler, if there is one.
    pub prescaler_division_factor: Option<u32>,
}

/// Why a frequency and a rate have no divisor.
#[derive(Clone, Copy, Debug, PartialEq, Eq)]
pub enum InvalidDivisorError {
    /// The frequency is 0.
    ZeroFrequency,
    /// The rate is 0.
    ZeroBaudRate,
    /// The prescaler is above 15.
    InvalidPrescaler,
    /// The divisor would not be an integer.
    NonInteger(NonIntegerDivisorError),
    /// The divisor would not fit the 16-bit divisor latch.
    OutOfRange {
        /// The divisor that does not fit.
        divisor: u32,
    },
}

// The Rust has a type of its own for each direction of the formula.
/// No rate is an integer for these values.
#[derive(Clone, Copy, Debug, PartialEq, Eq)]
pub struct NonIntegerBaudRateError {
    /// The clock frequency.
    pub frequency: u32,
    /// The divisor.
    pub divisor: u32,
    /// The prescaler, if there is one.
    pub prescaler_division_factor: Option<u32>,
}

/// Why a frequency and a divisor have no rate.
#[derive(Clone, Copy, Debug, PartialEq, Eq)]
pub enum InvalidBaudRateError {
    /// The frequency is 0.
    ZeroFrequency,
    /// The divisor is 0.
    ZeroDivisor,
    /// The prescaler is above 15.
    InvalidPrescaler,
    /// The rate would not be an integer.
    NonInteger(NonIntegerBaudRateError),
}

/// What a call was waiting for.
#[derive(Clone, Copy, Debug, PartialEq, Eq)]
pub enum Wait {
    /// The transmitter becoming empty.
    Transmitter,
    /// The receiver becoming empty before the loopback test.
    Drain,
    /// The loopback test's byte coming back.
    TestByte,
    /// The loopback test's message being taken.
    TestMessageSent,
    /// The loopback test's message coming back.
    TestMessageReceived,
    /// A character to receive.
    Receive,
    /// Room to send.
    Send,
}

/// A call's budget of fruitless polls is used up.
#[derive(Clone, Copy, Debug, PartialEq, Eq)]
pub struct BudgetError {
    /// The wait that the last poll belonged to.
    pub wait: Wait,
}

/// Why a device was not initialised.
#[derive(Clone, Copy, Debug, PartialEq, Eq)]
pub enum InitError {
    /// The scratch register did not keep a pattern.
    DeviceNotPresent,
    /// The configured rate has no divisor.
    InvalidBaudRate(InvalidDivisorError),
    /// The budget was used up.
    BudgetUsedUp(BudgetError),
}

impl From<InvalidDivisorError> for InitError {
    ghost from_gives = { λ e r. r ≡ InvalidBaudRate e };

    fn from(e: InvalidDivisorError) -> InitError {
        InitError::InvalidBaudRate(e)
    }
}

impl From<BudgetError> for InitError {
    ghost from_gives = { λ e r. r ≡ BudgetUsedUp e };

    fn from(e: BudgetError) -> InitError {
        InitError::BudgetUsedUp(e)
    }
}

/// Why registers cannot stand at an address.
#[derive(Clone, Copy, Debug, PartialEq, Eq)]
pub enum InvalidAddressError {
    /// The last register would lie past the end of the address space.
    InvalidBaseAddress(u64),
    /// The distance between registers is not a power of two.
    InvalidStride(u8),
}

/// No character waits.
#[derive(Clone, Copy, Debug, PartialEq, Eq)]
pub struct ByteReceiveError;

/// Why nothing can be sent.
#[derive(Clone, Copy, Debug, PartialEq, Eq)]
pub enum ByteSendError {
    /// The transmitter holds characters.
    NoCapacity,
    /// The remote does not show clear-to-send.
    RemoteNotClearToSend,
}

/// Why the remote is not ready to receive.
#[derive(Clone, Copy, Debug, PartialEq, Eq)]
pub enum RemoteReadyToReceiveError {
    /// The remote does not show data-set-ready.
    NoRemoteConnectedNoDSR,
    /// The remote does not show clear-to-send.
    RemoteNotClearToSend,
}

/// Why the loopback test failed.
#[derive(Clone, Copy, Debug, PartialEq, Eq)]
pub enum LoopbackError {
    /// The test byte was not taken.
    SendError(ByteSendError),
    /// Another byte came back.
    UnexpectedLoopbackByte {
        /// The byte that was read.
        actual: u8,
    },
    /// Another message came back: the caller's place holds it.
    UnexpectedLoopbackMsg,
    /// The budget was used up.
    BudgetUsedUp(BudgetError),
}

impl From<ByteSendError> for LoopbackError {
    ghost from_gives = { λ e r. r ≡ SendError e };

    fn from(e: ByteSendError) -> LoopbackError {
        LoopbackError::SendError(e)
    }
}

impl From<BudgetError> for LoopbackError {
    ghost from_gives = { λ e r. r ≡ UsedUp e };

    fn from(e: BudgetError) -> LoopbackError {
        LoopbackError::BudgetUsedUp(e)
    }
}
