//! What a driver is set up with.

ghost use Rattle.std.specs.Prelude.{◌≡◌, ◌<◌, IsSomeAnd};
ghost use Rattle.registers.specs.Config.{rate, default, NamedRate};
ghost use Rattle.std.specs.Ordering.{MatchOrdering};

use crate::divisor::CLK_FREQUENCY_HZ;
use crate::fcr::FifoTriggerLevel;
use crate::lcr::{Parity, WordLength};
use std::cmp::Ordering;

/// A transmission rate in bits per second.
#[derive(Clone, Copy, Debug, PartialEq, Eq)]
pub enum BaudRate {
    Baud115200,
    Baud57600,
    Baud38400,
    Baud9600,
    Baud4800,
    Baud2400,
    Baud1200,
    Baud600,
    Baud300,
    Baud150,
    Baud110,
    Custom(u32),
}

impl BaudRate {
    /// The rate as a number.
    pub fn to_integer(self) -> u32
        ensures { result ≡ rate self }
    {
        match self {
            Self::Baud115200 => 115_200,
            Self::Baud57600 => 57_600,
            Self::Baud38400 => 38_400,
            Self::Baud9600 => 9_600,
            Self::Baud4800 => 4_800,
            Self::Baud2400 => 2_400,
            Self::Baud1200 => 1_200,
            Self::Baud600 => 600,
            Self::Baud300 => 300,
            Self::Baud150 => 150,
            Self::Baud110 => 110,
            Self::Custom(rate) => rate,
        }
    }

    /// The rate with this number: by its name where it has one, else `Custom`.
    pub fn from_integer(value: u32) -> Self
        ensures { NamedRate value result }
    {
        match value {
            115_200 => Self::Baud115200,
            57_600 => Self::Baud57600,
            38_400 => Self::Baud38400,
            9_600 => Self::Baud9600,
            4_800 => Self::Baud4800,
            2_400 => Self::Baud2400,
            1_200 => Self::Baud1200,
            600 => Self::Baud600,
            300 => Self::Baud300,
            150 => Self::Baud150,
            110 => Self::Baud110,
            rate => Self::Custom(rate),
        }
    }
}

impl From<BaudRate> for u32 {
    ghost from_gives = { λ b n. n ≡ rate b };

    /// The rate as a number.
    fn from(rate: BaudRate) -> u32 {
        rate.to_integer()
    }
}

impl From<u32> for BaudRate {
    ghost from_gives = { NamedRate };

    /// The rate with this number: by its name where it has one, else `Custom`.
    fn from(value: u32) -> Self {
        Self::from_integer(value)
    }
}

// Not as the traits `PartialOrd` and `Ord`: their laws ask that what compares as equal is equal, and
// `Custom(9_600)` and `Baud9600` are two values of the same number.
impl BaudRate {
    /// The order of rates by their numbers, which any two rates have.
    pub fn partial_cmp(&self, other: &Self) -> Option<Ordering>
        ensures { IsSomeAnd result (λ o. MatchOrdering o (rate self.now < rate other.now) (rate self.now ≡ rate other.now) (rate other.now < rate self.now)) }
    {
        Some(self.cmp(other))
    }

    /// The order of rates by their numbers.
    pub fn cmp(&self, other: &Self) -> Ordering
        ensures { MatchOrdering result (rate self.now < rate other.now) (rate self.now ≡ rate other.now) (rate other.now < rate self.now) }
    {
        self.to_integer().cmp(&other.to_integer())
    }
}

/// The set-up of a device and of its transmission.
#[derive(Clone, Copy, Debug, PartialEq, Eq)]
pub struct Config {
    /// The interrupts to enable, as bits of the interrupt enable register.
    pub interrupts: u8,
    /// The clock frequency in Hz.
    pub frequency: u32,
    /// The prescaler, on devices that have one.
    pub prescaler_division_factor: Option<u32>,
    /// The level of the receive FIFO; without one the FIFOs are off.
    pub fifo_trigger_level: Option<FifoTriggerLevel>,
    /// The transmission rate.
    pub baud_rate: BaudRate,
    /// The data bits of a character.
    pub data_bits: WordLength,
    /// Whether a second stop bit is sent.
    pub extra_stop_bits: bool,
    /// The parity bit.
    pub parity: Parity,
    /// Whether sends wait for the remote's clear-to-send line.
    pub check_cts_before_sending: bool,
}

impl Config {
    /// 9600 bits a second, 8 data bits, no parity, one stop bit, FIFOs on at level 14.
    pub const DEFAULT: Self = Self {
        interrupts: 0,
        frequency: CLK_FREQUENCY_HZ,
        prescaler_division_factor: None,
        fifo_trigger_level: Some(FifoTriggerLevel::Fourteen),
        baud_rate: BaudRate::Baud9600,
        data_bits: WordLength::EightBits,
        extra_stop_bits: false,
        parity: Parity::Disabled,
        check_cts_before_sending: false,
    };
}

impl Default for Config {
    ghost is_default = { λ c. c ≡ default };

    fn default() -> Self {
        Self::DEFAULT
    }
}
