//! Values as a word writes them: each is read from a word, and printed as one.

// Names stand in two matches and not in a list that is gone through both ways: a match on a value is
// seen to be complete.

use crate::fault::Fault;
use crate::hex::byte_of;
use registers::config::BaudRate;
use registers::fcr::FifoTriggerLevel;
use registers::lcr::{Parity, WordLength};
use std::fmt;
use std::str::FromStr;

/// A byte: two hexadecimal digits.
#[derive(Clone, Copy)]
pub struct Octet(pub u8);

impl FromStr for Octet {
    type Err = Fault;

    fn from_str(word: &str) -> Result<Octet, Fault> {
        let [high, low] = word.as_bytes() else {
            return Err(Fault::Malformed);
        };
        byte_of(*high, *low).map(Octet).ok_or(Fault::Malformed)
    }
}

impl fmt::Display for Octet {
    fn fmt<W: fmt::Write>(&self, f: &mut fmt::Formatter<W>) -> fmt::Result {
        write!(f, "{:02X}", self.0)
    }
}

/// A truth value: `0` or `1`.
#[derive(Clone, Copy)]
pub struct Flag(pub bool);

impl FromStr for Flag {
    type Err = Fault;

    fn from_str(word: &str) -> Result<Flag, Fault> {
        match word {
            "0" => Ok(Flag(false)),
            "1" => Ok(Flag(true)),
            _ => Err(Fault::Malformed),
        }
    }
}

impl fmt::Display for Flag {
    fn fmt<W: fmt::Write>(&self, f: &mut fmt::Formatter<W>) -> fmt::Result {
        write!(f, "{}", u8::from(self.0))
    }
}

/// A value, or `-` for none.
#[derive(Clone, Copy)]
pub struct Optional<T>(pub Option<T>);

impl<T: FromStr> FromStr for Optional<T> {
    type Err = T::Err;

    fn from_str(word: &str) -> Result<Optional<T>, T::Err> {
        match word {
            "-" => Ok(Optional(None)),
            _ => Ok(Optional(Some(word.parse::<T>()?))),
        }
    }
}

impl<T: fmt::Display> fmt::Display for Optional<T> {
    fn fmt<W: fmt::Write>(&self, f: &mut fmt::Formatter<W>) -> fmt::Result {
        match &self.0 {
            None => f.write_str("-"),
            Some(value) => write!(f, "{value}"),
        }
    }
}

/// A rate: its name, the number of a custom one.
#[derive(Clone, Copy)]
pub struct Rate(pub BaudRate);

impl FromStr for Rate {
    type Err = Fault;

    fn from_str(word: &str) -> Result<Rate, Fault> {
        match word.strip_prefix("Baud") {
            None => Ok(Rate(BaudRate::Custom(word.parse::<u32>()?))),
            Some(digits) => match BaudRate::from_integer(digits.parse::<u32>()?) {
                BaudRate::Custom(_) => Err(Fault::Malformed),
                named => Ok(Rate(named)),
            },
        }
    }
}

impl fmt::Display for Rate {
    fn fmt<W: fmt::Write>(&self, f: &mut fmt::Formatter<W>) -> fmt::Result {
        match self.0 {
            BaudRate::Custom(rate) => write!(f, "{rate}"),
            named => write!(f, "{named:?}"),
        }
    }
}

/// A trigger level: the number of its characters.
#[derive(Clone, Copy)]
pub struct Level(pub FifoTriggerLevel);

impl FromStr for Level {
    type Err = Fault;

    fn from_str(word: &str) -> Result<Level, Fault> {
        match word {
            "1" => Ok(Level(FifoTriggerLevel::One)),
            "4" => Ok(Level(FifoTriggerLevel::Four)),
            "8" => Ok(Level(FifoTriggerLevel::Eight)),
            "14" => Ok(Level(FifoTriggerLevel::Fourteen)),
            _ => Err(Fault::Malformed),
        }
    }
}

impl fmt::Display for Level {
    fn fmt<W: fmt::Write>(&self, f: &mut fmt::Formatter<W>) -> fmt::Result {
        f.write_str(match self.0 {
            FifoTriggerLevel::One => "1",
            FifoTriggerLevel::Four => "4",
            FifoTriggerLevel::Eight => "8",
            FifoTriggerLevel::Fourteen => "14",
        })
    }
}

/// A word length: the number of its data bits.
#[derive(Clone, Copy)]
pub struct DataBits(pub WordLength);

impl FromStr for DataBits {
    type Err = Fault;

    fn from_str(word: &str) -> Result<DataBits, Fault> {
        match word {
            "5" => Ok(DataBits(WordLength::FiveBits)),
            "6" => Ok(DataBits(WordLength::SixBits)),
            "7" => Ok(DataBits(WordLength::SevenBits)),
            "8" => Ok(DataBits(WordLength::EightBits)),
            _ => Err(Fault::Malformed),
        }
    }
}

impl fmt::Display for DataBits {
    fn fmt<W: fmt::Write>(&self, f: &mut fmt::Formatter<W>) -> fmt::Result {
        write!(f, "{}", self.0.to_integer())
    }
}

/// A parity: its name.
#[derive(Clone, Copy)]
pub struct ParityName(pub Parity);

impl FromStr for ParityName {
    type Err = Fault;

    fn from_str(word: &str) -> Result<ParityName, Fault> {
        match word {
            "disabled" => Ok(ParityName(Parity::Disabled)),
            "odd" => Ok(ParityName(Parity::Odd)),
            "even" => Ok(ParityName(Parity::Even)),
            "forced1" => Ok(ParityName(Parity::Forced1)),
            "forced0" => Ok(ParityName(Parity::Forced0)),
            _ => Err(Fault::Malformed),
        }
    }
}

impl fmt::Display for ParityName {
    fn fmt<W: fmt::Write>(&self, f: &mut fmt::Formatter<W>) -> fmt::Result {
        f.write_str(match self.0 {
            Parity::Disabled => "disabled",
            Parity::Odd => "odd",
            Parity::Even => "even",
            Parity::Forced1 => "forced1",
            Parity::Forced0 => "forced0",
        })
    }
}
