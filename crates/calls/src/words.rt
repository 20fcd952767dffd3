//! The words of a line.

use crate::fault::Fault;
use crate::hex::bytes_of;
use crate::values::{DataBits, Flag, Level, Octet, Optional, ParityName, Rate};
use registers::config::Config;
use std::alloc::Global;
use std::str::{FromStr, Split};

/// The words of a line that are not read yet.
#[derive(Drop)]
pub struct Words<'a> {
    heap: Global,
    rest: Split<'a, char>,
}

impl<'a> Words<'a> {
    /// The words of a line, parted by single spaces.
    pub fn new(heap: Global, line: &'a str) -> Words<'a> {
        Words {
            heap,
            rest: line.split(' '),
        }
    }

    /// The next word.
    pub fn word(&mut self) -> Result<&'a str, Fault> {
        self.rest.next().ok_or(Fault::Malformed)
    }

    /// Nothing is left but marks, which are for the comparison and not for the driver.
    pub fn end(&mut self) -> Result<(), Fault> {
        match self.rest.next() {
            None => Ok(()),
            Some(word) if word.starts_with('!') => Ok(()),
            Some(_) => Err(Fault::Malformed),
        }
    }

    /// No value.
    pub fn none(&mut self) -> Result<(), Fault> {
        Ok(())
    }

    // One reader for each number of values, since a type parameter stands for one type.

    /// The value of the next word.
    pub fn one<T: FromStr>(&mut self) -> Result<T, Fault>
    where
        Fault: From<T::Err>,
    {
        Ok(self.word()?.parse::<T>()?)
    }

    /// The values of the next two words.
    pub fn two<T: FromStr + Drop, U: FromStr>(&mut self) -> Result<(T, U), Fault>
    where
        Fault: From<T::Err> + From<U::Err>,
    {
        let first = self.one()?;
        Ok((first, self.one()?))
    }

    /// The values of the next three words.
    pub fn three<T: FromStr + Drop, U: FromStr + Drop, V: FromStr>(
        &mut self,
    ) -> Result<(T, U, V), Fault>
    where
        Fault: From<T::Err> + From<U::Err> + From<V::Err>,
    {
        let (first, second) = self.two()?;
        Ok((first, second, self.one()?))
    }

    /// Bytes in hexadecimal.
    pub fn bytes(&mut self) -> Result<Vec<u8>, Fault> {
        bytes_of(self.heap, self.word()?.as_bytes())
    }

    /// The nine words of a configuration.
    pub fn config(&mut self) -> Result<Config, Fault> {
        let (frequency, Rate(baud_rate), Optional(prescaler_division_factor)) = self.three()?;
        let (Optional(level), DataBits(data_bits), Flag(extra_stop_bits)) = self.three()?;
        let (ParityName(parity), Octet(interrupts), Flag(check_cts_before_sending)) = self.three()?;
        Ok(Config {
            interrupts,
            frequency,
            prescaler_division_factor,
            fifo_trigger_level: level.map(|Level(level)| level),
            baud_rate,
            data_bits,
            extra_stop_bits,
            parity,
            check_cts_before_sending,
        })
    }
}
