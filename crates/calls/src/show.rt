//! How answers are written.

use crate::refusals::Refused;
use crate::values::{DataBits, Flag, Level, Octet, Optional, ParityName, Rate};
use backends::{Access, Kind};
use driver::{Transferred, Waited};
use registers::config::Config;
use std::fmt;

/// Two values in a row.
#[derive(Drop)]
pub struct Two<T, U>(pub T, pub U);

impl<T: fmt::Display, U: fmt::Display> fmt::Display for Two<T, U> {
    fn fmt<W: fmt::Write>(&self, f: &mut fmt::Formatter<W>) -> fmt::Result {
        write!(f, "{} {}", self.0, self.1)
    }
}

/// Bytes: two digits each, `-` for none.
#[derive(Drop)]
pub struct Hex<'a>(pub &'a [u8]);

impl fmt::Display for Hex<'_> {
    fn fmt<W: fmt::Write>(&self, f: &mut fmt::Formatter<W>) -> fmt::Result {
        if self.0.is_empty() {
            return f.write_str("-");
        }
        for byte in self.0 {
            write!(f, "{byte:02X}")?;
        }
        Ok(())
    }
}

/// A configuration: the nine words that `init` takes.
#[derive(Drop)]
pub struct Setup<'a>(pub &'a Config);

impl fmt::Display for Setup<'_> {
    fn fmt<W: fmt::Write>(&self, f: &mut fmt::Formatter<W>) -> fmt::Result {
        let config = self.0;
        let frequency = config.frequency;
        let rate = Rate(config.baud_rate);
        let prescaler = Optional(config.prescaler_division_factor);
        let level = Optional(config.fifo_trigger_level.map(Level));
        write!(f, "{frequency} {rate} {prescaler} {level} ")?;
        let bits = DataBits(config.data_bits);
        let stop = Flag(config.extra_stop_bits);
        let parity = ParityName(config.parity);
        let interrupts = Octet(config.interrupts);
        let cts = Flag(config.check_cts_before_sending);
        write!(f, "{bits} {stop} {parity} {interrupts} {cts}")
    }
}

/// Accesses in their order, `-` for none.
// The letters of a kind belong to this text: the backends print none.
#[derive(Drop)]
pub struct Accesses<'a>(pub &'a [Access]);

impl fmt::Display for Accesses<'_> {
    fn fmt<W: fmt::Write>(&self, f: &mut fmt::Formatter<W>) -> fmt::Result {
        if self.0.is_empty() {
            return f.write_str(" -");
        }
        for access in self.0 {
            let kind = match access.kind {
                Kind::Read => 'r',
                Kind::Write => 'w',
            };
            let offset = access.offset;
            let value = access.value;
            write!(f, " {kind}{offset}={value:02X}")?;
        }
        Ok(())
    }
}

/// An answer with a value.
#[derive(Drop)]
pub struct Value<V>(pub V);

impl<V: fmt::Display> fmt::Display for Value<V> {
    fn fmt<W: fmt::Write>(&self, f: &mut fmt::Formatter<W>) -> fmt::Result {
        write!(f, "ok {}", self.0)
    }
}

/// A value, or why it was refused.
#[derive(Drop)]
pub struct Outcome<V, E>(pub Result<V, E>);

impl<V: fmt::Display, E: Refused> fmt::Display for Outcome<V, E> {
    fn fmt<W: fmt::Write>(&self, f: &mut fmt::Formatter<W>) -> fmt::Result {
        match &self.0 {
            Ok(value) => write!(f, "ok {value}"),
            Err(e) => e.tell(f),
        }
    }
}

/// What was done, or why it was refused. Unlike an outcome, its `ok` has no value behind it.
#[derive(Drop)]
pub struct Done<E>(pub Result<(), E>);

impl<E: Refused> fmt::Display for Done<E> {
    fn fmt<W: fmt::Write>(&self, f: &mut fmt::Formatter<W>) -> fmt::Result {
        match &self.0 {
            Ok(()) => f.write_str("ok"),
            Err(e) => e.tell(f),
        }
    }
}

/// How a call with a budget ended, and what it spent.
#[derive(Drop)]
pub struct Spent<E>(pub Waited<Result<(), E>>);

impl<E: Refused + Copy> fmt::Display for Spent<E> {
    fn fmt<W: fmt::Write>(&self, f: &mut fmt::Formatter<W>) -> fmt::Result {
        write!(f, "{} fruitless {}", Done(self.0.result), self.0.fruitless)
    }
}

/// How an exact transfer ended, and what it moved and spent.
#[derive(Drop)]
pub struct Moved(pub Transferred);

impl fmt::Display for Moved {
    fn fmt<W: fmt::Write>(&self, f: &mut fmt::Formatter<W>) -> fmt::Result {
        let moved = self.0.moved;
        let fruitless = self.0.fruitless;
        write!(
            f,
            "{} moved {moved} fruitless {fruitless}",
            Done(self.0.result)
        )
    }
}
