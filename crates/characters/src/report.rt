//! What the calls reported, and what the chip holds.

use bench::Bench;
use ledger::{Answer, Call, Entry};
use std::fmt;

/// A line for each call, and then where the characters are.
#[derive(Drop)]
pub struct Report<'a> {
    pub list: &'a [Entry],
    pub chip: &'a Bench,
}

impl Report<'_> {
    /// How many characters the receives handed out.
    fn handed(&self) -> usize {
        self.list
            .iter()
            .filter_map(|entry| match (&entry.call, &entry.answer) {
                (Call::Receive(_), Some(Answer::Count(n))) => Some(*n),
                _ => None,
            })
            .fold(0, usize::saturating_add)
    }
}

impl fmt::Display for Report<'_> {
    fn fmt<W: fmt::Write>(&self, f: &mut fmt::Formatter<W>) -> fmt::Result {
        for entry in self.list {
            write!(f, "{}", Told(entry))?;
        }
        // Handed out, waiting and lost are together what arrived.
        let handed = self.handed();
        let waiting = self.chip.waiting();
        let lost = self.chip.counts().lost;
        let arrived = self.chip.arrived().len();
        writeln!(f, "handed out {handed}, waiting {waiting}, lost {lost}")?;
        writeln!(f, "arrived {arrived}")?;
        let left = self.chip.left();
        let held = self.chip.held();
        writeln!(f, "on the line {}, held {held}:{}", left.len(), Bytes(left))
    }
}

/// A line with what a call answered, for the calls that answer with characters or a status.
#[derive(Drop)]
struct Told<'a>(&'a Entry);

impl fmt::Display for Told<'_> {
    fn fmt<W: fmt::Write>(&self, f: &mut fmt::Formatter<W>) -> fmt::Result {
        match (&self.0.call, &self.0.answer) {
            (_, Some(Answer::Register(value))) => writeln!(f, "lsr: {value:02X}"),
            (Call::Receive(buffer), Some(Answer::Count(n))) => {
                writeln!(f, "received {n}:{}", Bytes(first(buffer, *n)))
            }
            (Call::Send(buffer), Some(Answer::Count(n))) => {
                writeln!(f, "sent {n}:{}", Bytes(first(buffer, *n)))
            }
            _ => Ok(()),
        }
    }
}

/// The first bytes of a buffer, as many as were moved.
fn first(buffer: &[u8], n: usize) -> &[u8] {
    &buffer[..n.min(buffer.len())]
}

/// Bytes in hexadecimal, each after a space.
#[derive(Drop)]
struct Bytes<'a>(&'a [u8]);

impl fmt::Display for Bytes<'_> {
    fn fmt<W: fmt::Write>(&self, f: &mut fmt::Formatter<W>) -> fmt::Result {
        for byte in self.0 {
            write!(f, " {byte:02X}")?;
        }
        Ok(())
    }
}
