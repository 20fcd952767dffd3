//! The text of a report.

use crate::play::Played;
use backends::{Access, Kind};
use driver::Waited;
use registers::error::{InitError, Wait};
use std::fmt;

/// A header, a line for each access, and why init was refused, if it was.
#[derive(Drop)]
pub struct Report<'a, 's>(pub &'a Played<'s>);

impl fmt::Display for Report<'_, '_> {
    fn fmt<W: fmt::Write>(&self, f: &mut fmt::Formatter<W>) -> fmt::Result {
        f.write_str("kind offset value\n")?;
        for access in self.0.uart.backend().log().recorded() {
            writeln!(f, "{}", Row(access))?;
        }
        let Waited { result, fruitless } = self.0.answer;
        match result {
            Ok(()) => Ok(()),
            Err(e) => writeln!(f, "refused: {}", Refusal(e, fruitless)),
        }
    }
}

/// One access: its kind, its register, and its byte in hexadecimal.
#[derive(Drop)]
struct Row<'a>(&'a Access);

// The letters of a kind belong to a text, and the backends print none.
impl fmt::Display for Row<'_> {
    fn fmt<W: fmt::Write>(&self, f: &mut fmt::Formatter<W>) -> fmt::Result {
        let kind = match self.0.kind {
            Kind::Read => 'r',
            Kind::Write => 'w',
        };
        write!(f, "{kind} {} {:02X}", self.0.offset, self.0.value)
    }
}

/// Why init was refused, after this many fruitless polls.
#[derive(Drop)]
struct Refusal(InitError, u32);

impl fmt::Display for Refusal {
    fn fmt<W: fmt::Write>(&self, f: &mut fmt::Formatter<W>) -> fmt::Result {
        match self.0 {
            InitError::DeviceNotPresent => f.write_str("8, device not present"),
            InitError::InvalidBaudRate(e) => write!(f, "no divisor, {e:?}"),
            InitError::BudgetUsedUp(e) => {
                let wait = Awaited(e.wait);
                let polls = self.1;
                write!(
                    f,
                    "9, budget used up waiting for {wait} after {polls} polls"
                )
            }
        }
    }
}

/// What was waited for.
#[derive(Drop)]
struct Awaited(Wait);

impl fmt::Display for Awaited {
    fn fmt<W: fmt::Write>(&self, f: &mut fmt::Formatter<W>) -> fmt::Result {
        f.write_str(match self.0 {
            Wait::Transmitter => "the transmitter",
            Wait::Drain => "the receiver to drain",
            Wait::TestByte => "the test byte",
            Wait::TestMessageSent => "the test message to be sent",
            Wait::TestMessageReceived => "the test message to be received",
            Wait::Receive => "a character",
            Wait::Send => "room to send",
        })
    }
}
