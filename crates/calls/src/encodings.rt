//! Questions about the bits of registers.

use crate::line::{Answered, Line};
use crate::show::Two;
use crate::values::{Flag, Level, Octet};
use crate::words::Words;
use registers::fcr::FifoTriggerLevel;
use registers::isr::InterruptType;
use registers::{fcr, isr, lsr, psd};
use std::fmt;

/// Answers one of these questions.
pub fn answer(line: &mut Line<'_>) -> Answered {
    Some(match line.name {
        "interrupt" => line.ok(Words::one, |Octet(status)| {
            let pending = Flag(isr::has_pending_interrupt(status));
            let fifo = Flag(isr::fifo_enabled(status));
            Two(Interrupt(isr::interrupt_type(status)), Two(pending, fifo))
        }),
        "has_error" => line.ok(Words::one, |Octet(status)| Flag(lsr::has_error(status))),
        "level_from_raw" => line.ok(Words::one, |Octet(bits)| {
            Level(FifoTriggerLevel::from_raw_bits(bits))
        }),
        "level_to_raw" => line.ok(Words::one, |Level(level)| Octet(level.to_raw_bits())),
        "fcr_level" => line.ok(Words::one, |Octet(control)| {
            Level(fcr::fifo_trigger_level(control))
        }),
        "fcr_set_level" => line.ok(Words::two, |(Octet(control), Level(level))| {
            Octet(fcr::set_fifo_trigger_level(control, level))
        }),
        "pdf" => line.ok(Words::one, |Octet(division)| psd::pdf(division)),
        "set_pdf" => line.ok(Words::two, |(Octet(division), factor)| {
            Octet(psd::set_pdf(division, factor))
        }),
        _ => return None,
    })
}

/// The name and the priority of an interrupt, or `-` for both.
#[derive(Drop)]
struct Interrupt(Option<InterruptType>);

impl fmt::Display for Interrupt {
    fn fmt<W: fmt::Write>(&self, f: &mut fmt::Formatter<W>) -> fmt::Result {
        match self.0 {
            None => f.write_str("- -"),
            Some(kind) => write!(f, "{kind:?} {}", kind.priority()),
        }
    }
}
