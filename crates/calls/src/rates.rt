//! Questions about divisors, rates and frequencies.

use crate::line::{Answered, Line};
use crate::show::{Outcome, Two};
use crate::values::{Flag, Octet, Optional, Rate};
use crate::words::Words;
use registers::config::{BaudRate, Config};
use registers::divisor::{calc_baud_rate, calc_divisor, calc_frequency};
use registers::dump::ConfigRegisterDump;
use std::cmp::Ordering;
use std::fmt;

/// Answers one of these questions.
pub fn answer(line: &mut Line<'_>) -> Answered {
    Some(match line.name {
        "divisor" => line.answer(Words::three, |(frequency, rate, Optional(prescaler))| {
            Outcome(calc_divisor(frequency, rate, prescaler))
        }),
        "rate" => line.answer(Words::three, |(frequency, divisor, Optional(prescaler))| {
            Outcome(calc_baud_rate(frequency, divisor, prescaler))
        }),
        "frequency" => line.ok(Words::three, |(rate, divisor, Optional(prescaler))| {
            calc_frequency(rate, divisor, prescaler)
        }),
        "dump_divisor" => line.ok(Words::two, |(Octet(low), Octet(high))| {
            dump_of(low, high).divisor()
        }),
        "dump_rate" => line.answer(
            |words| Ok((words.two()?, words.two()?)),
            |((Octet(low), Octet(high)), (frequency, Optional(prescaler)))| {
                let config = Config {
                    frequency,
                    prescaler_division_factor: prescaler,
                    ..Config::DEFAULT
                };
                Outcome(dump_of(low, high).baud_rate(&config).map(Rate))
            },
        ),
        "baud_from_integer" => line.ok(Words::one, |number| Rate(BaudRate::from_integer(number))),
        "baud_to_integer" => line.ok(Words::one, |Rate(rate)| rate.to_integer()),
        "baud_order" => line.ok(Words::two, |(Rate(first), Rate(second))| {
            Two(Order(first.cmp(&second)), Flag(first == second))
        }),
        _ => return None,
    })
}

/// A dump that holds a divisor, and zeros.
fn dump_of(dll: u8, dlm: u8) -> ConfigRegisterDump {
    ConfigRegisterDump {
        ier: 0,
        isr: 0,
        lcr: 0,
        mcr: 0,
        lsr: 0,
        msr: 0,
        spr: 0,
        dll,
        dlm,
    }
}

/// The name of an order.
#[derive(Drop)]
struct Order(Ordering);

impl fmt::Display for Order {
    fn fmt<W: fmt::Write>(&self, f: &mut fmt::Formatter<W>) -> fmt::Result {
        f.write_str(match self.0 {
            Ordering::Less => "less",
            Ordering::Equal => "equal",
            Ordering::Greater => "greater",
        })
    }
}
