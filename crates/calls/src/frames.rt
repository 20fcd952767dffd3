//! Questions about the frame of a character.

use crate::line::{Answered, Line};
use crate::show::Two;
use crate::values::{DataBits, Octet, ParityName};
use crate::words::Words;
use registers::lcr;
use registers::lcr::{Parity, WordLength};

/// Answers one of these questions.
pub fn answer(line: &mut Line<'_>) -> Answered {
    Some(match line.name {
        "word_from_raw" => line.ok(Words::one, |Octet(bits)| {
            WordLength::from_raw_bits(bits).to_integer()
        }),
        "word_to_raw" => line.ok(Words::one, |DataBits(length)| Octet(length.to_raw_bits())),
        "word_from_integer" => line.ok(Words::one, |number| {
            let length = WordLength::from_integer(number);
            Two(DataBits(length), length.to_integer())
        }),
        "parity_from_raw" => line.ok(Words::one, |Octet(bits)| {
            ParityName(Parity::from_raw_bits(bits))
        }),
        "parity_to_raw" => line.ok(Words::one, |ParityName(parity)| {
            Octet(parity.to_raw_bits())
        }),
        "lcr_fields" => line.ok(Words::one, |Octet(control)| {
            let length = lcr::word_length(control).to_integer();
            Two(length, ParityName(lcr::parity_of(control)))
        }),
        "lcr_set_word" => line.ok(Words::two, |(Octet(control), DataBits(length))| {
            Octet(lcr::set_word_length(control, length))
        }),
        "lcr_set_parity" => line.ok(Words::two, |(Octet(control), ParityName(parity))| {
            Octet(lcr::set_parity(control, parity))
        }),
        _ => return None,
    })
}
