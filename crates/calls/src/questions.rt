//! Questions that need no device: each line is one question.

use crate::line::{Answered, Line};
use crate::{encodings, frames, places, rates, tables};

/// Answers the question of the line.
pub fn answer(line: &mut Line<'_>) -> Answered {
    rates::answer(line)
        .or_else(|| encodings::answer(line))
        .or_else(|| frames::answer(line))
        .or_else(|| places::answer(line))
        .or_else(|| tables::answer(line))
}
