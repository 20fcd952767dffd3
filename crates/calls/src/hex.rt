//! Hexadecimal: two capital digits to a byte.

ghost use Rattle.std.specs.Prelude.{ℕ, IfOk, MatchOption};
ghost use Rattle.calls.specs.Hex.{Digit, Writes, Means};

use crate::fault::Fault;
use std::alloc::Global;

/// The value of a digit, where the character is one.
// Not the library's: that takes small letters too.
fn digit(character: u8) -> Option<u8>
    ensures { MatchOption result ((n : ℕ) → ¬ Digit character n) (Digit character) }
{
    match character {
        b'0'..=b'9' => Some(character - b'0'),
        b'A'..=b'F' => Some(character - b'A' + 10),
        _ => None,
    }
}

/// The byte that two digits write.
pub fn byte_of(high: u8, low: u8) -> Option<u8>
    ensures { MatchOption result ((b : ℕ) → ¬ Writes high low b) (Writes high low) }
{
    Some(digit(high)? * 16 + digit(low)?)
}

/// The bytes that a word writes: two digits each, or `-` for none.
pub fn bytes_of(heap: Global, word: &[u8]) -> Result<Vec<u8>, Fault>
    ensures { IfOk result (λ v. Means word.now v.items) }
{
    let mut bytes = Vec::new(heap);
    if word == b"-".as_slice() {
        return Ok(bytes);
    }
    let (pairs, rest) = word.as_chunks::<2>();
    if pairs.is_empty() || !rest.is_empty() {
        return Err(Fault::Malformed);
    }
    for [high, low] in pairs {
        bytes.push(byte_of(*high, *low).ok_or(Fault::Malformed)?)?;
    }
    Ok(bytes)
}
