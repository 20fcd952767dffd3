//! What every chip is given: one message, as bytes to send or as a tape that arrives.

ghost use Rattle.std.specs.Prelude.{◌≡◌, ℕ, ◌<◌, IfOk, vec_len, slice_index, slice_index_or};
ghost use Rattle.bench.specs.declared.tape.TapeEntry.{TapeEntry as Entry};
ghost use Rattle.throughput.specs.Message.{byte_of, gap_of, entry_of};

use backends::Character;
use bench::TapeEntry;
use std::alloc::{AllocError, Global};

/// How long the message is. A chip's tape and its store have room for it.
pub const LENGTH: u16 = 50_000;

/// When the characters of a tape arrive.
#[derive(Clone, Copy)]
pub enum Arrival {
    /// One on every second access: as fast as a receiver that asks and takes.
    Steady,
    /// Sixteen at once, and the next sixteen when those are taken.
    Bursts,
}

/// The byte at this place of the message. 251 is a prime, so no place in a queue of 16 always has
/// the same byte.
fn byte_at(place: u16) -> u8
    ensures { result ≡ byte_of place }
{
    (place % 251) as u8
}

/// The gap before this place: the first character comes on the first access after the 22 of `init`.
/// A character takes two accesses, the line status and the data, so sixteen take 32.
fn gap_at(arrival: Arrival, place: u16) -> u8
    ensures { result ≡ gap_of arrival place }
{
    if place == 0 {
        return 23;
    }
    match arrival {
        Arrival::Steady => 2,
        Arrival::Bursts => { if place % 16 == 0 { 32 } else { 0 } }
    }
}

/// The message as bytes.
pub fn message(heap: Global) -> Result<Vec<u8>, AllocError>
    ensures { IfOk result (λ v. (vec_len v ≡ 50000) × ((k : ℕ) → k < 50000 → slice_index v.items k ≡ byte_of k)) }
{
    (0..LENGTH).map(byte_at).collect(heap)
}

/// The entry at this place of a tape, without errors.
fn entry_at(arrival: Arrival, place: u16) -> TapeEntry
    ensures { result ≡ entry_of arrival place }
{
    TapeEntry {
        character: Character::unmarked(byte_at(place)),
        gap: gap_at(arrival, place),
    }
}

/// The message as a tape.
pub fn tape(heap: Global, arrival: Arrival) -> Result<Vec<TapeEntry>, AllocError>
    ensures { IfOk result (λ v. (vec_len v ≡ 50000) × ((k : ℕ) (d : Entry) → k < 50000 → slice_index_or v.items k d ≡ entry_of arrival k)) }
{
    (0..LENGTH)
        .map(|place| entry_at(arrival, place))
        .collect(heap)
}
