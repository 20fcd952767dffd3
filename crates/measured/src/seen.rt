//! What a run gives back.

ghost use Rattle.measured.specs.Sum.{mixed};
ghost use Rattle.std.specs.Prelude.{◌≡◌};

/// What a run did, so that two drivers can be seen to have done the same.
#[repr(C)]
#[derive(Clone, Copy)]
pub struct Seen {
    /// Characters received, records sent whole, or set-ups accepted.
    pub done: usize,
    /// How far the device has come.
    pub place: usize,
    /// The sum over all writes.
    pub sum: u32,
    /// The line status after it, with the errors that were saved on the way.
    pub lsr: u8,
}

/// The sum after one more write.
// In the words of the harness, which mixes the same for the Rust's driver.
pub fn mix(sum: u32, offset: u8, value: u8) -> u32
    ensures { result ≡ mixed sum offset value }
{
    sum.rotate_left(5) ^ (u32::from(offset) * 256 + u32::from(value))
}
