//! Looking at a simulated chip.

ghost use Rattle.std.specs.Prelude.{◌≡◌, ℕ, length, slice_get};
ghost use Rattle.bench.specs.Simulated.{simulated_meaning};

use crate::joined::Joined;
use crate::simulated::Simulated;
use backends::{Character, Counts};

impl<J: Joined> Simulated<J> {
    /// How many characters wait.
    pub fn waiting(&self) -> u8
        ensures { result ≡ length (simulated_meaning J.Joined self.now).receiver.waiting }
    {
        self.core.receiver.queue.len()
    }

    /// The waiting character at this place, counted from the oldest.
    pub fn waiting_at(&self, at: u8) -> Option<Character>
        ensures { result ≡ slice_get (simulated_meaning J.Joined self.now).receiver.waiting at }
    {
        self.core.receiver.queue.get(at)
    }

    /// The error events so far.
    pub fn counts(&self) -> Counts
        ensures { result ≡ (simulated_meaning J.Joined self.now).receiver.counts }
    {
        self.core.receiver.counts
    }

    /// How many bytes were given to the line and have not left.
    pub fn held(&self) -> u8
        ensures { result ≡ (simulated_meaning J.Joined self.now).transmitter.held }
    {
        self.core.transmitter.held.len()
    }
}
