//! What an access to a simulated chip does, whatever is joined to it.

ghost use Rattle.std.specs.Prelude.{◌≡◌};
ghost use Rattle.backends.specs.Device.{reads, moves, writes};
ghost use Rattle.bench.specs.Simulated.{simulated_device};

use crate::joined::Joined;
use crate::simulated::Simulated;

// The two chips are backends by these two. `Backend` itself stands at each of the two types: with this
// toolchain no trait that builds on it could be implemented for them if it stood here once for both.
impl<J: Joined> Simulated<J> {
    /// A register is read.
    pub(crate) fn read_register(&mut self, offset: u8) -> u8
        ensures value { result ≡ reads (simulated_device J.Joined) self.old offset }
        ensures state { self.new ≡ moves (simulated_device J.Joined) self.old offset }
    {
        if offset >= 8 {
            return 0xFF;
        }
        self.joined.tick(&mut self.core);
        self.core.read(offset)
    }

    /// A register is written.
    pub(crate) fn write_register(&mut self, offset: u8, value: u8)
        ensures state { self.new ≡ writes (simulated_device J.Joined) self.old offset value }
    {
        if offset < 8 {
            self.joined.tick(&mut self.core);
            self.core.write(offset, value);
        }
    }
}
