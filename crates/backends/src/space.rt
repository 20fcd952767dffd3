//! The interface to an address space.

ghost use Rattle.backends.specs.Space.{Bus};
ghost use Rattle.std.specs.Prelude.{◌≡◌};

/// An address space in a state: for each 64-bit address the state fixes the byte that a read gives
/// and the state after it, and the state after each write. Nothing else moves it.
pub trait Space {
    ghost bus: { Bus Self };

    /// Reads the byte at an address. A read may change what stands there.
    fn read(&mut self, address: u64) -> u8
        ensures value { result ≡ bus.reader.gives self.old address }
        ensures state { self.new ≡ bus.reader.next self.old address };

    /// Writes a byte to an address.
    fn write(&mut self, address: u64, value: u8)
        ensures state { self.new ≡ bus.write self.old address value };
}
