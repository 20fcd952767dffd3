//! The interface to a device.

ghost use Rattle.backends.specs.Device.{Device, reads, moves, writes};
ghost use Rattle.std.specs.Prelude.{◌≡◌};

/// A device in a state: for each register the state fixes the byte that a read gives and the state
/// after it, and the state after each write. Nothing else moves it. An offset above 7 is no
/// access: it reads 0xFF and changes nothing.
pub trait Backend {
    ghost device: { Device Self };

    /// Reads a register. A read may change the device, as one of the line status does.
    fn read(&mut self, offset: u8) -> u8
        ensures value { result ≡ reads device self.old offset }
        ensures state { self.new ≡ moves device self.old offset };

    /// Writes a register.
    fn write(&mut self, offset: u8, value: u8)
        ensures state { self.new ≡ writes device self.old offset value };
}
