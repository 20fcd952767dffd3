//! The sending side: the bytes that have not left, and those that have not come round.

ghost use Rattle.std.specs.Prelude.{◌≡◌, ℕ, ◌≤◌};
ghost use Rattle.bench.specs.Transmitter.{filling, sent, struck};

use crate::ring::Ring;

/// The bytes held for the line, and in loop mode those that turn back, each oldest first.
#[derive(Drop)]
pub struct Transmitter {
    pub held: Ring<u8>,
    pub turning: Ring<u8>,
}

impl Transmitter {
    /// How many bytes have neither left nor come round.
    pub fn filling(&self) -> u8
        ensures { result ≡ filling self.now }
    {
        self.held.len() + self.turning.len()
    }

    /// Takes a byte where there is room for it, to turn back in loop mode and else for the line.
    pub fn send(&mut self, loops: bool, room: u8, byte: u8)
        requires { room ≤ 16 }
        ensures { self.new ≡ sent loops room byte self.old }
    {
        if self.filling() < room {
            if loops {
                self.turning.push(byte);
            } else {
                self.held.push(byte);
            }
        }
    }

    /// Lets all bytes vanish.
    pub fn strike(&mut self)
        ensures { self.new ≡ struck }
    {
        self.held.clear();
        self.turning.clear();
    }
}
