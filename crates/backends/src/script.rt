//! A scripted device.

ghost use Rattle.backends.specs.Script.{script};
ghost use Rattle.std.specs.Prelude.{◌≡◌, ℕ, List};

use crate::backend::Backend;
use std::marker::Model;

/// A device that answers each read with the next byte of a list, and with 0xFF after its end.
/// Writes do nothing.
#[derive(Drop)]
pub struct Script<'a> {
    rest: &'a [u8],
}

// Clauses see the bytes that are still to be read.
impl<'a> Model for Script<'a> {
    ghost Value = { List ℕ };

    ghost view = { λ s. s.rest.now };
}

impl<'a> Script<'a> {
    /// A script at the beginning of its bytes.
    pub fn new(bytes: &'a [u8]) -> Self
        ensures { result ≡ bytes.now }
    {
        Script { rest: bytes }
    }
}

impl<'a> Backend for Script<'a> {
    ghost device = { script };

    fn read(&mut self, offset: u8) -> u8 {
        if offset >= 8 {
            return 0xFF;
        }
        let Some((byte, rest)) = self.rest.split_first() else {
            return 0xFF;
        };
        self.rest = rest;
        *byte
    }

    fn write(&mut self, _offset: u8, _value: u8) {}
}
