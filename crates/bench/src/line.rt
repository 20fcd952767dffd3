//! The line: where the bytes go that leave.

ghost use Rattle.std.specs.Prelude.{◌≡◌, ℕ, ◌≤◌, min, true, vec_len, vec_capacity};
ghost use Rattle.bench.specs.Line.{Line as Sent, empty_line, room, written};

use std::marker::Model;

/// The bytes that left, in a store that has room for as many as it was long, and for 65,535 at most.
#[derive(Drop)]
pub struct Line {
    gone: Vec<u8>,
    space: usize,
}

// Clauses see what left, and how long the store is.
impl Model for Line {
    ghost Value = { Sent };

    ghost view = { λ l. record { gone = l.gone.items; space = l.space } };

    ghost invariant = { λ l. (vec_len l.gone ≤ min l.space 65535) × (l.space ≤ vec_capacity l.gone) };
}

impl Line {
    /// A store from which nothing has left yet.
    pub fn new(mut store: Vec<u8>) -> Line
        ensures { result ≡ empty_line (vec_len store) }
    {
        let space = store.len();
        store.clear();
        Line { gone: store, space }
    }

    /// Whether one byte more can leave.
    pub fn has_room(&self) -> bool
        ensures { result ≡ room self.now }
    {
        self.gone.len() < self.space.min(65535)
    }

    /// A byte leaves.
    pub fn put(&mut self, byte: u8)
        requires { room self.old ≡ true }
        ensures { self.new ≡ written self.old byte }
    {
        self.gone.push_reserved(byte);
    }

    /// The bytes that left, in their order.
    pub fn bytes(&self) -> &[u8]
        ensures { result.now ≡ self.now.gone }
    {
        &self.gone
    }
}
