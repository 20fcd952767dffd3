//! The tape: what will arrive, and when.

ghost use Rattle.std.specs.Prelude.{◌≡◌, ℕ, ◌≤◌, true, take, drop, vec_len};
ghost use Rattle.bench.specs.Tape.{Tape as Played, unplayed, over as past, older, Advances};

use backends::Character;
use std::marker::Model;

/// A character that arrives on the `gap`-th access after the one before it, or after the making of
/// the chip; with gap 0 on the same access.
#[derive(Clone, Copy)]
pub struct TapeEntry {
    /// What arrives.
    pub character: Character,
    /// How many accesses pass.
    pub gap: u8,
}

/// The entries, how many of them have arrived, and how many accesses have passed since then: at
/// most 255. The first 65,535 entries are in use.
// An index and no iterator: the entries before it are lent too.
#[derive(Drop)]
pub struct Tape {
    entries: Vec<TapeEntry>,
    next: u16,
    since: u8,
}

// Clauses see what has arrived, and what stands behind it.
impl Model for Tape {
    ghost Value = { Played };

    ghost view = { λ t. record { came = take t.next t.entries.items; coming = drop t.next t.entries.items; since = t.since } };

    ghost invariant = { λ t. t.next ≤ vec_len t.entries };
}

impl Tape {
    /// A tape of which nothing has arrived.
    pub fn new(entries: Vec<TapeEntry>) -> Tape
        ensures { result ≡ unplayed entries.items }
    {
        Tape {
            entries,
            next: 0,
            since: 0,
        }
    }

    /// One access more has passed.
    pub fn age(&mut self)
        ensures { self.new ≡ older self.old }
    {
        self.since = self.since.saturating_add(1);
    }

    /// Whether there is a next entry and its gap is over.
    pub fn over(&self) -> bool
        ensures { result ≡ past self.now }
    {
        let at = self.next as usize;
        at < self.entries.len().min(65535) && self.entries[at].gap <= self.since
    }

    /// Gives the next character, and goes on behind it.
    pub fn advance(&mut self) -> Character
        requires { past self.old ≡ true }
        ensures { Advances self.old.coming self.old result self.new }
    {
        let entry = self.entries[self.next as usize];
        self.next += 1;
        self.since = 0;
        entry.character
    }

    /// The entries that have arrived, in their order.
    pub fn arrived(&self) -> &[TapeEntry]
        ensures { result.now ≡ self.now.came }
    {
        &self.entries[0..self.next as usize]
    }
}
