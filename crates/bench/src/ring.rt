//! A queue of at most 16.

ghost use Rattle.std.specs.Prelude.{◌≡◌, ℕ, ◌<◌, ◌≤◌, List, [], ◌∷◌, ◌++◌, length, drop, slice_get};
ghost use Rattle.bench.specs.Ring.{window};

use std::marker::Model;

/// The items of a queue: the oldest stands at `from`, the others behind it, and after place 15
/// comes place 0.
// An array, since the circular buffers at hand allocate, and no access may fail for want of memory.
#[derive(Drop)]
pub struct Ring<T> {
    cells: [T; 16],
    from: u8,
    len: u8,
}

// Clauses see the items, oldest first.
impl<T> Model for Ring<T> {
    ghost Value = { List T };

    ghost view = { λ r. window r.from r.len r.cells };

    ghost invariant = { λ r. (length r.cells ≡ 16) × (r.from < 16) × (r.len ≤ 16) };
}

impl<T: Copy> Ring<T> {
    /// An empty queue.
    pub fn new(blank: T) -> Self
        ensures { result ≡ [] }
    {
        Ring {
            cells: [blank; 16],
            from: 0,
            len: 0,
        }
    }

    /// How many items it has.
    pub fn len(&self) -> u8
        ensures value { result ≡ length self.now }
        ensures most { length self.now ≤ 16 }
    {
        self.len
    }

    /// The item at this place, counted from the oldest.
    pub fn get(&self, at: u8) -> Option<T>
        ensures { result ≡ slice_get self.now at }
    {
        if at < self.len {
            Some(self.cells[((self.from + at) % 16) as usize])
        } else {
            None
        }
    }

    /// Puts an item behind the others.
    pub fn push(&mut self, item: T)
        requires { length self.old < 16 }
        ensures { self.new ≡ self.old ++ item ∷ [] }
    {
        self.cells[((self.from + self.len) % 16) as usize] = item;
        self.len += 1;
    }

    /// Takes the oldest item out.
    pub fn pop(&mut self) -> Option<T>
        ensures oldest { result ≡ slice_get self.old 0 }
        ensures rest { self.new ≡ drop 1 self.old }
    {
        let oldest = self.get(0)?;
        self.from = (self.from + 1) % 16;
        self.len -= 1;
        Some(oldest)
    }

    /// Takes all items out.
    pub fn clear(&mut self)
        ensures { self.new ≡ [] }
    {
        self.len = 0;
    }
}
