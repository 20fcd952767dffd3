//! The receiving side: the queue of unread characters, and the error events.

ghost use Rattle.std.specs.Prelude.{◌≡◌, ℕ, ◌+◌, ◌^◌, ◌<◌};
ghost use Rattle.backends.specs.Rules.{first as firsts, one_more};
ghost use Rattle.bench.specs.Receiver.{Room, reached, taken, data_byte, bears_mark, any_marked};
ghost use Rattle.bench.specs.Settings.{mode};

use crate::ring::Ring;
use crate::settings::Fifos;
use backends::{Character, Counts};

/// The unread characters, the error events so far, and how many of them the last read of the line
/// status had seen.
#[derive(Drop)]
pub struct Receiver {
    pub queue: Ring<Character>,
    pub counts: Counts,
    pub seen: Counts,
}

/// One more event where the mark is set.
fn one_more(mark: bool, n: u64) -> u64
    requires { n + 1 < 2 ^ 64 }
    ensures { result ≡ one_more mark n }
{
    n + u64::from(mark)
}

/// The events once this character is the first of the waiting.
fn first(c: Character, n: Counts) -> Counts
    requires { Room n }
    ensures { result ≡ firsts c n }
{
    Counts {
        lost: n.lost,
        parity: one_more(c.parity, n.parity),
        framing: one_more(c.framing, n.framing),
        broken: one_more(c.broken, n.broken),
    }
}

/// Whether the character came with an error.
fn marked(c: Character) -> bool
    ensures { result ≡ bears_mark c }
{
    c.parity || c.framing || c.broken
}

// Callers show that the mark counts can grow: it follows from how few characters came, which the
// receiver does not know.
impl Receiver {
    /// A character reaches the receiver.
    pub fn reach(&mut self, fifos: Fifos, c: Character)
        requires marks { Room self.old.counts }
        requires lost { self.old.counts.lost + 1 < 2 ^ 64 }
        ensures { self.new ≡ reached (mode fifos) c self.old }
    {
        if self.queue.len() < fifos.capacity() {
            if self.queue.len() == 0 {
                self.counts = first(c, self.counts);
            }
            self.queue.push(c);
        } else {
            self.counts.lost += 1;
            if !fifos.on() {
                self.counts = first(c, self.counts);
                self.queue.clear();
                self.queue.push(c);
            }
        }
    }

    /// Takes the first of the waiting, and gives its byte: 0 where none waits.
    pub fn take(&mut self) -> u8
        requires { Room self.old.counts }
        ensures value { result ≡ data_byte self.old.queue }
        ensures state { self.new ≡ taken self.old }
    {
        let Some(oldest) = self.queue.pop() else {
            return 0;
        };
        if let Some(next) = self.queue.get(0) {
            self.counts = first(next, self.counts);
        }
        oldest.byte
    }

    /// Whether a waiting character came with an error.
    pub fn any_marked(&self) -> bool
        ensures { result ≡ any_marked self.now.queue }
    {
        (0..self.queue.len()).any(|at| self.queue.get(at).is_some_and(marked))
    }
}
