//! The tables of recorders.

ghost use Rattle.std.specs.Prelude.{◌≡◌, ℕ, ◌<◌, min, [], take};
ghost use Rattle.backends.specs.Log.{noted, Holds};

use crate::access::Access;

/// The first accesses, as many as there is room for, and a count of all, which stays at its largest
/// value.
// An array, since no access may fail for want of memory. The count goes on when it is full, and is
// no length.
#[derive(Drop)]
pub struct AccessTable<const ROOM: usize> {
    entries: [Access; ROOM],
    count: u64,
}

/// The table of a recorder: it keeps the first 256 accesses.
pub type AccessLog = AccessTable<256>;

impl<const ROOM: usize> AccessTable<ROOM> {
    /// An empty table.
    pub fn new() -> Self
        ensures { Holds ROOM result [] }
    {
        AccessTable {
            entries: [Access::read(0, 0); ROOM],
            count: 0,
        }
    }

    /// Notes one access more.
    pub fn note(&mut self, access: Access)
        ensures exact { self.new ≡ noted ROOM self.old access }
    {
        if self.count < ROOM as u64 {
            self.entries[self.count as usize] = access;
        }
        self.count = self.count.saturating_add(1);
    }

    /// Forgets all accesses.
    pub fn clear(&mut self)
        ensures { Holds ROOM self.new [] }
    {
        self.count = 0;
    }

    /// How many accesses were made.
    pub fn count(&self) -> u64
        ensures { result ≡ self.now.count }
    {
        self.count
    }

    /// The accesses that the table keeps, in their order.
    pub fn recorded(&self) -> &[Access]
        ensures { result.now ≡ take (min self.now.count ROOM) self.now.entries }
    {
        let kept = self.count.min(ROOM as u64);
        &self.entries[..kept as usize]
    }
}
