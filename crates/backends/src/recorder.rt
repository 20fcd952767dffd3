//! A backend that records what is done with the one below it.

ghost use Rattle.backends.specs.Log.{Holds};
ghost use Rattle.backends.specs.Recorder.{recorded, Faithful};
ghost use Rattle.std.specs.Prelude.{◌≡◌, []};
ghost use Rattle.std.proofs.Common.{rules};

use crate::access::Access;
use crate::access_log::AccessTable;
use crate::backend::Backend;
use crate::chip::Chip;

/// A backend that means what the one it holds means, and records the accesses in a table of this
/// room.
#[derive(Drop)]
pub struct Recording<B, const ROOM: usize> {
    inner: B,
    log: AccessTable<ROOM>,
}

/// A recorder that keeps the first 256 accesses.
pub type Recorder<B> = Recording<B, 256>;

impl<B: Backend, const ROOM: usize> Recording<B, ROOM> {
    /// A recorder that has recorded nothing. What it will hold is what is done with it.
    pub fn new(inner: B) -> Self
        ensures holds { result.inner ≡ inner }
        ensures faithful { Faithful ROOM B.device inner result }
    {
        Recording {
            inner,
            log: AccessTable::new(),
        }
    }
}

impl<B, const ROOM: usize> Recording<B, ROOM> {
    /// What was recorded.
    pub fn log(&self) -> &AccessTable<ROOM>
        ensures { result.now ≡ self.now.log }
    {
        &self.log
    }

    /// Forgets what was recorded.
    pub fn clear(&mut self)
        ensures device { self.new.inner ≡ self.old.inner }
        ensures empty { Holds ROOM self.new.log [] }
    {
        self.log.clear();
    }
}

impl<B: Backend, const ROOM: usize> Backend for Recording<B, ROOM> {
    ghost device = { recorded ROOM B.Backend.device };

    fn read(&mut self, offset: u8) -> u8 {
        let value = self.inner.read(offset);
        if offset < 8 {
            self.log.note(Access::read(offset, value));
        }
        value
    }

    fn write(&mut self, offset: u8, value: u8) {
        self.inner.write(offset, value);
        if offset < 8 {
            self.log.note(Access::write(offset, value));
        }
    }
}

impl<C: Chip, const ROOM: usize> Chip for Recording<C, ROOM> {
    ghost meaning = { λ s. C.Chip.meaning s.inner };

    ghost keeps = { Prim.search rules };
}
