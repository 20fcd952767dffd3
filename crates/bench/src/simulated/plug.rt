//! A simulated chip with its line led back to itself.

ghost use Rattle.std.specs.Prelude.{◌≡◌, ℕ, true, map, vec_len};
ghost use Rattle.backends.specs.Rules.{unmarked};
ghost use Rattle.bench.specs.Line.{empty_line};
ghost use Rattle.bench.specs.Making.{Made};
ghost use Rattle.bench.specs.Simulated.{simulated_device, simulated_meaning};
ghost use Rattle.bench.specs.Keeping.Carries.{ticked_moves};
ghost use Rattle.bench.specs.Keeping.Chips.{simulated_keeps};

use crate::cable::Cable;
use crate::chip_core::Core;
use crate::joined::Joined;
use crate::line::Line;
use crate::modem::ModemLines;
use crate::simulated::Simulated;
use backends::{Backend, Chip};

/// A 16550 that receives each byte that leaves it, on the same access.
pub type Plug = Simulated<Cable>;

impl Plug {
    /// A chip with FIFOs and a scratch register, all registers at 0. The line carries as many bytes
    /// as the store is long, at most 65,535, and then stops.
    pub fn new(lines: ModemLines, store: Vec<u8>) -> Plug
        ensures chip { Made true true lines result.core }
        ensures line { result.joined.line ≡ empty_line (vec_len store) }
    {
        Simulated {
            core: Core::new(true, true, lines),
            joined: Cable {
                line: Line::new(store),
            },
        }
    }

    /// The bytes that have left, and arrived, in their order.
    pub fn carried(&self) -> &[u8]
        ensures { map unmarked result.now ≡ (⟦<Plug as Chip>⟧.meaning self.now).receiver.arrived }
    {
        self.joined.line.bytes()
    }
}

impl Backend for Plug {
    ghost device = { simulated_device ⟦<Cable as Joined>⟧ };

    fn read(&mut self, offset: u8) -> u8 {
        self.read_register(offset)
    }

    fn write(&mut self, offset: u8, value: u8) {
        self.write_register(offset, value);
    }
}

impl Chip for Plug {
    ghost meaning = { simulated_meaning ⟦<Cable as Joined>⟧ };

    ghost keeps = { simulated_keeps ⟦<Cable as Joined>⟧ ticked_moves };
}
