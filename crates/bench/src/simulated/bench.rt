//! A simulated chip with a tape and a line.

ghost use Rattle.std.specs.Prelude.{◌≡◌, ℕ, ◌-◌, map, vec_len};
ghost use Rattle.bench.specs.Line.{empty_line};
ghost use Rattle.bench.specs.Making.{Made};
ghost use Rattle.bench.specs.Meaning.{left};
ghost use Rattle.bench.specs.Simulated.{simulated_device, simulated_meaning};
ghost use Rattle.bench.specs.Tape.{unplayed};
ghost use Rattle.bench.specs.Keeping.Chips.{simulated_keeps};
ghost use Rattle.bench.specs.Keeping.Moves.{ticked_moves};

use crate::chip_core::Core;
use crate::joined::Joined;
use crate::line::Line;
use crate::modem::ModemLines;
use crate::pace::Pace;
use crate::simulated::Simulated;
use crate::tape::{Tape, TapeEntry};
use crate::tape_and_line::TapeAndLine;
use backends::{Backend, Chip};

/// A 16550 that receives what stands on a tape, and sends into a store.
pub type Bench = Simulated<TapeAndLine>;

/// What a bench is made with.
#[derive(Clone, Copy)]
pub struct BenchOptions {
    /// Whether the chip has FIFOs. They start off.
    pub fifos: bool,
    /// Whether it has a scratch register.
    pub scratch: bool,
    /// On every how many-th access a byte leaves; 0 counts as 1.
    pub pace: u16,
    /// The modem lines outside loop mode.
    pub lines: ModemLines,
}

impl Bench {
    /// A chip with all registers at 0, before its first access. The store has room for as many bytes
    /// as it is long; of the tape and of the store the first 65,535 entries are in use.
    pub fn new(options: BenchOptions, tape: Vec<TapeEntry>, store: Vec<u8>) -> Bench
        ensures chip { Made options.fifos options.scratch options.lines result.core }
        ensures tape { result.joined.tape ≡ unplayed tape.items }
        ensures line { result.joined.line ≡ empty_line (vec_len store) }
        ensures pace { (result.joined.pace.between ≡ options.pace - 1) × (result.joined.pace.passed ≡ 0) }
    {
        Simulated {
            core: Core::new(options.fifos, options.scratch, options.lines),
            joined: TapeAndLine {
                tape: Tape::new(tape),
                line: Line::new(store),
                pace: Pace {
                    between: options.pace.saturating_sub(1),
                    passed: 0,
                },
            },
        }
    }

    /// The tape's entries that have arrived, in their order.
    pub fn arrived(&self) -> &[TapeEntry]
        ensures { map (λ e. e.character) result.now ≡ (⟦<Bench as Chip>⟧.meaning self.now).receiver.arrived }
    {
        self.joined.tape.arrived()
    }

    /// The bytes that have left for the line, in their order: those given but for the held ones.
    pub fn left(&self) -> &[u8]
        ensures { result.now ≡ left (⟦<Bench as Chip>⟧.meaning self.now).transmitter }
    {
        self.joined.line.bytes()
    }
}

impl Backend for Bench {
    ghost device = { simulated_device ⟦<TapeAndLine as Joined>⟧ };

    fn read(&mut self, offset: u8) -> u8 {
        self.read_register(offset)
    }

    fn write(&mut self, offset: u8, value: u8) {
        self.write_register(offset, value);
    }
}

impl Chip for Bench {
    ghost meaning = { simulated_meaning ⟦<TapeAndLine as Joined>⟧ };

    ghost keeps = { simulated_keeps ⟦<TapeAndLine as Joined>⟧ ticked_moves };
}
