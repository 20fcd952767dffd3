//! A cable that leads the line back to the chip, and what it does before an access.

ghost use Rattle.std.specs.Prelude.{◌≡◌, ℕ, true, length};
ghost use Rattle.bench.specs.Cable.{came, gone, carrying, carried, ticked};
ghost use Rattle.bench.specs.Keeping.Carries.{ticked_sound, ticked_moves};
ghost use Rattle.bench.specs.Receiver.{Room};
ghost use Rattle.bench.specs.State.{state};

use crate::chip_core::Core;
use crate::joined::Joined;
use crate::line::Line;
use backends::Character;

/// The line that holds what left the chip and arrived.
#[derive(Drop)]
pub struct Cable {
    pub line: Line,
}

impl Cable {
    /// Whether a byte can leave, and arrive.
    fn due(&self, core: &Core) -> bool
        ensures { result ≡ carrying (state core.now self.now) }
    {
        self.line.has_room() && core.accepts()
    }

    /// The oldest held byte leaves, and arrives, if there is one.
    fn carry(&mut self, core: &mut Core)
        requires room { Room core.old.receiver.counts }
        requires due { carrying (state core.old self.old) ≡ true }
        ensures { state core.new self.new ≡ carried core.old.transmitter.held (state core.old self.old) }
    {
        if let Some(byte) = core.transmitter.held.pop() {
            self.line.put(byte);
            core.receiver
                .reach(core.settings.fifos, Character::unmarked(byte));
        }
    }
}

impl Joined for Cable {
    ghost came = { came };

    ghost gone = { gone };

    ghost ticked = { ticked };

    ghost sound = { ticked_sound };

    fn tick(&mut self, core: &mut Core) {
        if core.settings.looping() {
            core.turn();
        } else if core.transmitter.held.len() > 0 && self.due(core) {
            self.carry(core);
        }
    }

    ghost moves = { ticked_moves };
}
