//! A tape and a line with a pace, and what they do before an access.

ghost use Rattle.std.specs.Prelude.{◌≡◌, ℕ, true, length};
ghost use Rattle.bench.specs.Receiver.{Room};
ghost use Rattle.bench.specs.State.{state, IsSound};
ghost use Rattle.bench.specs.TapeAndLine.{came, gone, arriving, arrives, filled, leaving, passed_looping, beaten, aged, ticked};
ghost use Rattle.bench.specs.Keeping.Moves.{ticked_sound, ticked_moves};

use crate::chip_core::Core;
use crate::joined::Joined;
use crate::line::Line;
use crate::pace::Pace;
use crate::tape::Tape;

/// A tape from which characters arrive, a line to which bytes leave, and how often they do.
#[derive(Drop)]
pub struct TapeAndLine {
    pub tape: Tape,
    pub line: Line,
    pub pace: Pace,
}

impl TapeAndLine {
    /// Whether a character arrives now.
    fn due(&self, core: &Core) -> bool
        ensures { result ≡ arriving (state core.now self.now) }
    {
        core.accepts() && self.tape.over()
    }

    /// A character arrives.
    fn arrive(&mut self, core: &mut Core)
        requires room { Room core.old.receiver.counts }
        requires due { arriving (state core.old self.old) ≡ true }
        ensures { state core.new self.new ≡ arrives self.old.tape.coming (state core.old self.old) }
    {
        let c = self.tape.advance();
        core.receiver.reach(core.settings.fifos, c);
    }

    /// All characters arrive whose time has come.
    fn fill(&mut self, core: &mut Core)
        requires { IsSound came (state core.old self.old) }
        ensures exact { state core.new self.new ≡ filled (state core.old self.old) }
        ensures sound { IsSound came (state core.new self.new) }
    {
        while self.due(core) {
            self.arrive(core);
        }
    }

    /// The oldest held byte leaves, if there is one and the line has room.
    fn leave(&mut self, core: &mut Core)
        ensures { state core.new self.new ≡ leaving (state core.old self.old) }
    {
        // the queue is asked first: where nothing is held, the line need not be
        if core.transmitter.held.len() > 0 && self.line.has_room() {
            if let Some(byte) = core.transmitter.held.pop() {
                self.line.put(byte);
            }
        }
    }

    /// In loop mode the oldest byte comes round on a beat.
    fn pass_looping(&mut self, core: &mut Core)
        requires { Room core.old.receiver.counts }
        ensures { state core.new self.new ≡ passed_looping (state core.old self.old) }
    {
        if self.pace.beat() {
            core.turn();
        }
    }

    /// Outside loop mode the oldest held byte leaves on a beat, and the access counts for the gaps.
    fn pass(&mut self, core: &mut Core)
        requires { IsSound came (state core.old self.old) }
        ensures { state core.new self.new ≡ aged (beaten (state core.old self.old)) }
    {
        if self.pace.beat() {
            self.leave(core);
        }
        self.tape.age();
    }
}

impl Joined for TapeAndLine {
    ghost came = { came };

    ghost gone = { gone };

    ghost ticked = { ticked };

    ghost sound = { ticked_sound };

    // Leaving comes first.
    fn tick(&mut self, core: &mut Core) {
        if core.settings.looping() {
            self.pass_looping(core);
        } else {
            self.pass(core);
            self.fill(core);
        }
    }

    ghost moves = { ticked_moves };
}
