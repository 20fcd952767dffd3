//! A simulated chip, with something joined to it.

ghost use Rattle.bench.specs.State.{state, IsSound};

use crate::chip_core::Core;
use crate::joined::Joined;

pub mod bench;
pub mod device;
pub mod getters;
pub mod plug;

/// A 16550 with something joined to it.
// The fact relates the chip to what is joined to it, so neither type can keep it; and it is a ghost
// field, since the rules ask of every state that without FIFOs one character waits at most.
#[derive(Drop)]
pub struct Simulated<J: Joined> {
    core: Core,
    joined: J,
    ghost ok: { IsSound J.came (state core joined) },
}
