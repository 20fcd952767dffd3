//! Simulated 16550s, proved to keep the rules of a chip.

#![tactic(auto)]

mod cable;
mod chip_core;
mod flag;
mod joined;
mod line;
mod modem;
mod pace;
mod receiver;
mod ring;
mod settings;
mod simulated;
mod tape;
mod tape_and_line;
mod transmitter;

pub use crate::simulated::bench::{Bench, BenchOptions};
pub use crate::simulated::plug::Plug;
pub use modem::ModemLines;
pub use tape::TapeEntry;
