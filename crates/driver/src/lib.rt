//! The driver for 16550 devices.

#![tactic(auto)]

mod budget;
mod getters;
mod loopback;
mod receive;
mod saved;
mod send;
mod setup;
mod status;
mod uart;

pub use budget::{Transferred, Waited};
pub use uart::Uart16550;
