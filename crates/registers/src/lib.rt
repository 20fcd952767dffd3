//! What the 16550 datasheet fixes, without touching a device: register offsets, bits and tables,
//! divisors, the configuration, and the refusals with their numbers.

#![tactic(auto)]

mod coded;
pub mod config;
pub mod divisor;
pub mod divisors;
pub mod dump;
pub mod error;
pub mod fcr;
mod fields;
pub mod flags;
pub mod ier;
pub mod isr;
pub mod lcr;
pub mod lsr;
pub mod mcr;
pub mod msr;
pub mod offsets;
pub mod psd;

/// How many characters each FIFO holds.
pub const FIFO_SIZE: usize = 16;
/// How many registers a device has.
pub const NUM_REGISTERS: usize = 8;
