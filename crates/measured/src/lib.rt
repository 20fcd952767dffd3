//! Runs of the driver over small devices, exported for a program that measures them beside the
//! Rust's driver (tools/side_by_side).

#![tactic(auto)]

mod runs;
mod scripted;
mod seen;
mod simulated;
mod small_chip;
mod tape;
mod watched;
