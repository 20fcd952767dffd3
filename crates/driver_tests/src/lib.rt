//! Tests of the driver over scripted devices: refusals access by access, buffers and budgets of all
//! sizes, the loopback test for all word lengths, and the saved flags.

#![tactic(auto)]

#[cfg(test)]
mod budgets;
#[cfg(test)]
mod buffers;
#[cfg(test)]
mod each_refusal;
#[cfg(test)]
mod loop_mode;
#[cfg(test)]
mod play;
#[cfg(test)]
mod saved_flags;
