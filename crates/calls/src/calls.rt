//! Calls on a driver: each line is one call.

use crate::line::{Answered, Line};
use crate::{looks, setups, transfers};
use backends::{Recording, Script};
use driver::Uart16550;

/// How many accesses of a call are kept.
pub const ROOM: usize = 1024;

/// A driver over a scripted device whose accesses are recorded.
pub type Device<'a> = Uart16550<Recording<Script<'a>, ROOM>>;

// Device and line stay two parameters: the device stands for many lines, and a struct of the two
// borrows would be taken apart again in each call.

/// Plays the call of the line.
pub fn answer(device: &mut Device<'_>, line: &mut Line<'_>) -> Answered {
    transfers::answer(device, line)
        .or_else(|| setups::answer(device, line))
        .or_else(|| looks::answer(device, line))
}
