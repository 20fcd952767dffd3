//! Reads bytes from standard input, lets the driver initialise a scripted device with them, and
//! prints every register access that the driver made.

#![tactic(auto)]

mod play;
mod report;

use play::play;
use report::Report;
use std::io::Read;

fn main(rt: HostRuntime) -> anyhow::Result<()> {
    let mut input = Vec::new(rt.alloc());
    rt.stdin().read_to_end(&mut input)?;
    let played = play(&input);
    rt.print(Report(&played))?;
    Ok(())
}
