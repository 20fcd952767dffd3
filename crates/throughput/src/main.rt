//! Moves ten million characters through the driver on simulated chips, and prints where they went.
//!
//! The message has 50,000 bytes; the byte at place p, counted from 1, is (p - 1) % 251. 50 plugs send
//! it and receive it back, 50 benches send it, and 50 receive it: 100 × 50,000 characters are sent,
//! and as many received. At most 16 wait at a time, so none is lost. A checksum is the sum of
//! p × byte; over one message that is 156,260,495,800, and over a hundred 100 times as much.

#![tactic(auto)]

mod checksum;
mod message;
mod runs;
mod totals;

use runs::all;

fn main(rt: HostRuntime) -> anyhow::Result<()> {
    let totals = all(rt.alloc())?;
    rt.print(totals)?;
    Ok(())
}
