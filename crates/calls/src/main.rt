//! Reads a list of driver calls from standard input, plays it on scripted devices, and prints what
//! each call answered, what the driver keeps, and every register access.

#![tactic(auto)]

mod calls;
mod divisor_list;
mod encodings;
mod fault;
mod frames;
mod hex;
mod line;
mod looks;
mod places;
mod play;
mod questions;
mod rates;
mod refusals;
mod setups;
mod show;
mod tables;
mod transfers;
mod values;
mod words;

use play::answers;
use std::io::Read;
use std::str::from_utf8;

fn main(rt: HostRuntime) -> anyhow::Result<()> {
    let mut input = Vec::new(rt.alloc());
    rt.stdin().read_to_end(&mut input)?;
    let text = from_utf8(&input)?;
    rt.print(answers(rt.alloc(), text)?)?;
    Ok(())
}
