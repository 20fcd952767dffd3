//! Lets characters overrun a simulated chip's receive queue, makes a list of driver calls on it,
//! and prints where every character went.

#![tactic(auto)]

mod report;
mod run;

use anyhow::anyhow;
use driver::Uart16550;
use ledger::play;
use registers::config::Config;
use report::Report;
use run::{calls, chip};

fn main(rt: HostRuntime) -> anyhow::Result<()> {
    let heap = rt.alloc();
    let mut uart = Uart16550::new_with_backend(chip(heap)?);
    let mut list = calls(heap)?;
    let answer = play(&mut uart, Config::DEFAULT, 0, &mut list);
    if answer.result.is_err() {
        return Err(anyhow!("init was refused"));
    }
    rt.print(Report {
        list: &list,
        chip: uart.backend(),
    })?;
    Ok(())
}
