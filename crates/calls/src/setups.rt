//! Calls that set a device up or test it, and what the driver knows of it.

use crate::calls::Device;
use crate::fault::Fault;
use crate::line::{Answered, Line};
use crate::show::{Done, Hex, Setup, Spent, Two, Value};
use crate::transfers::UNTOUCHED;
use crate::values::Flag;
use crate::words::Words;

/// Plays one of these calls.
pub fn answer(device: &mut Device<'_>, line: &mut Line<'_>) -> Answered {
    Some(match line.name {
        "init" => line.answer(
            |words| Ok((words.config()?, words.one()?)),
            |(config, budget)| Spent(device.init(config, budget)),
        ),
        "present" => line.ok(Words::none, |()| Flag(device.check_present())),
        "connected" => line.answer(Words::none, |()| Done(device.check_connected())),
        "loopback" => loopback(device, line),
        "config" => line.ok(Words::none, |()| Setup(device.config())),
        "fifo" => line.ok(Words::none, |()| Flag(device.fifo_enabled())),
        _ => return None,
    })
}

fn loopback(device: &mut Device<'_>, line: &mut Line<'_>) -> Result<(), Fault> {
    let budget = line.read(Words::one)?;
    let mut place = [UNTOUCHED; 16];
    let waited = device.test_loopback(&mut place, budget);
    line.tell(&Two(Spent(waited), Hex(&place)))
}
