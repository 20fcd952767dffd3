//! Calls that look at registers or write one.

use crate::calls::Device;
use crate::fault::Fault;
use crate::line::{Answered, Line};
use crate::show::{Hex, Two, Value};
use crate::values::Octet;
use crate::words::Words;
use backends::Backend;

/// Plays one of these calls.
pub fn answer(device: &mut Device<'_>, line: &mut Line<'_>) -> Answered {
    Some(match line.name {
        "ier" => line.ok(Words::none, |()| Octet(device.ier())),
        "isr" => line.ok(Words::none, |()| Octet(device.isr())),
        "lcr" => line.ok(Words::none, |()| Octet(device.lcr())),
        "mcr" => line.ok(Words::none, |()| Octet(device.mcr())),
        "lsr" => line.ok(Words::none, |()| Octet(device.lsr())),
        "msr" => line.ok(Words::none, |()| Octet(device.msr())),
        "spr" => line.ok(Words::none, |()| Octet(device.spr())),
        "dll_dlm" => line.ok(Words::none, |()| {
            let (low, high) = device.dll_dlm();
            Two(Octet(low), Octet(high))
        }),
        "dump" => dump(device, line),
        "enable" => line.answer(Words::one, |Octet(interrupts)| {
            device.enable_interrupts(interrupts);
            "ok"
        }),
        "disable" => line.answer(Words::one, |Octet(interrupts)| {
            device.disable_interrupts(interrupts);
            "ok"
        }),
        // A read and a write past the driver.
        "raw_read" => line.ok(Words::one, |offset| {
            Octet(device.backend_mut().read(offset))
        }),
        "raw_write" => line.answer(Words::two, |(offset, Octet(value))| {
            device.backend_mut().write(offset, value);
            "ok"
        }),
        _ => return None,
    })
}

fn dump(device: &mut Device<'_>, line: &mut Line<'_>) -> Result<(), Fault> {
    line.read(Words::none)?;
    let d = device.config_register_dump();
    let bytes = [
        d.ier, d.isr, d.lcr, d.mcr, d.lsr, d.msr, d.spr, d.dll, d.dlm,
    ];
    line.tell(&Value(Hex(&bytes)))
}
