//! Calls that receive and send.

use crate::calls::Device;
use crate::fault::Fault;
use crate::line::{Answered, Line};
use crate::show::{Done, Hex, Moved, Outcome, Two, Value};
use crate::values::Octet;
use crate::words::Words;

/// What each place of a buffer holds before a receive.
pub const UNTOUCHED: u8 = 0xA5;

/// Plays one of these calls.
pub fn answer(device: &mut Device<'_>, line: &mut Line<'_>) -> Answered {
    Some(match line.name {
        "receive" => receive(device, line),
        "receive_exact" => receive_exact(device, line),
        "send" => line.ok(Words::bytes, |bytes| device.send_bytes(&bytes)),
        "send_exact" => line.answer(
            |words| Ok((words.bytes()?, words.one()?)),
            |(bytes, budget)| Moved(device.send_bytes_exact(&bytes, budget)),
        ),
        "try_receive" => line.answer(Words::none, |()| {
            Outcome(device.try_receive_byte().map(Octet))
        }),
        "try_send" => line.answer(Words::one, |Octet(byte)| Done(device.try_send_byte(byte))),
        "ready_receive" => line.answer(Words::none, |()| Done(device.ready_to_receive())),
        "ready_send" => line.answer(Words::none, |()| Done(device.ready_to_send())),
        _ => return None,
    })
}

fn receive(device: &mut Device<'_>, line: &mut Line<'_>) -> Result<(), Fault> {
    let places: u16 = line.read(Words::one)?;
    let mut buffer = vec![in line.heap(); UNTOUCHED; usize::from(places)]?;
    let count = device.receive_bytes(&mut buffer);
    line.tell(&Value(Two(count, Hex(&buffer))))
}

fn receive_exact(device: &mut Device<'_>, line: &mut Line<'_>) -> Result<(), Fault> {
    let (places, budget): (u16, u16) = line.read(Words::two)?;
    let mut buffer = vec![in line.heap(); UNTOUCHED; usize::from(places)]?;
    let transferred = device.receive_bytes_exact(&mut buffer, budget);
    line.tell(&Two(Moved(transferred), Hex(&buffer)))
}
