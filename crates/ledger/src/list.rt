//! Playing calls.

ghost use Rattle.ledger.specs.Did.{Did};
ghost use Rattle.backends.specs.Chip.{ChipState};
ghost use Rattle.ledger.specs.Law.{Played, SameCalls, Outcome};
ghost use Rattle.driver.specs.Kept.{verdict};
ghost use Rattle.registers.specs.Refusal.{init_refusal};
ghost use Rattle.std.specs.Prelude.{List};

use crate::call::{Answer, Call, Entry};
use backends::{Backend, Chip};
use driver::{Uart16550, Waited};
use registers::config::Config;
use registers::error::InitError;

/// Makes one call; its buffer is filled in place.
// A match and no closures: the law speaks of the calls of a list, and of what each answered.
pub fn perform<B: Backend>(uart: &mut Uart16550<B>, call: &mut Call) -> Answer
    ensures { Did B.device uart.old uart.new call.old call.new (Some result) }
{
    match call {
        Call::TryReceive => Answer::Byte(uart.try_receive_byte()),
        Call::Receive(buffer) => Answer::Count(uart.receive_bytes(buffer)),
        Call::ReceiveExact(buffer, budget) => Answer::Exact(uart.receive_bytes_exact(
            buffer, *budget,
        )),
        Call::ReadyToReceive => Answer::ReadyToReceive(uart.ready_to_receive()),
        Call::TrySend(byte) => Answer::Sent(uart.try_send_byte(*byte)),
        Call::Send(bytes) => Answer::Count(uart.send_bytes(bytes)),
        Call::SendExact(bytes, budget) => Answer::Exact(uart.send_bytes_exact(bytes, *budget)),
        Call::ReadyToSend => Answer::Sent(uart.ready_to_send()),
        Call::CheckConnected => Answer::Connected(uart.check_connected()),
        Call::CheckPresent => Answer::Present(uart.check_present()),
        Call::EnableInterrupts(flags) => {
            uart.enable_interrupts(*flags);
            Answer::Done
        }
        Call::DisableInterrupts(flags) => {
            uart.disable_interrupts(*flags);
            Answer::Done
        }
        Call::Ier => Answer::Register(uart.ier()),
        Call::Isr => Answer::Register(uart.isr()),
        Call::Lcr => Answer::Register(uart.lcr()),
        Call::Mcr => Answer::Register(uart.mcr()),
        Call::Lsr => Answer::Register(uart.lsr()),
        Call::Msr => Answer::Register(uart.msr()),
        Call::Spr => Answer::Register(uart.spr()),
        Call::DllDlm => {
            let (low, high) = uart.dll_dlm();
            Answer::Divisor(low, high)
        }
        Call::Dump => Answer::Dump(uart.config_register_dump()),
    }
}

/// Initialises the chip and, where that was accepted, makes the calls one after the other.
///
/// Of every driver, chip and list, whenever characters arrive or leave: no character is lost in
/// silence, the line is given exactly what sends report taken, and `lsr` tells of every error.
pub fn play<C: Chip>(
    uart: &mut Uart16550<C>,
    config: Config,
    budget: u16,
    calls: &mut [Entry],
) -> Waited<Result<(), InitError>>
    ensures { Outcome C.Backend.device C.Chip.meaning config budget uart.old uart.new calls.old calls.new (verdict init_refusal result.result) result.fruitless }
{
    let answer = uart.init(config, budget);
    if let Ok(()) = answer.result {
        play_all(uart, calls);
    }
    answer
}

/// Makes the calls one after the other.
fn play_all<C: Chip>(uart: &mut Uart16550<C>, calls: &mut [Entry])
    ensures same { SameCalls calls.old calls.new }
    ensures played { (ms : List ChipState) × Played C.Backend.device C.Chip.meaning uart.old calls.new ms uart.new }
{
    for entry in calls.iter_mut() {
        entry.answer = Some(perform(uart, &mut entry.call));
    }
}
