//! Questions about constants.

use crate::divisor_list::DIVISORS;
use crate::fault::Fault;
use crate::line::{Answered, Line};
use crate::show::{Setup, Value};
use crate::words::Words;
use registers::config::Config;
use registers::divisor::CLK_FREQUENCY_HZ;
use registers::{FIFO_SIZE, NUM_REGISTERS, fcr, ier, isr, lcr, lsr, mcr, msr, offsets, psd};
use std::fmt;

/// Answers one of these questions.
pub fn answer(line: &mut Line<'_>) -> Answered {
    Some(match line.name {
        "constants" => line.answer(Words::none, |()| Constants),
        "bits" => bits(line),
        "divisors" => line.answer(Words::none, |()| Divisors),
        "default" => default(line),
        _ => return None,
    })
}

/// The offsets, in the order of an answer.
const OFFSETS: [u8; 12] = [
    offsets::DATA,
    offsets::IER,
    offsets::ISR,
    offsets::FCR,
    offsets::LCR,
    offsets::MCR,
    offsets::LSR,
    offsets::MSR,
    offsets::SPR,
    offsets::DLL,
    offsets::DLM,
    offsets::PSD,
];

/// The clock, the sizes and the offsets.
#[derive(Drop)]
struct Constants;

impl fmt::Display for Constants {
    fn fmt<W: fmt::Write>(&self, f: &mut fmt::Formatter<W>) -> fmt::Result {
        write!(f, "ok {CLK_FREQUENCY_HZ} {FIFO_SIZE} {NUM_REGISTERS}")?;
        for offset in OFFSETS {
            write!(f, " {offset}")?;
        }
        Ok(())
    }
}

const IER_BITS: [u8; 8] = [
    ier::DATA_READY,
    ier::THR_EMPTY,
    ier::RECEIVER_LINE_STATUS,
    ier::MODEM_STATUS,
    1 << 4,
    1 << 5,
    ier::DMA_RX_END,
    ier::DMA_TX_END,
];

const ISR_BITS: [u8; 8] = [
    isr::INTERRUPT_STATUS,
    isr::IIC_0,
    isr::IIC_1,
    isr::IIC_2,
    isr::DMA_RX_END,
    isr::DMA_TX_END,
    isr::FIFOS_ENABLED0,
    isr::FIFOS_ENABLED1,
];

const FCR_BITS: [u8; 8] = [
    fcr::FIFO_ENABLE,
    fcr::RX_FIFO_RESET,
    fcr::TX_FIFO_RESET,
    fcr::DMA_MODE,
    fcr::ENABLE_DMA_END,
    1 << 5,
    fcr::RX_FIFO_TRIGGER_LEVEL0,
    fcr::RX_FIFO_TRIGGER_LEVEL1,
];

const LCR_BITS: [u8; 8] = [
    lcr::WORD_LENGTH0,
    lcr::WORD_LENGTH1,
    lcr::MORE_STOP_BITS,
    lcr::PARITY0,
    lcr::PARITY1,
    lcr::PARITY2,
    lcr::SET_BREAK,
    lcr::DLAB,
];

const MCR_BITS: [u8; 8] = [
    mcr::DTR,
    mcr::RTS,
    mcr::OUT_1,
    mcr::OUT_2_INT_ENABLE,
    mcr::LOOP_BACK,
    1 << 5,
    1 << 6,
    1 << 7,
];

const LSR_BITS: [u8; 8] = [
    lsr::DATA_READY,
    lsr::OVERRUN_ERROR,
    lsr::PARITY_ERROR,
    lsr::FRAMING_ERROR,
    lsr::BREAK_INTERRUPT,
    lsr::THR_EMPTY,
    lsr::TRANSMITTER_EMPTY,
    lsr::FIFO_DATA_ERROR,
];

const MSR_BITS: [u8; 8] = [
    msr::DELTA_CTS,
    msr::DELTA_DSR,
    msr::TRAILING_EDGE_RI,
    msr::DELTA_CD,
    msr::CTS,
    msr::DSR,
    msr::RI,
    msr::CD,
];

const PSD_BITS: [u8; 8] = [
    psd::PDF0,
    psd::PDF1,
    psd::PDF2,
    psd::PDF3,
    1 << 4,
    1 << 5,
    1 << 6,
    1 << 7,
];

/// The bits of a register, lowest first; those without a name are reserved.
fn bits_of(register: &str) -> Result<[u8; 8], Fault> {
    match register {
        "ier" => Ok(IER_BITS),
        "isr" => Ok(ISR_BITS),
        "fcr" => Ok(FCR_BITS),
        "lcr" => Ok(LCR_BITS),
        "mcr" => Ok(MCR_BITS),
        "lsr" => Ok(LSR_BITS),
        "msr" => Ok(MSR_BITS),
        "psd" => Ok(PSD_BITS),
        _ => Err(Fault::Malformed),
    }
}

/// The bits of a register.
#[derive(Drop)]
struct BitList([u8; 8]);

impl fmt::Display for BitList {
    fn fmt<W: fmt::Write>(&self, f: &mut fmt::Formatter<W>) -> fmt::Result {
        f.write_str("ok")?;
        for bit in self.0 {
            write!(f, " {bit:02X}")?;
        }
        Ok(())
    }
}

fn bits(line: &mut Line<'_>) -> Result<(), Fault> {
    let bits = bits_of(line.read(Words::word)?)?;
    line.tell(&BitList(bits))
}

/// The numbers of the named divisors.
#[derive(Drop)]
struct Divisors;

impl fmt::Display for Divisors {
    fn fmt<W: fmt::Write>(&self, f: &mut fmt::Formatter<W>) -> fmt::Result {
        f.write_str("ok")?;
        for divisor in DIVISORS {
            write!(f, " {}", divisor.value())?;
        }
        Ok(())
    }
}

fn default(line: &mut Line<'_>) -> Result<(), Fault> {
    line.read(Words::none)?;
    line.tell(&Value(Setup(&Config::default())))
}
