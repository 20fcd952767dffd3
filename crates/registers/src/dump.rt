//! What the registers of a device held at one time.

ghost use Rattle.registers.specs.Config.{rate, NamedRate};
ghost use Rattle.registers.specs.Dump.{latched};
ghost use Rattle.registers.specs.Rate.{RateOf, NoRate};
ghost use Rattle.registers.specs.Refusal.{baud_refusal};
ghost use Rattle.std.specs.Prelude.{◌≡◌, Ok, Err};

use crate::config::{BaudRate, Config};
use crate::divisor::calc_baud_rate;
use crate::error::InvalidBaudRateError;

/// The registers that can be read, the divisor's bytes among them.
#[derive(Clone, Copy, Debug, PartialEq, Eq)]
pub struct ConfigRegisterDump {
    /// Interrupt enable.
    pub ier: u8,
    /// Interrupt status.
    pub isr: u8,
    /// Line control.
    pub lcr: u8,
    /// Modem control.
    pub mcr: u8,
    /// Line status.
    pub lsr: u8,
    /// Modem status.
    pub msr: u8,
    /// Scratch pad.
    pub spr: u8,
    /// Low byte of the divisor.
    pub dll: u8,
    /// High byte of the divisor.
    pub dlm: u8,
}

impl ConfigRegisterDump {
    /// The divisor that the two bytes hold.
    pub fn divisor(&self) -> u16
        ensures { result ≡ latched self.now }
    {
        u16::from_be_bytes([self.dlm, self.dll])
    }

    /// The rate of that divisor at the configuration's clock and prescaler.
    ///
    /// Refuses with 3, 18, 5 or 19, the first that applies.
    pub fn baud_rate(&self, config: &Config) -> Result<BaudRate, InvalidBaudRateError>
        ensures { elim result [
          | Ok b ↦ RateOf config.now.frequency (latched self.now) config.now.prescaler_division_factor (rate b) × NamedRate (rate b) b
          | Err e ↦ NoRate config.now.frequency (latched self.now) config.now.prescaler_division_factor (baud_refusal e)
        ] }
    {
        let rate = calc_baud_rate(
            config.frequency,
            u32::from(self.divisor()),
            config.prescaler_division_factor,
        )?;
        Ok(BaudRate::from(rate))
    }
}
