//! Looking at registers, and switching interrupts.

ghost use Rattle.std.specs.Prelude.{◌≡◌, ℕ, ◌-◌, [], ◌∷◌, bit_and, bit_or};
ghost use Rattle.backends.specs.Device.{Runs, rd, wr};
ghost use Rattle.driver.specs.Getters.{Looked, LineLooked, ModemLooked, Connected, DivisorLooked, Switched, Dumped, with_interrupts};
ghost use Rattle.driver.specs.Kept.{kept, verdict, with_config};
ghost use Rattle.registers.specs.Offsets.{at_ier, at_isr, at_lcr, at_mcr, at_spr};
ghost use Rattle.registers.specs.Refusal.{remote_refusal};

use crate::uart::Uart16550;
use backends::Backend;
use registers::dump::ConfigRegisterDump;
use registers::error::RemoteReadyToReceiveError;
use registers::flags::contains;
use registers::{lcr, msr, offsets};

impl<B: Backend> Uart16550<B> {
    /// Whether a remote is there and can receive: 13 without data-set-ready, then 14 without
    /// clear-to-send.
    pub fn check_connected(&mut self) -> Result<(), RemoteReadyToReceiveError>
        ensures { Connected B.device self.old self.new (verdict remote_refusal result) }
    {
        let status = self.read_msr();
        if !contains(status, msr::DSR) {
            return Err(RemoteReadyToReceiveError::NoRemoteConnectedNoDSR);
        }
        if !contains(status, msr::CTS) {
            return Err(RemoteReadyToReceiveError::RemoteNotClearToSend);
        }
        Ok(())
    }

    /// Enables these interrupts besides those that are enabled.
    pub fn enable_interrupts(&mut self, interrupts: u8)
        ensures { Switched B.device self.old self.new (λ v. bit_or v interrupts) }
    {
        self.switch_interrupts(|enabled| enabled | interrupts);
    }

    /// Disables these interrupts.
    pub fn disable_interrupts(&mut self, interrupts: u8)
        ensures { Switched B.device self.old self.new (λ v. bit_and v (255 - interrupts)) }
    {
        self.switch_interrupts(|enabled| enabled & !interrupts);
    }

    /// Makes this change of the interrupts that are enabled.
    fn switch_interrupts<F: FnOnce(u8) -> u8>(&mut self, change: F)
        requires { F.IsAlwaysCallable change }
        ensures { (found : ℕ) × (enabled : ℕ) × F.post change found enabled
            × Runs B.device (rd at_ier found ∷ wr at_ier enabled ∷ []) self.old.backend self.new.backend
            × (kept self.new ≡ with_config (kept self.old) (with_interrupts self.old.config enabled)) }
    {
        let enabled = change(self.ier());
        self.config.interrupts = enabled;
        self.backend.write(offsets::IER, enabled);
    }

    // Each of the plain getters is one read already: a method for all five would only rename it.

    /// The interrupt enable register.
    pub fn ier(&mut self) -> u8
        ensures { Looked B.device self.old self.new at_ier result }
    {
        self.backend.read(offsets::IER)
    }

    /// The interrupt status register.
    pub fn isr(&mut self) -> u8
        ensures { Looked B.device self.old self.new at_isr result }
    {
        self.backend.read(offsets::ISR)
    }

    /// The line control register.
    pub fn lcr(&mut self) -> u8
        ensures { Looked B.device self.old self.new at_lcr result }
    {
        self.backend.read(offsets::LCR)
    }

    /// The modem control register.
    pub fn mcr(&mut self) -> u8
        ensures { Looked B.device self.old self.new at_mcr result }
    {
        self.backend.read(offsets::MCR)
    }

    // The two status getters share no step but the `|`: each has a read and a byte of its own.

    /// The line status, with the errors that earlier calls saw; they are then forgotten.
    pub fn lsr(&mut self) -> u8
        ensures { LineLooked B.device self.old self.new result }
    {
        let status = self.read_lsr() | self.lsr_saved;
        self.lsr_saved = 0;
        status
    }

    /// The modem status, with the changes that earlier calls saw; they are then forgotten.
    pub fn msr(&mut self) -> u8
        ensures { ModemLooked B.device self.old self.new result }
    {
        let status = self.read_msr() | self.msr_saved;
        self.msr_saved = 0;
        status
    }

    /// The scratch pad register.
    pub fn spr(&mut self) -> u8
        ensures { Looked B.device self.old self.new at_spr result }
    {
        self.backend.read(offsets::SPR)
    }

    /// The low and the high byte of the divisor. The line control register is written back as it
    /// was found.
    pub fn dll_dlm(&mut self) -> (u8, u8)
        ensures { DivisorLooked B.device self.old self.new result.0 result.1 }
    {
        let found = self.lcr();
        self.backend.write(offsets::LCR, found | lcr::DLAB);
        let low = self.backend.read(offsets::DLL);
        let high = self.backend.read(offsets::DLM);
        self.backend.write(offsets::LCR, found);
        (low, high)
    }

    /// All registers that can be read. Errors and changes that the reads clear are saved, and the
    /// fields have the saved ones too.
    pub fn config_register_dump(&mut self) -> ConfigRegisterDump
        ensures { Dumped B.device self.old self.new result }
    {
        let (dll, dlm) = self.dll_dlm();
        let ier = self.ier();
        let isr = self.isr();
        let lcr = self.lcr();
        let mcr = self.mcr();
        let lsr = self.read_lsr() | self.lsr_saved;
        let msr = self.read_msr() | self.msr_saved;
        let spr = self.spr();
        ConfigRegisterDump {
            ier,
            isr,
            lcr,
            mcr,
            lsr,
            msr,
            spr,
            dll,
            dlm,
        }
    }
}
