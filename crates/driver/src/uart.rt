//! The driver.

ghost use Rattle.std.specs.Prelude.{◌≡◌, ℕ, true, [], ◌∷◌, ◌==◌};
ghost use Rattle.std.specs.Borrow.{follows, sem};
ghost use Rattle.driver.specs.contracts.uart.Uart16550.{the_row};
ghost use Rattle.backends.specs.Device.{Runs, rd, wr};
ghost use Rattle.driver.specs.Traces.{Ran, Patterns, Probe, Initialised};
ghost use Rattle.driver.specs.Kept.{kept, verdict};
ghost use Rattle.registers.specs.Config.{default};
ghost use Rattle.registers.specs.Refusal.{init_refusal};

use crate::budget::{Budget, Waited};
use backends::Backend;
use registers::config::Config;
use registers::divisor::calc_divisor;
use registers::error::InitError;
use registers::offsets;

/// A driver for the 16550 behind a backend, which it holds.
#[derive(Drop)]
pub struct Uart16550<B> {
    pub(crate) backend: B,
    pub(crate) config: Config,
    pub(crate) fifo_enabled: bool,
    pub(crate) lsr_saved: u8,
    pub(crate) msr_saved: u8,
}

impl<B: Backend> Uart16550<B> {
    /// A driver that has not touched its device yet. It assumes the default configuration.
    pub fn new_with_backend(backend: B) -> Self
        ensures { result ≡ record { backend = backend; config = default; fifo_enabled = true; lsr_saved = 0; msr_saved = 0 } }
    {
        Uart16550 {
            backend,
            config: Config::DEFAULT,
            fifo_enabled: true,
            lsr_saved: 0,
            msr_saved: 0,
        }
    }

    // That what is kept stays is a clause of its own, here and in the steps that only access: no
    // definition of a run of accesses speaks of it.

    /// Whether a device is there: its scratch register keeps 0x42 and then 0x73. The byte that
    /// stood there is written back.
    pub fn check_present(&mut self) -> bool
        ensures accesses { Ran B.device (Probe result) self.old.backend self.new.backend }
        ensures keeps { kept self.new ≡ kept self.old }
    {
        // others may use the scratch register
        let old = self.backend.read(offsets::SPR);
        let present = self.keeps_patterns();
        self.backend.write(offsets::SPR, old);
        present
    }
}

impl<B> Uart16550<B> {
    /// The configuration.
    pub fn config(&self) -> &Config
        ensures { result.now ≡ self.now.config }
    {
        &self.config
    }

    /// Whether the FIFOs are used: what the last set-up of them found, and true before any.
    pub fn fifo_enabled(&self) -> bool
        ensures { result ≡ self.now.fifo_enabled }
    {
        self.fifo_enabled
    }

    /// The backend, to be accessed past the driver.
    pub fn backend_mut(&mut self) -> &mut B
        ensures* { sem 𝓛 (follows (the_row B.row) B.row self.entry.ghost_name result.ghost_name (λ w. record { backend = w; config = self.old.config; fifo_enabled = self.old.fifo_enabled; lsr_saved = self.old.lsr_saved; msr_saved = self.old.msr_saved })) }
    {
        &mut self.backend
    }

    /// The backend.
    pub fn backend(&self) -> &B
        ensures { result.now ≡ self.now.backend }
    {
        &self.backend
    }
}

impl<B: Backend> Uart16550<B> {
    /// Initialises the device with a configuration and raises its modem lines.
    ///
    /// Refuses with 3 to 7, touching nothing, where the configuration has no divisor; with 8 where
    /// the device is not present; with 9 where more than `budget` polls find the transmitter busy.
    pub fn init(&mut self, config: Config, budget: u16) -> Waited<Result<(), InitError>>
        ensures { Ran B.device (Initialised config budget (kept self.old) (verdict init_refusal result.result) result.fruitless (kept self.new)) self.old.backend self.new.backend }
    {
        let mut polls = Budget::new(budget);
        let result = self.initialise(config, &mut polls);
        polls.waited(result)
    }

    /// `init`, with the budget that it may spend.
    fn initialise(&mut self, config: Config, budget: &mut Budget) -> Result<(), InitError>
        requires { budget.old.fruitless ≡ 0 }
        ensures { Ran B.device (Initialised config budget.old.limit (kept self.old) (verdict init_refusal result) budget.new.fruitless (kept self.new)) self.old.backend self.new.backend }
    {
        let divisor = calc_divisor(
            config.frequency,
            config.baud_rate.to_integer(),
            config.prescaler_division_factor,
        )?;
        self.config = config;
        if !self.check_present() {
            return Err(InitError::DeviceNotPresent);
        }
        self.prepare(divisor);
        self.wait_for_transmitter(budget)?;
        self.clear_status();
        self.backend.write(offsets::IER, self.config.interrupts);
        Ok(())
    }

    /// Whether the scratch register gives 0x42 and then 0x73 back.
    fn keeps_patterns(&mut self) -> bool
        ensures accesses { Ran B.device (Patterns result) self.old.backend self.new.backend }
        ensures keeps { kept self.new ≡ kept self.old }
    {
        self.keeps(0x42) && self.keeps(0x73)
    }

    /// Whether the scratch register gives a pattern back.
    fn keeps(&mut self, pattern: u8) -> bool
        ensures accesses { (b : ℕ) × (result ≡ (b == pattern)) × Runs B.device (wr 7 pattern ∷ rd 7 b ∷ []) self.old.backend self.new.backend }
        ensures keeps { kept self.new ≡ kept self.old }
    {
        self.backend.write(offsets::SPR, pattern);
        self.backend.read(offsets::SPR) == pattern
    }
}
