//! The steps of `init`.

ghost use Rattle.std.specs.Prelude.{◌≡◌, ℕ, ◌+◌, ◌≤◌, [], ◌∷◌, Ok, Err};
ghost use Rattle.backends.specs.Device.{Runs, rd, wr};
ghost use Rattle.driver.specs.Kept.{kept, with_fifo, with_saved};
ghost use Rattle.driver.specs.Traces.{Ran, line_set_up, FifoSetUp, Discarded, Cleared, SeenEmpty, StayedBusy, Opened};
ghost use Rattle.registers.specs.declared.error.Wait.TheVariants.{Transmitter};

use crate::budget::Budget;
use crate::uart::Uart16550;
use backends::Backend;
use registers::error::{BudgetError, Wait};
use registers::flags::contains;
use registers::{FIFO_SIZE, fcr, isr, lcr, lsr, mcr, offsets};

impl<B: Backend> Uart16550<B> {
    /// Writes the divisor and the frame, with all interrupts off.
    pub(crate) fn set_line(&mut self, divisor: u16)
        ensures accesses { Runs B.device (line_set_up self.old.config divisor) self.old.backend self.new.backend }
        ensures keeps { kept self.new ≡ kept self.old }
    {
        self.backend.write(offsets::LCR, 0);
        self.backend.write(offsets::IER, 0);
        // the divisor's bytes stand behind this bit
        self.backend.write(offsets::LCR, lcr::DLAB);
        let [high, low] = divisor.to_be_bytes();
        self.backend.write(offsets::DLL, low);
        self.backend.write(offsets::DLM, high);
        self.backend.write(offsets::LCR, 0);
        let frame = lcr::frame(
            self.config.data_bits,
            self.config.extra_stop_bits,
            self.config.parity,
        );
        self.backend.write(offsets::LCR, frame);
    }

    /// Sets the FIFOs up, and looks whether they are on: a 16450 has none.
    pub(crate) fn configure_fcr(&mut self)
        ensures accesses { Ran B.device (FifoSetUp self.old.config.fifo_trigger_level self.new.fifo_enabled) self.old.backend self.new.backend }
        ensures keeps { kept self.new ≡ with_fifo (kept self.old) self.new.fifo_enabled }
    {
        let level = self.config.fifo_trigger_level;
        self.backend.write(offsets::FCR, fcr::fifo_control(level));
        match level {
            None => self.fifo_enabled = false,
            Some(_) => self.fifo_enabled = isr::fifo_enabled(self.backend.read(offsets::ISR)),
        }
    }

    /// Reads stale characters, at most one more than a FIFO holds. Without FIFOs nothing else
    /// clears them.
    pub(crate) fn discard_received(&mut self)
        ensures accesses { Ran B.device (Discarded 17) self.old.backend self.new.backend }
        ensures keeps { kept self.new ≡ kept self.old }
    {
        for _ in 0..=FIFO_SIZE {
            if !contains(self.backend.read(offsets::LSR), lsr::DATA_READY) {
                return;
            }
            let _ = self.backend.read(offsets::DATA);
        }
    }

    /// Waits for the transmitter to be empty, so that what is still being sent is not cut off.
    pub(crate) fn wait_for_transmitter(&mut self, budget: &mut Budget) -> Result<(), BudgetError>
        requires { budget.old.fruitless ≤ budget.old.limit }
        ensures limit { budget.new.limit ≡ budget.old.limit }
        ensures answer { elim result [
          | Ok u ↦ (budget.new.fruitless ≤ budget.old.limit)
              × SeenEmpty B.device self.old self.new budget.old.fruitless budget.new.fruitless
          | Err e ↦ (e.wait ≡ Transmitter) × (budget.new.fruitless ≡ budget.old.limit + 1)
              × StayedBusy B.device self.old self.new budget.old.fruitless budget.new.fruitless
        ] }
    {
        while !contains(self.read_lsr(), lsr::TRANSMITTER_EMPTY) {
            budget.spend(Wait::Transmitter)?;
        }
        Ok(())
    }

    /// Clears what the status registers still show, and the saved bits.
    pub(crate) fn clear_status(&mut self)
        ensures accesses { Ran B.device Cleared self.old.backend self.new.backend }
        ensures keeps { kept self.new ≡ with_saved (kept self.old) 0 0 }
    {
        let _ = self.backend.read(offsets::LSR);
        let _ = self.backend.read(offsets::ISR);
        let _ = self.backend.read(offsets::MSR);
        self.lsr_saved = 0;
        self.msr_saved = 0;
    }

    /// What `init` does between the presence check and its wait.
    pub(crate) fn prepare(&mut self, divisor: u16)
        ensures accesses { Ran B.device (Opened self.old.config divisor self.new.fifo_enabled) self.old.backend self.new.backend }
        ensures keeps { kept self.new ≡ with_fifo (kept self.old) self.new.fifo_enabled }
    {
        self.set_line(divisor);
        self.configure_fcr();
        // before the modem lines tell the remote that it may send
        self.discard_received();
        self.backend
            .write(offsets::MCR, mcr::DTR | mcr::RTS | mcr::OUT_2_INT_ENABLE);
    }
}
