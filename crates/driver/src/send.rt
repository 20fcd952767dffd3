//! Sending.

ghost use Rattle.std.specs.Prelude.{◌≡◌, ℕ, ◌+◌, ◌-◌, ◌≤◌, [], ◌∷◌, is_ok, if◌then◌else◌, Some, None};
ghost use Rattle.driver.specs.Kept.{kept, verdict};
ghost use Rattle.driver.specs.Sends.{AskedToSend, Sent, SentExactly, burst as burst_of};
ghost use Rattle.registers.specs.Refusal.{send_refusal, budget_refusal, refusal};
ghost use Rattle.registers.specs.declared.error.Wait.TheVariants.{Send};

use crate::budget::{Budget, Transferred};
use crate::uart::Uart16550;
use backends::Backend;
use registers::error::{BudgetError, ByteSendError, Wait};
use registers::flags::contains;
use registers::{FIFO_SIZE, lsr, mcr, msr, offsets};

impl<B: Backend> Uart16550<B> {
    /// Whether something may be sent: 11 where the transmitter holds characters, 12 where the
    /// remote's clear-to-send line is checked and not shown.
    pub fn ready_to_send(&mut self) -> Result<(), ByteSendError>
        ensures { AskedToSend B.device self.old self.new (verdict send_refusal result) }
    {
        if !contains(self.read_lsr(), lsr::THR_EMPTY) {
            return Err(ByteSendError::NoCapacity);
        }
        if !self.config.check_cts_before_sending {
            return Ok(());
        }
        // in loop mode the line means nothing
        if contains(self.backend.read(offsets::MCR), mcr::LOOP_BACK) {
            return Ok(());
        }
        if !contains(self.read_msr(), msr::CTS) {
            return Err(ByteSendError::RemoteNotClearToSend);
        }
        Ok(())
    }

    /// Sends the first bytes of the buffer, as many as the transmitter takes at once, and answers
    /// how many those were: 0 where nothing may be sent, or the buffer is empty.
    pub fn send_bytes(&mut self, buffer: &[u8]) -> usize
        ensures { Sent B.device self.old self.new buffer.now result }
    {
        if buffer.is_empty() {
            return 0;
        }
        let Ok(()) = self.ready_to_send() else {
            return 0;
        };
        let count = self.burst().min(buffer.len());
        for byte in &buffer[0..count] {
            self.backend.write(offsets::DATA, *byte);
        }
        count
    }

    /// How many bytes the transmitter takes at once when it is empty.
    fn burst(&self) -> usize
        ensures { result ≡ burst_of (kept self.now) }
    {
        if self.fifo_enabled { FIFO_SIZE } else { 1 }
    }

    /// Sends the whole buffer, waiting for the transmitter. Where more than `budget` attempts take
    /// nothing it refuses with 9.
    pub fn send_bytes_exact(&mut self, bytes: &[u8], budget: u16) -> Transferred
        ensures { SentExactly B.device self.old self.new bytes.now budget Send (verdict budget_refusal result.result) result.fruitless result.moved }
    {
        self.send_all(bytes, &mut Budget::new(budget), Wait::Send)
    }

    /// Sends the whole buffer within a budget that may be partly spent.
    pub(crate) fn send_all(&mut self, bytes: &[u8], budget: &mut Budget, wait: Wait) -> Transferred
        requires { budget.old.fruitless ≤ budget.old.limit }
        ensures limit { budget.new.limit ≡ budget.old.limit }
        ensures spent { budget.old.fruitless ≤ budget.new.fruitless }
        ensures counted { result.fruitless ≡ budget.new.fruitless }
        ensures sent { SentExactly B.device self.old self.new bytes.now (budget.old.limit - budget.old.fruitless) wait (verdict budget_refusal result.result) (budget.new.fruitless - budget.old.fruitless) result.moved }
    {
        let mut moved = 0;
        // an index and no iterator: each turn hands on the rest of the slice, from what was taken
        while moved < bytes.len() {
            let count = self.send_bytes(&bytes[moved..]);
            if count == 0 {
                if let Err(refusal) = budget.spend(wait) {
                    return budget.transferred(moved, Err(refusal));
                }
            }
            moved += count;
        }
        budget.transferred(moved, Ok(()))
    }

    /// Sends one byte; 11 where nothing may be sent, for whatever reason.
    pub fn try_send_byte(&mut self, byte: u8) -> Result<(), ByteSendError>
        ensures sent { Sent B.device self.old self.new (byte ∷ []) (if is_ok result then 1 else 0) }
        ensures answer { verdict send_refusal result ≡ (if is_ok result then None else Some (refusal 11 [])) }
    {
        match self.send_bytes(&[byte]) {
            0 => Err(ByteSendError::NoCapacity),
            _ => Ok(()),
        }
    }
}
