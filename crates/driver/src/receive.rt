//! Receiving.

ghost use Rattle.std.specs.Prelude.{◌≡◌, ℕ, ◌+◌, ◌-◌, ◌≤◌, List, [], ◌∷◌};
ghost use Rattle.backends.specs.Device.{Runs, rd};
ghost use Rattle.driver.specs.Kept.{kept, verdict, got_by};
ghost use Rattle.driver.specs.Receives.{Try, misses, Made, WaitsFor, AskedReady, Received, ReceivedOne, ReceivedExactly};
ghost use Rattle.registers.specs.Refusal.{receive_refusal, budget_refusal};
ghost use Rattle.registers.specs.declared.error.Wait.TheVariants.{Receive};
ghost use Rattle.std.specs.Result.{result_ok};

use crate::budget::{Budget, Transferred};
use crate::uart::Uart16550;
use backends::Backend;
use registers::error::{BudgetError, ByteReceiveError, Wait};
use registers::flags::contains;
use registers::{lsr, offsets};

impl<B: Backend> Uart16550<B> {
    /// Whether a character waits; else 10.
    pub fn ready_to_receive(&mut self) -> Result<(), ByteReceiveError>
        ensures { AskedReady B.device self.old self.new (verdict receive_refusal result) }
    {
        if !contains(self.read_lsr(), lsr::DATA_READY) {
            return Err(ByteReceiveError);
        }
        Ok(())
    }

    /// The next character, where one waits; else 10.
    pub fn try_receive_byte(&mut self) -> Result<u8, ByteReceiveError>
        ensures { ReceivedOne B.device self.old self.new (result_ok result) }
    {
        self.ready_to_receive()?;
        Ok(self.backend.read(offsets::DATA))
    }

    /// Fills the buffer from its front with characters that wait, and answers how many there were.
    /// It stops where none waits; the places after that keep what they hold.
    pub fn receive_bytes(&mut self, buffer: &mut [u8]) -> usize
        ensures { Received B.device self.old self.new buffer.old buffer.new result }
    {
        for (count, place) in buffer.iter_mut().enumerate() {
            let Ok(byte) = self.try_receive_byte() else {
                return count;
            };
            *place = byte;
        }
        buffer.len()
    }

    /// Fills the whole buffer, waiting for characters. Where more than `budget` tries find none it
    /// refuses with 9, and the places that got none keep what they hold.
    pub fn receive_bytes_exact(&mut self, buffer: &mut [u8], budget: u16) -> Transferred
        ensures { ReceivedExactly B.device self.old self.new budget Receive buffer.old buffer.new (verdict budget_refusal result.result) result.fruitless result.moved }
    {
        self.fill(buffer, &mut Budget::new(budget), Wait::Receive)
    }

    /// Fills the whole buffer within a budget that may be partly spent.
    pub(crate) fn fill(&mut self, buffer: &mut [u8], budget: &mut Budget, wait: Wait) -> Transferred
        requires { budget.old.fruitless ≤ budget.old.limit }
        ensures limit { budget.new.limit ≡ budget.old.limit }
        ensures spent { budget.old.fruitless ≤ budget.new.fruitless }
        ensures counted { result.fruitless ≡ budget.new.fruitless }
        ensures filled { ReceivedExactly B.device self.old self.new (budget.old.limit - budget.old.fruitless) wait buffer.old buffer.new (verdict budget_refusal result.result) (budget.new.fruitless - budget.old.fruitless) result.moved }
    {
        for (moved, place) in buffer.iter_mut().enumerate() {
            match self.receive_waiting(budget, wait) {
                Ok(byte) => *place = byte,
                Err(refusal) => return budget.transferred(moved, Err(refusal)),
            }
        }
        budget.transferred(buffer.len(), Ok(()))
    }

    /// Waits for one character.
    pub(crate) fn receive_waiting(
        &mut self,
        budget: &mut Budget,
        wait: Wait,
    ) -> Result<u8, BudgetError>
        requires { budget.old.fruitless ≤ budget.old.limit }
        ensures limit { budget.new.limit ≡ budget.old.limit }
        ensures waited { (ts : List Try) × WaitsFor (budget.old.limit - budget.old.fruitless) wait (verdict budget_refusal result) ts (got_by result)
            × Made B.device self.old self.new ts
            × (budget.new.fruitless ≡ budget.old.fruitless + misses ts) }
    {
        loop {
            if let Ok(byte) = self.try_receive_byte() {
                return Ok(byte);
            }
            budget.spend(wait)?;
        }
    }
}
