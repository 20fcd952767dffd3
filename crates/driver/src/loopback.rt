//! The loopback test.

ghost use Rattle.std.specs.Prelude.{◌≡◌, ℕ, ◌+◌, ◌-◌, ◌≤◌, ◌↔◌, IsTrue, EachIndex, List, [], ◌∷◌, length, None, slice_index, bit_and};
ghost use Rattle.backends.specs.Device.{Runs, rd, wr};
ghost use Rattle.driver.specs.Kept.{kept, verdict};
ghost use Rattle.driver.specs.Loopback.{Part, back as came_back, data_mask, settings, Drains, ByteTested, Echoed, MessageEchoed, MessageTested, Looped, LoopTested, Done, Within, InLoop, Left};
ghost use Rattle.driver.specs.Traces.{Ran, noting};
ghost use Rattle.registers.specs.Refusal.{budget_refusal, loopback_refusal};

use crate::budget::{Budget, Waited};
use crate::uart::Uart16550;
use backends::Backend;
use registers::error::{BudgetError, LoopbackError, Wait};
use registers::lcr::WordLength;
use registers::msr::modem_line_changes;
use registers::{mcr, offsets};

/// The byte that has to come back.
const TEST_BYTE: u8 = 0x42;

/// The message that has to come back: as long as a FIFO.
const TEST_MESSAGE: [u8; 16] = *b"hello world!1337";

/// The data bits of a character of this length.
fn mask_of(length: WordLength) -> u8
    ensures { result ≡ data_mask length }
{
    match length {
        WordLength::FiveBits => 0x1F,
        WordLength::SixBits => 0x3F,
        WordLength::SevenBits => 0x7F,
        WordLength::EightBits => 0xFF,
    }
}

/// Whether the bytes have the same bits under the mask.
fn same_bits(a: &[u8], b: &[u8], mask: u8) -> bool
    requires { length a.now ≡ length b.now }
    ensures { IsTrue result ↔ EachIndex a.now (λ i. bit_and (slice_index a.now i) mask ≡ bit_and (slice_index b.now i) mask) }
{
    a.iter().zip(b).all(|(x, y)| x & mask == y & mask)
}

impl<B: Backend> Uart16550<B> {
    /// Tests the device in loop mode, where it receives what it sends, and puts back what it
    /// changed for that.
    ///
    /// Refuses with 15 where the test byte is not taken, with 16 where another byte comes back, with
    /// 17 where another message does, which `place` then holds, and with 9 where more than `budget`
    /// polls are fruitless.
    pub fn test_loopback(
        &mut self,
        place: &mut [u8; 16],
        budget: u16,
    ) -> Waited<Result<(), LoopbackError>>
        ensures { Ran B.device (LoopTested budget (kept self.old) place.old (verdict loopback_refusal result.result) result.fruitless place.new (kept self.new)) self.old.backend self.new.backend }
    {
        let mut polls = Budget::new(budget);
        let result = self.loop_test(place, &mut polls);
        polls.waited(result)
    }

    // The place and the budget are two loans of the caller's, which no struct joins more plainly.

    /// `test_loopback`, with the budget that it may spend.
    fn loop_test(&mut self, place: &mut [u8; 16], budget: &mut Budget) -> Result<(), LoopbackError>
        requires { budget.old.fruitless ≡ 0 }
        ensures { Ran B.device (LoopTested budget.old.limit (kept self.old) place.old (verdict loopback_refusal result) budget.new.fruitless place.new (kept self.new)) self.old.backend self.new.backend }
    {
        let mcr = self.mcr();
        let ier = self.ier();
        // what is still being sent is neither cut off nor looped
        self.wait_for_transmitter(budget)?;
        // errors that the test makes are not the caller's
        let lsr_saved = self.lsr_saved;
        let msr = self.enter_loop_mode();
        let result = self.test_in_loop_mode(place, budget);
        self.leave_loop_mode(mcr, ier, lsr_saved, msr);
        result
    }

    /// Enters loop mode with all interrupts off, and answers the modem status before it.
    fn enter_loop_mode(&mut self) -> u8
        ensures accesses { Runs B.device (rd 6 result ∷ wr 1 0 ∷ wr 4 0x10 ∷ []) self.old.backend self.new.backend }
        ensures keeps { kept self.new ≡ noting (kept self.old) [] (result ∷ []) }
    {
        let msr = self.read_msr();
        self.backend.write(offsets::IER, 0);
        self.backend.write(offsets::MCR, mcr::LOOP_BACK);
        msr
    }

    /// Leaves loop mode: the registers and the saved line errors are what they were.
    fn leave_loop_mode(&mut self, mcr: u8, ier: u8, lsr_saved: u8, old_msr: u8)
        ensures { Left B.device self.old self.new mcr ier lsr_saved old_msr }
    {
        // the modem lines change here, and no interrupt is to tell of it
        self.backend
            .write(offsets::MCR, mcr & !mcr::OUT_2_INT_ENABLE);
        let msr = self.backend.read(offsets::MSR);
        self.backend.write(offsets::MCR, mcr);
        self.msr_saved |= modem_line_changes(old_msr, msr);
        self.backend.write(offsets::IER, ier);
        self.lsr_saved = lsr_saved;
    }

    /// The test in loop mode.
    fn test_in_loop_mode(
        &mut self,
        place: &mut [u8; 16],
        budget: &mut Budget,
    ) -> Result<(), LoopbackError>
        requires { budget.old.fruitless ≤ budget.old.limit }
        ensures { InLoop B.device self.old self.new (budget.old.limit - budget.old.fruitless) place.old place.new (verdict loopback_refusal result) budget.old.fruitless budget.new.fruitless }
    {
        // this empties FIFOs
        self.configure_fcr();
        self.test_transfers(place, budget)
    }

    /// The receiver is emptied, and then a byte and a message have to come back.
    fn test_transfers(
        &mut self,
        place: &mut [u8; 16],
        budget: &mut Budget,
    ) -> Result<(), LoopbackError>
        requires { budget.old.fruitless ≤ budget.old.limit }
        ensures { Done B.device self.old self.new (Looped (settings (kept self.old)) (budget.old.limit - budget.old.fruitless) place.old (verdict loopback_refusal result) place.new) budget.old.fruitless budget.new.fruitless }
    {
        self.drain(budget)?;
        self.test_byte(budget)?;
        self.test_message(place, budget)
    }

    /// Throws away what was received before the test.
    fn drain(&mut self, budget: &mut Budget) -> Result<(), BudgetError>
        requires { budget.old.fruitless ≤ budget.old.limit }
        ensures limit { budget.new.limit ≡ budget.old.limit }
        ensures room { Within (verdict budget_refusal result) budget.new.fruitless budget.old.limit }
        ensures drained { Done B.device self.old self.new (Drains (budget.old.limit - budget.old.fruitless) (verdict budget_refusal result)) budget.old.fruitless budget.new.fruitless }
    {
        while let Ok(_) = self.try_receive_byte() {
            budget.spend(Wait::Drain)?;
        }
        Ok(())
    }

    /// One byte has to come back.
    fn test_byte(&mut self, budget: &mut Budget) -> Result<(), LoopbackError>
        requires { budget.old.fruitless ≤ budget.old.limit }
        ensures limit { budget.new.limit ≡ budget.old.limit }
        ensures room { Within (verdict loopback_refusal result) budget.new.fruitless budget.old.limit }
        ensures tested { Done B.device self.old self.new (ByteTested (settings (kept self.old)) (budget.old.limit - budget.old.fruitless) (verdict loopback_refusal result)) budget.old.fruitless budget.new.fruitless }
    {
        self.try_send_byte(TEST_BYTE)?;
        let byte = self.receive_waiting(budget, Wait::TestByte)?;
        let mask = mask_of(self.config.data_bits);
        if byte & mask != TEST_BYTE & mask {
            return Err(LoopbackError::UnexpectedLoopbackByte { actual: byte });
        }
        Ok(())
    }

    /// A message has to come back; where another one does, the place gets that.
    fn test_message(
        &mut self,
        place: &mut [u8; 16],
        budget: &mut Budget,
    ) -> Result<(), LoopbackError>
        requires { budget.old.fruitless ≤ budget.old.limit }
        ensures { Done B.device self.old self.new (MessageTested (settings (kept self.old)) (budget.old.limit - budget.old.fruitless) place.old (verdict loopback_refusal result) place.new) budget.old.fruitless budget.new.fruitless }
    {
        let mut back = [0; 16];
        self.echo_message(&mut back, budget)?;
        let bits = mask_of(self.config.data_bits);
        if !same_bits(&back, &TEST_MESSAGE, bits) {
            *place = back;
            return Err(LoopbackError::UnexpectedLoopbackMsg);
        }
        Ok(())
    }

    /// Sends the test message and reads it back. Without FIFOs the receiver holds only one byte.
    fn echo_message(&mut self, back: &mut [u8; 16], budget: &mut Budget) -> Result<(), BudgetError>
        requires { budget.old.fruitless ≤ budget.old.limit }
        ensures { Done B.device self.old self.new (λ ps. MessageEchoed (settings (kept self.old)) (budget.old.limit - budget.old.fruitless) (verdict budget_refusal result) ps × (verdict budget_refusal result ≡ None → back.new ≡ came_back ps)) budget.old.fruitless budget.new.fruitless }
    {
        if self.fifo_enabled {
            return self.echo(&TEST_MESSAGE, back, budget);
        }
        // a zip with the message was tried: of its places the proof knows nothing, of these it does
        for (i, place) in back.iter_mut().enumerate() {
            let mut one = [0];
            self.echo(&[TEST_MESSAGE[i]], &mut one, budget)?;
            *place = one[0];
        }
        Ok(())
    }

    /// Sends these bytes, and then reads as many.
    fn echo(
        &mut self,
        bytes: &[u8],
        back: &mut [u8],
        budget: &mut Budget,
    ) -> Result<(), BudgetError>
        requires room { budget.old.fruitless ≤ budget.old.limit }
        requires lengths { length back.old ≡ length bytes.now }
        ensures limit { budget.new.limit ≡ budget.old.limit }
        ensures room { Within (verdict budget_refusal result) budget.new.fruitless budget.old.limit }
        ensures echoed { Done B.device self.old self.new (λ ps. Echoed (settings (kept self.old)) (budget.old.limit - budget.old.fruitless) bytes.now (verdict budget_refusal result) ps × (verdict budget_refusal result ≡ None → back.new ≡ came_back ps)) budget.old.fruitless budget.new.fruitless }
    {
        self.send_all(bytes, budget, Wait::TestMessageSent).result?;
        self.fill(back, budget, Wait::TestMessageReceived).result
    }
}
