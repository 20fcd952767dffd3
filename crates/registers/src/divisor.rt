//! The divisor formula: 16 × (prescaler + 1) × rate × divisor = frequency.

ghost use Rattle.std.specs.Prelude.{◌≡◌, ℕ, ◌+◌, ◌*◌, ◌<◌, ◌≤◌, Some, None, Ok, Err};
ghost use Rattle.registers.specs.Divisor.{DivisorOf, NoDivisor, prescaled};
ghost use Rattle.registers.specs.Examples.{WorkedExamples};
ghost use Rattle.registers.specs.Quotient.{IsQuotient, NoQuotientFor, quotient_refusal};
ghost use Rattle.registers.specs.Rate.{RateOf, NoRate};
ghost use Rattle.registers.specs.Refusal.{baud_refusal, divisor_refusal};

use crate::error::{
    InvalidBaudRateError, InvalidDivisorError, NonIntegerBaudRateError, NonIntegerDivisorError,
};

/// The usual clock of a 16550, 1.8432 MHz.
pub const CLK_FREQUENCY_HZ: u32 = 1_843_200;
/// The largest divisor that its two bytes hold.
pub const MAX_DIVISOR: u32 = 65_535;

/// The formula with one number wanted: 16 × (prescaler + 1) × factor × quotient = frequency.
#[derive(Clone, Copy)]
struct Formula {
    frequency: u32,
    factor: u32,
    prescaler_division_factor: Option<u32>,
}

/// Why there is no quotient: the question that is answered no.
#[derive(Clone, Copy)]
enum QuotientError {
    ZeroFrequency,
    ZeroFactor,
    InvalidPrescaler,
    NonInteger(Formula),
}

impl From<QuotientError> for InvalidDivisorError {
    ghost from_gives = { λ e r. divisor_refusal r ≡ quotient_refusal 4 6 e };

    fn from(e: QuotientError) -> Self {
        match e {
            QuotientError::ZeroFrequency => Self::ZeroFrequency,
            QuotientError::ZeroFactor => Self::ZeroBaudRate,
            QuotientError::InvalidPrescaler => Self::InvalidPrescaler,
            QuotientError::NonInteger(formula) => Self::NonInteger(NonIntegerDivisorError {
                frequency: formula.frequency,
                baud_rate: formula.factor,
                prescaler_division_factor: formula.prescaler_division_factor,
            }),
        }
    }
}

impl From<QuotientError> for InvalidBaudRateError {
    ghost from_gives = { λ e r. baud_refusal r ≡ quotient_refusal 18 19 e };

    fn from(e: QuotientError) -> Self {
        match e {
            QuotientError::ZeroFrequency => Self::ZeroFrequency,
            QuotientError::ZeroFactor => Self::ZeroDivisor,
            QuotientError::InvalidPrescaler => Self::InvalidPrescaler,
            QuotientError::NonInteger(formula) => Self::NonInteger(NonIntegerBaudRateError {
                frequency: formula.frequency,
                divisor: formula.factor,
                prescaler_division_factor: formula.prescaler_division_factor,
            }),
        }
    }
}

impl Formula {
    /// The quotient. Refuses by the first question that is answered no.
    fn quotient(self) -> Result<u32, QuotientError>
        ensures { elim result [
          | Ok n ↦ IsQuotient self n
          | Err e ↦ NoQuotientFor self e
        ] }
    {
        let Self {
            frequency,
            factor,
            prescaler_division_factor,
        } = self;
        if frequency == 0 {
            return Err(QuotientError::ZeroFrequency);
        }
        if factor == 0 {
            return Err(QuotientError::ZeroFactor);
        }
        let prescaler = prescaler_division_factor.unwrap_or(0);
        if prescaler > 15 {
            return Err(QuotientError::InvalidPrescaler);
        }
        let unit = 16 * (u64::from(prescaler) + 1) * u64::from(factor);
        let n = u64::from(frequency) / unit;
        if n * unit != u64::from(frequency) {
            return Err(QuotientError::NonInteger(self));
        }
        Ok(n as u32)
    }
}

/// The divisor for a rate: the d from 1 to 65,535 with 16 × (p + 1) × rate × d = frequency.
///
/// Refuses with 3, 4, 5, 6 or 7, the first that applies.
pub fn calc_divisor(
    frequency: u32,
    baud_rate: u32,
    prescaler_division_factor: Option<u32>,
) -> Result<u16, InvalidDivisorError>
    ensures { elim result [
      | Ok d ↦ DivisorOf frequency baud_rate prescaler_division_factor d
      | Err e ↦ NoDivisor frequency baud_rate prescaler_division_factor (divisor_refusal e)
    ] }
{
    let formula = Formula {
        frequency,
        factor: baud_rate,
        prescaler_division_factor,
    };
    let divisor = formula.quotient()?;
    // a test and no `try_from`: the largest divisor has the Rust's name
    if divisor > MAX_DIVISOR {
        return Err(InvalidDivisorError::OutOfRange { divisor });
    }
    Ok(divisor as u16)
}

/// The rate of a divisor: the integer rate with 16 × (p + 1) × rate × d = frequency.
///
/// Refuses with 3, 18, 5 or 19, the first that applies.
pub fn calc_baud_rate(
    frequency: u32,
    divisor: u32,
    prescaler_division_factor: Option<u32>,
) -> Result<u32, InvalidBaudRateError>
    ensures { elim result [
      | Ok n ↦ RateOf frequency divisor prescaler_division_factor n
      | Err e ↦ NoRate frequency divisor prescaler_division_factor (baud_refusal e)
    ] }
{
    let formula = Formula {
        frequency,
        factor: divisor,
        prescaler_division_factor,
    };
    let rate = formula.quotient()?;
    Ok(rate)
}

/// The frequency of a rate and a divisor, by the formula, whatever their size.
pub fn calc_frequency(baud_rate: u32, divisor: u32, prescaler_division_factor: Option<u32>) -> u128
    ensures { result ≡ 16 * (prescaled prescaler_division_factor + 1) * baud_rate * divisor }
{
    let prescaler = u128::from(prescaler_division_factor.unwrap_or(0));
    16 * (prescaler + 1) * u128::from(baud_rate) * u128::from(divisor)
}

/// How many examples of the formula are worked in `specs/Examples.antt`, all of them proved.
pub fn worked_examples() -> u8
    ensures { WorkedExamples }
{
    7
}

#[cfg(test)]
mod tests {
    use super::*;
    use std::test::Fail;

    #[test]
    fn divisors_at_the_usual_clock(rt: HostRuntime) -> Result<(), Fail> {
        assert_eq!(rt; calc_divisor(CLK_FREQUENCY_HZ, 9_600, None)?, 12);
        assert_eq!(rt; calc_divisor(CLK_FREQUENCY_HZ, 115_200, None)?, 1);
        assert_eq!(rt; calc_divisor(CLK_FREQUENCY_HZ, 7_200, Some(15))?, 1);
        Ok(())
    }

    #[test]
    fn refusals_at_the_usual_clock(rt: HostRuntime) {
        let no_integer = InvalidDivisorError::NonInteger(NonIntegerDivisorError {
            frequency: CLK_FREQUENCY_HZ,
            baud_rate: 110,
            prescaler_division_factor: None,
        });
        assert_eq!(rt; calc_divisor(CLK_FREQUENCY_HZ, 110, None), Err(no_integer));
        let too_large = InvalidDivisorError::OutOfRange { divisor: 115_200 };
        assert_eq!(rt; calc_divisor(CLK_FREQUENCY_HZ, 1, None), Err(too_large));
        let prescaler = InvalidDivisorError::InvalidPrescaler;
        assert_eq!(rt;
            calc_divisor(CLK_FREQUENCY_HZ, 7_200, Some(16)),
            Err(prescaler)
        );
    }
}
