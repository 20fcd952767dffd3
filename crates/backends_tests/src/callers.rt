//! What a caller may write and rely on: the table of a recorder by its name, and divisors compared by
//! their numbers.

ghost use Rattle.registers.specs.Divisors.{divisor_value};
ghost use Rattle.std.specs.Prelude.{◌≡◌, nat_eq};

use backends::{AccessLog, Backend, Recorder, Script};
use registers::divisors::Divisor;
use std::test::*;

/// How many accesses a table keeps.
fn kept(log: &AccessLog) -> usize {
    log.recorded().len()
}

/// Whether two divisors are the same number.
fn same(a: Divisor, b: Divisor) -> bool
    ensures { result ≡ nat_eq (divisor_value a) (divisor_value b) }
{
    a == b
}

#[test]
fn a_table_by_its_name(rt: HostRuntime) -> Result<(), Fail> {
    let empty: AccessLog = AccessLog::new();
    assert_eq!(rt; kept(&empty), 0);
    let mut recorder = Recorder::new(Script::new(b"\x60"));
    assert_eq!(rt; recorder.read(5), 0x60);
    recorder.write(0, 0x41);
    assert_eq!(rt; kept(recorder.log()), 2);
    Ok(())
}

#[test]
fn divisors_by_number(rt: HostRuntime) -> Result<(), Fail> {
    assert!(rt; same(Divisor::Divisor12, Divisor::Divisor12));
    assert!(rt; !same(Divisor::Divisor12, Divisor::Divisor1));
    Ok(())
}
