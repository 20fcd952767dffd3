//! What a caller may build on the chips: traits of its own above `Backend` and `Chip`.

use crate::tables::*;
use backends::{Backend, Chip};
use bench::{Bench, Plug};
use std::process::Abort;
use std::test::*;

/// A device with a name.
trait Named: Backend {
    /// Its name.
    fn name(&self) -> u8;
}

impl Named for Bench {
    fn name(&self) -> u8 {
        b'b'
    }
}

impl Named for Plug {
    fn name(&self) -> u8 {
        b'p'
    }
}

/// A chip that can be asked how many characters wait.
trait Asked: Chip {
    /// How many characters wait.
    fn asked(&self) -> u8;
}

impl Asked for Bench {
    fn asked(&self) -> u8 {
        self.waiting()
    }
}

impl Asked for Plug {
    fn asked(&self) -> u8 {
        self.waiting()
    }
}

/// The line status of a device with this name.
fn status_of<N: Named>(rt: &impl Abort, device: &mut N, name: u8, status: u8) -> Result<(), Fail> {
    assert_eq!(rt; device.name(), name);
    assert_eq!(rt; device.read(5), status);
    Ok(())
}

/// So many characters wait in a chip.
fn asked_of<A: Asked>(rt: &impl Abort, chip: &A, waiting: u8) -> Result<(), Fail> {
    assert_eq!(rt; chip.asked(), waiting);
    Ok(())
}

// one character arrives on the first access; the byte written to the plug comes back on the next
#[test]
fn traits_above_the_chips(rt: HostRuntime) -> Result<(), Fail> {
    let mut b = bench(rt.alloc(), options(1), &[plain(0x41, 0)], 0)?;
    status_of(&rt, &mut b, b'b', 0x61)?;
    asked_of(&rt, &b, 1)?;
    let mut p = Plug::new(quiet(), vec![in rt.alloc(); 0; 1]?);
    asked_of(&rt, &p, 0)?;
    p.write(0, 0x42);
    status_of(&rt, &mut p, b'p', 0x61)?;
    asked_of(&rt, &p, 1)
}
