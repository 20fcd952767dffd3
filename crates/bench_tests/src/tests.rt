//! The runs.

use crate::tables::*;
use backends::Backend;
use bench::{Bench, BenchOptions, ModemLines, Plug};
use std::alloc::Global;
use std::process::Abort;
use std::test::*;

/// A bench whose tape starts on access 2 and brings all at once: bytes 1 to n.
fn burst(heap: Global, n: u8) -> Result<Bench, Fail> {
    let entries = (1..=n).map(|byte| plain(byte, if byte == 1 { 2 } else { 0 }));
    Ok(Bench::new(options(1), entries.collect(heap)?, vec![in heap]?))
}

#[test]
fn sixteen_fit(rt: HostRuntime) -> Result<(), Fail> {
    let mut b = burst(rt.alloc(), 16)?;
    run(
        &rt,
        &mut b,
        &[w(2, 0x01), r(5, 0x61), r(5, 0x61), r(2, 0xC1)],
    )?;
    for byte in 1..=16 {
        assert_eq!(rt; b.read(0), byte);
    }
    assert_eq!(rt; b.counts().lost, 0);
    run(&rt, &mut b, &[r(5, 0x60), r(0, 0x00)])
}

#[test]
fn the_seventeenth_is_lost(rt: HostRuntime) -> Result<(), Fail> {
    let mut b = burst(rt.alloc(), 17)?;
    run(&rt, &mut b, &[w(2, 0x01), r(5, 0x63), r(5, 0x61)])?;
    assert_eq!(rt; b.counts().lost, 1);
    assert_eq!(rt; b.arrived().len(), 17);
    for byte in 1..=16 {
        assert_eq!(rt; b.read(0), byte);
    }
    run(&rt, &mut b, &[r(5, 0x60)])
}

// both arrive on the first access, and the second replaces the first
#[test]
fn two_on_one_access(rt: HostRuntime) -> Result<(), Fail> {
    let tape = [plain(0x41, 0), marked(0x42, true, false, 0)];
    let mut b = bench(rt.alloc(), options(1), &tape, 0)?;
    run(
        &rt,
        &mut b,
        &[r(5, 0x67), r(0, 0x42), r(0, 0x00), r(5, 0x60)],
    )?;
    assert_eq!(rt; b.counts().lost, 1);
    assert_eq!(rt; b.counts().parity, 1);
    Ok(())
}

// one character waits, one byte is held and one turns: turning the FIFOs off strikes all
#[test]
fn fifos_turned_off(rt: HostRuntime) -> Result<(), Fail> {
    let tape = [plain(0x41, 2)];
    let mut b = bench(rt.alloc(), options(65_535), &tape, 0)?;
    run(
        &rt,
        &mut b,
        &[
            w(2, 0x01),
            w(0, 0x55),
            r(5, 0x01),
            w(4, 0x10),
            w(0, 0x66),
            r(5, 0x01),
        ],
    )?;
    assert_eq!(rt; b.waiting(), 1);
    assert_eq!(rt; b.held(), 1);
    run(
        &rt,
        &mut b,
        &[w(2, 0x00), r(5, 0x60), r(0, 0x00), r(2, 0x01)],
    )?;
    assert_eq!(rt; b.held(), 0);
    assert_eq!(rt; b.arrived().len(), 1);
    Ok(())
}

// beats on accesses 3 and 6: on the first nothing leaves, since it is in loop mode
#[test]
fn loop_mode_with_a_held_byte(rt: HostRuntime) -> Result<(), Fail> {
    let mut b = bench(rt.alloc(), options(3), &[], 1)?;
    run(
        &rt,
        &mut b,
        &[w(0, 0x31), w(4, 0x10), r(5, 0x00), r(4, 0x10), w(4, 0x00)],
    )?;
    assert_eq!(rt; b.held(), 1);
    run(&rt, &mut b, &[r(5, 0x60)])?;
    assert_eq!(rt; b.left().len(), 1);
    Ok(())
}

#[test]
fn a_byte_comes_round(rt: HostRuntime) -> Result<(), Fail> {
    let mut b = bench(rt.alloc(), options(1), &[], 0)?;
    run(
        &rt,
        &mut b,
        &[w(4, 0x10), w(0, 0x5A), r(5, 0x61), r(0, 0x5A), r(5, 0x60)],
    )?;
    assert_eq!(rt; b.arrived().len(), 0);
    Ok(())
}

// accesses 2 and 3 are in loop mode: the third that counts is access 5
#[test]
fn loop_mode_stops_the_gaps(rt: HostRuntime) -> Result<(), Fail> {
    let tape = [plain(0x41, 3)];
    let mut b = bench(rt.alloc(), options(1), &tape, 0)?;
    run(
        &rt,
        &mut b,
        &[
            w(4, 0x10),
            r(5, 0x60),
            w(4, 0x00),
            r(5, 0x60),
            r(5, 0x61),
            r(0, 0x41),
        ],
    )
}

fn leaves_on(rt: &impl Abort, heap: Global, pace: u16, access: u32) -> Result<(), Fail> {
    let mut b = bench(heap, options(pace), &[], 1)?;
    b.write(0, 0x31);
    for _ in 2..access {
        assert_eq!(rt; b.read(5), 0x00);
    }
    assert_eq!(rt; b.read(5), 0x60);
    Ok(())
}

#[test]
fn paces(rt: HostRuntime) -> Result<(), Fail> {
    leaves_on(&rt, rt.alloc(), 0, 2)?;
    leaves_on(&rt, rt.alloc(), 1, 2)?;
    leaves_on(&rt, rt.alloc(), 65_535, 65_535)
}

#[test]
fn a_full_store(rt: HostRuntime) -> Result<(), Fail> {
    let mut b = bench(rt.alloc(), options(1), &[], 1)?;
    run(
        &rt,
        &mut b,
        &[w(0, 0x31), w(0, 0x32), r(5, 0x00), r(5, 0x00)],
    )?;
    assert_eq!(rt; b.left().len(), 1);
    assert_eq!(rt; b.held(), 1);
    Ok(())
}

// the second comes with the first, the third on the next access, the fourth two after that
#[test]
fn gaps(rt: HostRuntime) -> Result<(), Fail> {
    let tape = [
        plain(0x41, 2),
        plain(0x42, 0),
        plain(0x43, 1),
        plain(0x44, 2),
    ];
    let mut b = bench(rt.alloc(), options(1), &tape, 0)?;
    run(&rt, &mut b, &[w(2, 0x01), r(5, 0x61)])?;
    assert_eq!(rt; b.waiting(), 2);
    run(&rt, &mut b, &[r(0, 0x41)])?;
    assert_eq!(rt; b.waiting(), 2);
    run(&rt, &mut b, &[r(0, 0x42)])?;
    assert_eq!(rt; b.waiting(), 1);
    run(&rt, &mut b, &[r(5, 0x61)])?;
    assert_eq!(rt; b.waiting(), 2);
    Ok(())
}

// a mark counts as its character becomes the first
#[test]
fn marks(rt: HostRuntime) -> Result<(), Fail> {
    let tape = [marked(0x41, true, false, 2), marked(0x42, false, true, 0)];
    let mut b = bench(rt.alloc(), options(1), &tape, 0)?;
    run(
        &rt,
        &mut b,
        &[
            w(2, 0x01),
            r(5, 0xE5),
            r(5, 0xE1),
            r(0, 0x41),
            r(5, 0xE9),
            r(0, 0x42),
            r(5, 0x60),
        ],
    )
}

// CTS, DSR and the ring are set; in loop mode the lines are what the modem control puts out
#[test]
fn modem_lines(rt: HostRuntime) -> Result<(), Fail> {
    let lines = ModemLines {
        clear_to_send: true,
        data_set_ready: true,
        ring_indicator: true,
        carrier_detect: false,
    };
    let with = BenchOptions {
        fifos: false,
        scratch: false,
        lines,
        ..options(1)
    };
    let mut b = bench(rt.alloc(), with, &[], 0)?;
    run(
        &rt,
        &mut b,
        &[
            r(6, 0x70),
            w(4, 0x10),
            r(6, 0x07),
            r(6, 0x00),
            w(4, 0x1F),
            r(6, 0xFB),
            r(6, 0xF0),
        ],
    )?;
    run(&rt, &mut b, &[w(4, 0x00), r(6, 0x78), r(6, 0x70)])
}

#[test]
fn registers_keep(rt: HostRuntime) -> Result<(), Fail> {
    let mut b = bench(rt.alloc(), options(1), &[], 0)?;
    run(
        &rt,
        &mut b,
        &[w(7, 0x12), r(7, 0x12), w(1, 0x05), r(1, 0x05), r(8, 0xFF)],
    )?;
    run(
        &rt,
        &mut b,
        &[
            w(3, 0x80),
            w(0, 0x0C),
            w(1, 0x01),
            r(0, 0x0C),
            r(1, 0x01),
            r(3, 0x80),
        ],
    )?;
    run(
        &rt,
        &mut b,
        &[w(3, 0x03), r(0, 0x00), r(1, 0x05), r(5, 0x60)],
    )
}

#[test]
fn without_fifos_and_scratch(rt: HostRuntime) -> Result<(), Fail> {
    let with = BenchOptions {
        fifos: false,
        scratch: false,
        ..options(1)
    };
    let mut b = bench(rt.alloc(), with, &[], 0)?;
    run(
        &rt,
        &mut b,
        &[w(2, 0x01), r(2, 0x01), w(7, 0x12), r(7, 0xFF)],
    )
}

// the store has room for two bytes, and the third stays held
#[test]
fn a_plug(rt: HostRuntime) -> Result<(), Fail> {
    let mut p = Plug::new(quiet(), vec![in rt.alloc(); 0; 2]?);
    run(
        &rt,
        &mut p,
        &[
            w(2, 0x01),
            w(0, 0x31),
            w(0, 0x32),
            w(0, 0x33),
            r(5, 0x01),
            r(0, 0x31),
            r(0, 0x32),
            r(5, 0x00),
        ],
    )?;
    assert_eq!(rt; p.carried().len(), 2);
    assert_eq!(rt; p.held(), 1);
    assert_eq!(rt; p.waiting(), 0);
    Ok(())
}
