//! The edges of the questions about a base address and a stride.

use backends::{MmioPlace, PortPlace};
use registers::error::InvalidAddressError;
use registers::error::InvalidAddressError::{InvalidBaseAddress, InvalidStride};

/// Why a place is refused, if it is.
type Answer = Option<InvalidAddressError>;

/// A base and a stride with the answer, worked out by hand. Eight registers at stride s end 7 × s
/// behind the base: 7 at stride 1, 14 at 2, 448 at 64, 896 at 128.
const PLACES: [(u64, u8, Answer); 18] = [
    // the smallest base
    (0, 0, Some(InvalidStride(0))),
    (0, 1, None),
    (0, 2, None),
    (0, 3, Some(InvalidStride(3))),
    (0, 64, None),
    (0, 128, None),
    (0, 255, Some(InvalidStride(255))),
    // the largest base that fits, and one past it
    (18446744073709551608, 1, None),
    (
        18446744073709551609,
        1,
        Some(InvalidBaseAddress(18446744073709551609)),
    ),
    (18446744073709551601, 2, None),
    (
        18446744073709551602,
        2,
        Some(InvalidBaseAddress(18446744073709551602)),
    ),
    (18446744073709551167, 64, None),
    (
        18446744073709551168,
        64,
        Some(InvalidBaseAddress(18446744073709551168)),
    ),
    (18446744073709550719, 128, None),
    (
        18446744073709550720,
        128,
        Some(InvalidBaseAddress(18446744073709550720)),
    ),
    // the largest address, where the stride is asked first
    (18446744073709551615, 0, Some(InvalidStride(0))),
    (
        18446744073709551615,
        1,
        Some(InvalidBaseAddress(18446744073709551615)),
    ),
    (18446744073709551615, 255, Some(InvalidStride(255))),
];

/// Ports with the answer: the last register of the highest place has the port 65535.
const PORTS: [(u16, Answer); 5] = [
    (0, None),
    (0x3F8, None),
    (65528, None),
    (65529, Some(InvalidBaseAddress(65529))),
    (65535, Some(InvalidBaseAddress(65535))),
];

#[test]
fn mmio(rt: HostRuntime) {
    for (base, stride, answer) in PLACES {
        assert_eq!(rt; MmioPlace::new(base, stride).err(), answer);
    }
}

#[test]
fn ports(rt: HostRuntime) {
    for (base, answer) in PORTS {
        assert_eq!(rt; PortPlace::new(base).err(), answer);
    }
}
