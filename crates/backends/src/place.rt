//! Where the eight registers of a device may stand.

ghost use Rattle.std.specs.Prelude.{◌≡◌, ℕ, ◌+◌, ◌^◌, ◌<◌, ◌≤◌, Ok, Err};
ghost use Rattle.backends.specs.Place.{register, offset_at, MmioFits, NoMmio, PortFits, NoPort};
ghost use Rattle.registers.specs.Refusal.{address_refusal};

use registers::error::InvalidAddressError;

/// Eight registers at 64-bit addresses, each the same distance behind the one before.
pub trait Place {
    ghost base: { Self → ℕ };

    ghost stride: { Self → ℕ };

    /// The address of the first register.
    fn address(&self) -> u64
        ensures value { result ≡ base self.now }
        ensures fits { register (base self.now) (stride self.now) 7 < 2 ^ 64 };

    /// The distance between registers.
    fn distance(&self) -> u8
        ensures { result ≡ stride self.now };
}

/// A base address and a stride at which eight registers have 64-bit addresses.
#[derive(Clone, Copy)]
pub struct MmioPlace {
    pub(crate) base: u64,
    pub(crate) stride: u8,
    ghost apart: { 0 < stride },
    ghost fits: { register base stride 7 < 2 ^ 64 },
}

/// A base port at which eight registers have 16-bit ports.
#[derive(Clone, Copy)]
pub struct PortPlace {
    pub(crate) base: u16,
    ghost fits: { PortFits base },
}

impl MmioPlace {
    /// The place of registers at `base` that are `stride` bytes apart.
    ///
    /// Refuses with 1 a stride that is no power of two, then with 2 a base so high that the last
    /// register has no 64-bit address.
    pub fn new(base: u64, stride: u8) -> Result<MmioPlace, InvalidAddressError>
        ensures { elim result [
          | Ok p ↦ MmioFits base stride × (p.base ≡ base) × (p.stride ≡ stride)
          | Err e ↦ NoMmio base stride (address_refusal e)
        ] }
    {
        if !stride.is_power_of_two() {
            return Err(InvalidAddressError::InvalidStride(stride));
        }
        if base > u64::MAX - 7 * u64::from(stride) {
            return Err(InvalidAddressError::InvalidBaseAddress(base));
        }
        Ok(MmioPlace { base, stride })
    }

    /// The offset of the register at an address, where one stands there.
    pub(crate) fn offset_of(&self, address: u64) -> Option<u8>
        ensures { result ≡ offset_at self.now.base self.now.stride address }
    {
        let distance = address.checked_sub(self.base)?;
        let stride = u64::from(self.stride);
        if distance % stride != 0 {
            return None;
        }
        let offset = distance / stride;
        if offset < 8 { Some(offset as u8) } else { None }
    }
}

impl PortPlace {
    /// The place of registers at the port `base` and the seven behind it.
    ///
    /// Refuses with 2 a base so high that the last register has no port.
    pub fn new(base: u16) -> Result<PortPlace, InvalidAddressError>
        ensures { elim result [
          | Ok p ↦ PortFits base × (p.base ≡ base)
          | Err e ↦ NoPort base (address_refusal e)
        ] }
    {
        if base > u16::MAX - 7 {
            return Err(InvalidAddressError::InvalidBaseAddress(u64::from(base)));
        }
        Ok(PortPlace { base })
    }
}

impl Place for MmioPlace {
    ghost base = { λ p. p.base };

    ghost stride = { λ p. p.stride };

    fn address(&self) -> u64 {
        self.base
    }

    fn distance(&self) -> u8 {
        self.stride
    }
}

impl Place for PortPlace {
    ghost base = { λ p. p.base };

    ghost stride = { λ p. 1 };

    fn address(&self) -> u64 {
        u64::from(self.base)
    }

    fn distance(&self) -> u8 {
        1
    }
}

// The same addresses, in a 64-bit address space.
impl From<PortPlace> for MmioPlace {
    ghost from_gives = { λ p m. (m.base ≡ p.base) × (m.stride ≡ 1) };

    fn from(place: PortPlace) -> MmioPlace {
        MmioPlace {
            base: u64::from(place.base),
            stride: 1,
        }
    }
}
