//! A device in an address space: its registers stand at the addresses of a place.

ghost use Rattle.backends.specs.Adapters.{adapted};
ghost use Rattle.backends.specs.Place.{register};
ghost use Rattle.std.specs.Prelude.{◌≡◌, ◌<◌};

use crate::backend::Backend;
use crate::place::{MmioPlace, Place, PortPlace};
use crate::space::Space;

/// A backend over a space, which it holds: register k is the byte at base + k × stride of the place.
#[derive(Drop)]
pub struct Adapter<P, S> {
    place: P,
    space: S,
}

/// A device in memory: its registers stand a stride apart.
pub type MmioBackend<S> = Adapter<MmioPlace, S>;

/// A device behind ports: its registers stand side by side.
pub type PioBackend<S> = Adapter<PortPlace, S>;

impl<P, S> Adapter<P, S> {
    /// The device whose registers stand at a place of this space.
    pub fn new(place: P, space: S) -> Self
        ensures { result ≡ record { place = place; space = space } }
    {
        Adapter { place, space }
    }

    /// The space.
    pub fn space(&self) -> &S
        ensures { result.now ≡ self.now.space }
    {
        &self.space
    }
}

impl<P: Place, S> Adapter<P, S> {
    /// The address of a register.
    fn register(&self, offset: u8) -> u64
        requires { offset < 8 }
        ensures { result ≡ register (P.base self.now.place) (P.stride self.now.place) offset }
    {
        self.place.address() + u64::from(offset) * u64::from(self.place.distance())
    }
}

impl<S> Adapter<MmioPlace, S> {
    /// The address of the first register.
    pub fn base(&self) -> u64
        ensures { result ≡ self.now.place.base }
    {
        self.place.address()
    }

    /// The distance between registers.
    pub fn stride(&self) -> u8
        ensures { result ≡ self.now.place.stride }
    {
        self.place.stride
    }
}

impl<S> Adapter<PortPlace, S> {
    /// The port of the first register.
    pub fn base(&self) -> u16
        ensures { result ≡ self.now.place.base }
    {
        self.place.base
    }
}

impl<P: Place, S: Space> Backend for Adapter<P, S> {
    ghost device = { adapted P.Place.base P.Place.stride S.Space.bus };

    fn read(&mut self, offset: u8) -> u8 {
        if offset >= 8 {
            return 0xFF;
        }
        let address = self.register(offset);
        self.space.read(address)
    }

    fn write(&mut self, offset: u8, value: u8) {
        if offset < 8 {
            let address = self.register(offset);
            self.space.write(address, value);
        }
    }
}
