//! The registers of a backend in an address space.

ghost use Rattle.backends.specs.Window.{windowed, Shows};
ghost use Rattle.std.specs.Prelude.{◌≡◌};

use crate::backend::Backend;
use crate::place::{MmioPlace, PortPlace};
use crate::space::Space;

/// A space with a backend's eight registers at the addresses of a place. Everywhere else reads
/// give 0xFF and nothing changes.
#[derive(Drop)]
pub struct Window<B> {
    place: MmioPlace,
    backend: B,
}

impl<B: Backend> Window<B> {
    /// The backend's registers, a stride apart.
    pub fn new(place: MmioPlace, backend: B) -> Self
        ensures made { result ≡ record { place = place; backend = backend } }
        ensures shows { Shows B.device result }
    {
        Window { place, backend }
    }

    /// The backend's registers at ports, side by side.
    pub fn at_ports(place: PortPlace, backend: B) -> Self
        ensures made { (result.place.base ≡ place.base) × (result.place.stride ≡ 1) × (result.backend ≡ backend) }
        ensures shows { Shows B.device result }
    {
        Window::new(MmioPlace::from(place), backend)
    }
}

impl<B> Window<B> {
    /// The backend.
    pub fn backend(&self) -> &B
        ensures { result.now ≡ self.now.backend }
    {
        &self.backend
    }
}

impl<B: Backend> Space for Window<B> {
    ghost bus = { windowed B.Backend.device };

    fn read(&mut self, address: u64) -> u8 {
        match self.place.offset_of(address) {
            Some(offset) => self.backend.read(offset),
            None => 0xFF,
        }
    }

    fn write(&mut self, address: u64, value: u8) {
        if let Some(offset) = self.place.offset_of(address) {
            self.backend.write(offset, value);
        }
    }
}
