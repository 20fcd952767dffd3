//! Two address spaces as one.

ghost use Rattle.backends.specs.Pair.{paired, Splits};
ghost use Rattle.std.specs.Prelude.{◌≡◌};

use crate::space::Space;

/// A space whose addresses below a boundary belong to its first space and the others to its
/// second, each at the same address.
#[derive(Drop)]
pub struct Pair<F, G> {
    boundary: u64,
    first: F,
    second: G,
}

impl<F: Space, G: Space> Pair<F, G> {
    /// The first space below the boundary, and the second from there on.
    pub fn new(boundary: u64, first: F, second: G) -> Self
        ensures made { result ≡ record { boundary = boundary; first = first; second = second } }
        ensures splits { Splits F.Space.bus G.Space.bus result }
    {
        Pair {
            boundary,
            first,
            second,
        }
    }
}

impl<F, G> Pair<F, G> {
    /// The space below the boundary.
    pub fn first(&self) -> &F
        ensures { result.now ≡ self.now.first }
    {
        &self.first
    }

    /// The space from the boundary on.
    pub fn second(&self) -> &G
        ensures { result.now ≡ self.now.second }
    {
        &self.second
    }
}

impl<F: Space, G: Space> Space for Pair<F, G> {
    ghost bus = { paired F.Space.bus G.Space.bus };

    fn read(&mut self, address: u64) -> u8 {
        if address < self.boundary {
            self.first.read(address)
        } else {
            self.second.read(address)
        }
    }

    fn write(&mut self, address: u64, value: u8) {
        if address < self.boundary {
            self.first.write(address, value);
        } else {
            self.second.write(address, value);
        }
    }
}
