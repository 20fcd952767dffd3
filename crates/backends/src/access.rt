//! One register access.

ghost use Rattle.backends.specs.Device.{rd, wr};
ghost use Rattle.std.specs.Prelude.{◌≡◌};

/// Which way a byte went.
#[derive(Clone, Copy, Debug, PartialEq, Eq)]
pub enum Kind {
    /// From the device.
    Read,
    /// To the device.
    Write,
}

/// One access to a register: its offset, and the byte that was read or written.
#[derive(Clone, Copy, Debug, PartialEq, Eq)]
pub struct Access {
    /// Read or write.
    pub kind: Kind,
    /// The register, 0 to 7.
    pub offset: u8,
    /// The byte.
    pub value: u8,
}

impl Access {
    /// A read that gave this byte.
    pub const fn read(offset: u8, value: u8) -> Self
        ensures { result ≡ rd offset value }
    {
        Access {
            kind: Kind::Read,
            offset,
            value,
        }
    }

    /// A write of this byte.
    pub const fn write(offset: u8, value: u8) -> Self
        ensures { result ≡ wr offset value }
    {
        Access {
            kind: Kind::Write,
            offset,
            value,
        }
    }
}
