//! The modem control register.

/// Data terminal ready: this side is powered on.
pub const DTR: u8 = 1 << 0;
/// Request to send: this side can receive.
pub const RTS: u8 = 1 << 1;
/// General purpose output 1.
pub const OUT_1: u8 = 1 << 2;
/// General purpose output 2; on PCs it lets interrupts through.
pub const OUT_2_INT_ENABLE: u8 = 1 << 3;
/// Loop mode: what is sent comes back as received.
pub const LOOP_BACK: u8 = 1 << 4;
/// Reserved.
pub const _RESERVED0: u8 = 1 << 5;
/// Reserved.
pub const _RESERVED1: u8 = 1 << 6;
/// Reserved.
pub const _RESERVED2: u8 = 1 << 7;
