//! The line control register: the frame of a character, break, and access to the divisor.

ghost use Rattle.std.specs.Prelude.{◌≡◌, ℕ, ◌%◌};
ghost use Rattle.std.proofs.Common.{rules, lit<, lit≤};
ghost use Rattle.registers.specs.Fields.{field_at, FieldSet};
ghost use Rattle.registers.specs.Frame.{word_code, word_bits, word_bits_or_8, parity_code, parity_bits, frame as framed};
ghost use Rattle.registers.specs.declared.lcr.Parity.{Parity as Kind};
ghost use Rattle.registers.specs.declared.lcr.WordLength.{WordLength as Length};

use crate::coded::{Coded, read, write};
use crate::fields::Field;

/// The low bit of the word length.
pub const WORD_LENGTH0: u8 = 1 << 0;
/// The high bit of the word length.
pub const WORD_LENGTH1: u8 = 1 << 1;
/// Two stop bits (one and a half with 5 data bits).
pub const MORE_STOP_BITS: u8 = 1 << 2;
/// There is a parity bit.
pub const PARITY0: u8 = 1 << 3;
/// Even parity in place of odd; with `PARITY2` a 0 in place of a 1.
pub const PARITY1: u8 = 1 << 4;
/// Stick parity: the parity bit is always the same.
pub const PARITY2: u8 = 1 << 5;
/// Holds the line low while it is set.
pub const SET_BREAK: u8 = 1 << 6;
/// Divisor latch access: offsets 0 and 1 are the divisor's bytes while it is set.
pub const DLAB: u8 = 1 << 7;

/// The data bits of a character.
#[derive(Clone, Copy, Debug, PartialEq, Eq)]
pub enum WordLength {
    /// 5 data bits.
    FiveBits,
    /// 6 data bits.
    SixBits,
    /// 7 data bits.
    SevenBits,
    /// 8 data bits.
    EightBits,
}

impl WordLength {
    /// The word length of a two-bit code; higher bits do not count.
    pub fn from_raw_bits(bits: u8) -> Self
        ensures { word_code result ≡ bits % 4 }
    {
        match bits % 4 {
            0b00 => Self::FiveBits,
            0b01 => Self::SixBits,
            0b10 => Self::SevenBits,
            _ => Self::EightBits,
        }
    }

    /// The two-bit code of the word length, and of no other.
    pub fn to_raw_bits(self) -> u8
        ensures code { result ≡ word_code self }
        ensures back { (w : Length) → word_code w ≡ result → w ≡ self }
    {
        match self {
            Self::FiveBits => 0b00,
            Self::SixBits => 0b01,
            Self::SevenBits => 0b10,
            Self::EightBits => 0b11,
        }
    }

    // Not `From` or `TryFrom`: a number that is no word length is 8 bits, as in the Rust.
    /// The word length of so many bits; 8 bits for a number that is none.
    pub fn from_integer(value: u8) -> Self
        ensures { word_bits result ≡ word_bits_or_8 value }
    {
        match value {
            5 => Self::FiveBits,
            6 => Self::SixBits,
            7 => Self::SevenBits,
            _ => Self::EightBits,
        }
    }

    /// How many bits a word has.
    pub fn to_integer(self) -> u32
        ensures { result ≡ word_bits self }
    {
        match self {
            Self::FiveBits => 5,
            Self::SixBits => 6,
            Self::SevenBits => 7,
            Self::EightBits => 8,
        }
    }
}

impl From<WordLength> for u32 {
    ghost from_gives = { λ w n. n ≡ word_bits w };

    /// How many bits a word has.
    fn from(length: WordLength) -> u32 {
        length.to_integer()
    }
}

impl Coded for WordLength {
    const FIELD: Field = Field { place: 0, width: 2 };

    ghost FIELD = { record { place = 0; width = 2; inside = record { starts = lit< tt; narrow = lit< tt; ends = lit≤ tt } } };

    ghost code = { word_code };

    ghost stands_for = { λ n. n };

    fn from_code(bits: u8) -> Self {
        Self::from_raw_bits(bits)
    }

    fn code(self) -> u8 {
        self.to_raw_bits()
    }

    ghost laws = { Prim.search rules };
}

/// The parity bit of a character.
#[derive(Clone, Copy, Debug, PartialEq, Eq)]
pub enum Parity {
    /// No parity bit.
    Disabled,
    /// The number of ones, the parity bit included, is odd.
    Odd,
    /// The number of ones, the parity bit included, is even.
    Even,
    /// The parity bit is always 1.
    Forced1,
    /// The parity bit is always 0.
    Forced0,
}

impl Parity {
    /// The parity of a three-bit code: none while its lowest bit is clear. Higher bits do not count.
    pub fn from_raw_bits(bits: u8) -> Self
        ensures { parity_code result ≡ parity_bits (bits % 8) }
    {
        match bits % 8 {
            0b001 => Self::Odd,
            0b011 => Self::Even,
            0b101 => Self::Forced1,
            0b111 => Self::Forced0,
            _ => Self::Disabled,
        }
    }

    /// The three-bit code of the parity, and of no other.
    pub fn to_raw_bits(self) -> u8
        ensures code { result ≡ parity_code self }
        ensures back { (p : Kind) → parity_code p ≡ parity_bits result → p ≡ self }
    {
        match self {
            Self::Disabled => 0b000,
            Self::Odd => 0b001,
            Self::Even => 0b011,
            Self::Forced1 => 0b101,
            Self::Forced0 => 0b111,
        }
    }
}

impl Coded for Parity {
    const FIELD: Field = Field { place: 3, width: 3 };

    ghost FIELD = { record { place = 3; width = 3; inside = record { starts = lit< tt; narrow = lit< tt; ends = lit≤ tt } } };

    ghost code = { parity_code };

    ghost stands_for = { parity_bits };

    fn from_code(bits: u8) -> Self {
        Self::from_raw_bits(bits)
    }

    fn code(self) -> u8 {
        self.to_raw_bits()
    }

    ghost laws = { Prim.search rules };
}

/// The word length in the byte.
pub fn word_length(lcr: u8) -> WordLength
    ensures { word_code result ≡ field_at 0 2 lcr }
{
    read::<WordLength>(lcr)
}

/// The byte with this word length, which reads back; bits 2 to 7 stay.
pub fn set_word_length(lcr: u8, value: WordLength) -> u8
    ensures sets { FieldSet 0 2 (word_code value) lcr result }
    ensures back { (w : Length) → word_code w ≡ field_at 0 2 result → w ≡ value }
{
    write::<WordLength>(lcr, value)
}

/// The parity in the byte. (The plain name would be the type's in small letters.)
pub fn parity_of(lcr: u8) -> Parity
    ensures { parity_code result ≡ parity_bits (field_at 3 3 lcr) }
{
    read::<Parity>(lcr)
}

/// The byte with this parity, which reads back; bits 0 to 2 and bits 6 and 7 stay.
pub fn set_parity(lcr: u8, value: Parity) -> u8
    ensures sets { FieldSet 3 3 (parity_code value) lcr result }
    ensures back { (p : Kind) → parity_code p ≡ parity_bits (field_at 3 3 result) → p ≡ value }
{
    write::<Parity>(lcr, value)
}

/// The byte for this frame, with break and divisor access off.
pub fn frame(data_bits: WordLength, extra_stop_bits: bool, parity: Parity) -> u8
    ensures { result ≡ framed data_bits extra_stop_bits parity }
{
    let stop = if extra_stop_bits { MORE_STOP_BITS } else { 0 };
    set_parity(set_word_length(stop, data_bits), parity)
}
