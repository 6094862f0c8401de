// Elements of at most 16 bytes.
ghost use Rattle.std.specs.Prelude.{◌≡◌, ◌≤◌, ◌-◌, ◌%◌, ◌^◌, length, reverse, take, drop};
ghost use Rattle.std.proofs.Common.{lit≤};
ghost use Rattle.field_bytes.specs.Bytes.{low_bytes, number_of_bytes};
ghost use Rattle.field_bytes.specs.BigEndian.{be_bytes};

use crate::little_endian::LittleEndian;
use crate::numbers::{number_of_high_first, number_of_low_first};
use crate::serializable::RawDataSerializable;
use field_base::Unsigned;
use field_base::traits::TowerLevel;

/// The most bytes that a `ShortElement` has.
pub const MOST_BYTES: usize = 16;

/// An element of a field whose elements have at most 16 bytes.
pub trait ShortElement: TowerLevel + RawDataSerializable {
    ghost short_law: { Self.NUM_BYTES ≤ 16 };

    /// The bytes of the representation, the lowest first, followed by zeros.
    final fn low_first(self) -> [u8; 16]
        ensures { take Self.NUM_BYTES result ≡ low_bytes Self.NUM_BYTES (Self.repr self) }
    {
        self.to_repr().to_u128().to_le_bytes()
    }

    /// Zeros, followed by the bytes of the representation, the highest first.
    final fn high_first(self) -> [u8; 16]
        ensures { drop (16 - Self.NUM_BYTES) result ≡ be_bytes Self.NUM_BYTES (Self.repr self) }
    {
        self.to_repr().to_u128().to_be_bytes()
    }

    /// The element of a number. Bits above the element are dropped.
    final fn of_number(number: u128) -> Self
        ensures { Self.repr result ≡ number % 2 ^ Self.width }
    {
        Self::from_repr(Self::Repr::of_u128(number))
    }

    /// The element with these bytes, at most `NUM_BYTES`, the lowest first; missing bytes are zero. Bits above the element are
    /// dropped.
    final fn of_low_first(bytes: &[u8]) -> Self
        requires { length bytes.now ≤ Self.NUM_BYTES }
        ensures { Self.repr result ≡ number_of_bytes bytes.now % 2 ^ Self.width }
    {
        Self::of_number(number_of_low_first(bytes))
    }

    /// The element with these bytes, at most `NUM_BYTES`, the highest first. Bits above the element are dropped.
    final fn of_high_first(bytes: &[u8]) -> Self
        requires { length bytes.now ≤ Self.NUM_BYTES }
        ensures { Self.repr result ≡ number_of_bytes (reverse bytes.now) % 2 ^ Self.width }
    {
        Self::of_number(number_of_high_first(bytes))
    }
}

/// A word of at most 16 bytes, as every integer of Rust is.
pub trait ShortWord: LittleEndian + Unsigned {
    ghost short_law: { Self.SIZE ≤ 16 };
}

impl ShortWord for u8 {
    ghost short_law = { lit≤ tt };
}

impl ShortWord for u16 {
    ghost short_law = { lit≤ tt };
}

impl ShortWord for u32 {
    ghost short_law = { lit≤ tt };
}

impl ShortWord for u64 {
    ghost short_law = { lit≤ tt };
}

impl ShortWord for u128 {
    ghost short_law = { lit≤ tt };
}
