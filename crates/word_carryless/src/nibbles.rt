// The squares of sixteen bytes at once: the squares of the low and the high four bits of each byte are looked up in a register, so that
// no address depends on the operand.
ghost use Rattle.std.specs.Prelude.{◌≡◌, ◌/◌, ◌%◌, map};
ghost use Rattle.std.specs.Simd.Lanes.{digits_l, number_l};
ghost use Rattle.field_base.specs.Carryless.{carryless};

use crate::split::split_128;
use std::simd::prelude::*;
use word_tables::ByteVector;

/// The carryless squares of the numbers below 16.
const NIBBLE_SQUARES: [u8; 16] = [
    0x00, 0x01, 0x04, 0x05, 0x10, 0x11, 0x14, 0x15, 0x40, 0x41, 0x44, 0x45, 0x50, 0x51, 0x54, 0x55,
];

/// The bytes of a double word, the lowest first.
#[inline(always)]
pub fn bytes_of_128(x: u128) -> u8x16
    ensures { result ≡ digits_l 256 16 x }
{
    let (low, high) = split_128(x);
    u64x2::from_array([low, high]).to_le_bytes()
}

/// The double word of sixteen bytes, the lowest first.
#[inline(always)]
pub fn number_of_bytes(bytes: u8x16) -> u128
    ensures { result ≡ number_l 256 bytes }
{
    let words = u64x2::from_le_bytes(bytes).to_array();
    ((words[1] as u128) << 64) ^ (words[0] as u128)
}

/// The carryless square of the low four bits of each byte.
pub(crate) fn low_squares(bytes: u8x16) -> u8x16
    ensures { result ≡ map (λ byte. carryless (byte % 16) (byte % 16)) bytes }
{
    bytes.low_entries(u8x16::from_array(NIBBLE_SQUARES))
}

/// The carryless square of the high four bits of each byte.
pub(crate) fn high_squares(bytes: u8x16) -> u8x16
    ensures { result ≡ map (λ byte. carryless (byte / 16) (byte / 16)) bytes }
{
    bytes.high_entries(u8x16::from_array(NIBBLE_SQUARES))
}
