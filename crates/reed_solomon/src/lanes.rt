// Products of 32 bytes by one factor: two look-ups in registers, of the low and of the high halves of the bytes.
ghost use Rattle.std.specs.Prelude.{◌≡◌, ◌+◌, ◌<◌, ◌≤◌, ℕ, length, slice_index};
ghost use Rattle.reed_solomon.specs.Tables.{nibble_sum};

use std::simd::prelude::*;
use word_tables::entry_sums;

// The sums of the entries of the halves of 32 bytes. The 32 entries begin at `start`.
#[inline(always)]
pub(crate) fn nibble_sums(entries: &[u8], start: usize, bytes: u8x32) -> u8x32
    requires { start + 32 ≤ length entries.now }
    ensures long { length result ≡ 32 }
    ensures sums { (lane : ℕ) → lane < 32 → slice_index result lane ≡ nibble_sum entries.now start (slice_index bytes lane) }
{
    let low = u8x16::from_slice(&entries[start..]);
    let high = u8x16::from_slice(&entries[start + 16..]);
    entry_sums(low, high, bytes)
}
