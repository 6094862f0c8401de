// Products of thirty-two words at once in fields of degree up to 8, a byte each in the lanes of a vector. A byte is shifted up, so that its
// highest coefficient is its highest bit: x^(8 - degree) times the modulus is of degree 8, and modulo it the product of x^(8 - degree) a and
// b is x^(8 - degree) times that of a and b.
ghost use Rattle.std.specs.Prelude.{◌≡◌, ◌+◌, ◌*◌, ◌%◌, ◌^◌, ◌<◌, ◌≤◌, ℕ, get_or, length, slice_index};
ghost use Rattle.any_field.specs.Contexts.{field_product};

use crate::byte_lanes::multiply_byte_lanes;
use crate::extension::BinaryExtension;
use field_base::Holds;
use std::simd::prelude::*;

impl BinaryExtension {
    /// How many blocks of thirty-two of so many words are multiplied by bytes: none where the degree is above 8.
    pub(crate) fn byte_blocks(self, count: usize) -> usize
        ensures within { 32 * result ≤ count }
        ensures narrow { 0 < result → self.degree ≤ 8 }
    {
        if self.degree <= 8 { count / 32 } else { 0 }
    }

    /// The products of the thirty-two words from `start` on and the others at their places.
    pub(crate) fn products_by_bytes<W: Holds<u128>>(
        self,
        words: &[W],
        others: &[W],
        start: usize,
    ) -> [u8; 32]
        requires narrow { self.degree ≤ 8 }
        requires inside { start + 32 ≤ length words.now }
        requires beside { start + 32 ≤ length others.now }
        ensures { (i : ℕ) → i < 32 → (d : W) → slice_index result i ≡ field_product self.degree self.tail
            (W.number (get_or words.now (start + i) d)) (W.number (get_or others.now (start + i) d)) }
    {
        let left = low_bytes(words, start);
        let right = low_bytes(others, start);
        let up = 8 - self.degree;
        let places = u8x32::splat(up as u8);
        let tail = (self.tail << up) as u8;
        let products = multiply_byte_lanes(tail, left << places, (right << places) >> places);
        (products >> places).to_array()
    }
}

// The low bytes of the thirty-two words from `start` on.
fn low_bytes<W: Holds<u128>>(words: &[W], start: usize) -> u8x32
    requires { start + 32 ≤ length words.now }
    ensures long { length result ≡ 32 }
    ensures bytes { (i : ℕ) → i < 32 → (d : W) → slice_index result i ≡ W.number (get_or words.now (start + i) d) % 2 ^ 8 }
{
    let mut bytes = [0; 32];
    for lane in 0..32usize {
        bytes[lane] = (words[start + lane].stored() % 256) as u8;
    }
    u8x32::from_array(bytes)
}
