// Words that hold numbers of 128 bits, elements of the field of GHASH: what works on slices of numbers works on slices of such words.
ghost use Rattle.std.specs.Prelude.{◌≡◌, ◌<◌, length, map, slice_index, slice_set};

use field_base::{Holds, Reads};

/// The number at a place, which has to be inside of the slice.
#[inline(always)]
pub fn number_at<W: Reads<u128>>(words: &[W], place: usize) -> u128
    requires { place < length words.now }
    ensures { result ≡ slice_index (map W.number words.now) place }
{
    words[place].stored()
}

/// Writes a number at a place, which has to be inside of the slice.
#[inline(always)]
pub fn put_number<W: Holds<u128>>(words: &mut [W], place: usize, number: u128)
    requires { place < length words.old }
    ensures { map W.number words.new ≡ slice_set (map W.number words.old) place number }
{
    words[place] = W::of_stored(number);
}
