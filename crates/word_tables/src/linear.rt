// Any linear map of 128 bits, given by the images of its bits, by its values at digits to base 16.
ghost use Rattle.std.specs.Prelude.{◌≡◌, ℕ, ◌+◌, ◌*◌, ◌/◌, ◌%◌, ◌^◌, ◌<◌, ◌≤◌, List, bit_xor, slice_index};
ghost use Rattle.field_base.specs.LinearMaps.{IsTheLinearMapOf, linear_image};
ghost use Rattle.word_tables.specs.LinearMap.{sum_of_values};

/// A linear map over GF(2) from 128 bits to 128 bits. It holds its values at the digits to base 16 in each place, 8,192 bytes,
/// so that a value is the sum of 32 of them.
#[derive(Drop)]
pub struct LinearMap {
    values: [u128; 512],
}

impl LinearMap {
    ghost use Rattle.word_tables.specs.LinearMap.{map_of};

    /// The linear map that takes bit j to `images[j]`. It computes 512 values: for few values `sum_of_images` takes less time.
    pub fn new(images: &[u128; 128]) -> LinearMap
        ensures { (x : ℕ) → map_of result x ≡ linear_image images.now x }
    {
        LinearMap {
            values: values_at_digits(images),
        }
    }

    /// The value at `x`.
    #[inline]
    pub fn apply(&self, x: u128) -> u128
        ensures { result ≡ map_of self.now x }
    {
        sum_of_values(&self.values, x, 32)
    }
}

/// The sum of the values of a linear map at the low digits of `x` to base 16. Entry 16 i + d is the value at d 16^i, and there are
/// 32 digits at most. It is inlined, so that for a constant number of digits no loop is left.
#[inline(always)]
pub fn sum_of_values(values: &[u128; 512], x: u128, digits: usize) -> u128
    requires { digits ≤ 32 }
    ensures { result ≡ sum_of_values digits values.now x }
{
    if digits <= 16 {
        sum_in_word(values, x, 0, digits)
    } else {
        sum_in_word(values, x, 0, 16) ^ sum_in_word(values, x, 16, digits - 16)
    }
}

/// The image of `bits` by the linear map whose image of bit j is `images[j]`: the sum of the images at the set bits. It stops after
/// the highest of them.
#[tactic(auto, using(crate::proofs::TabledMaps::image_steps))]
pub fn sum_of_images(images: &[u128], bits: u128) -> u128
    ensures { result ≡ linear_image images.now bits }
{
    let mut sum = 0;
    let mut rest = bits;
    for image in images {
        if rest == 0 {
            return sum;
        }
        if rest & 1 == 1 {
            sum ^= *image;
        }
        rest >>= 1;
    }
    sum
}

/// States that `linear_image` of any images is the only map that keeps sums and takes bit j to image j.
pub fn images_give_linear_map()
    ensures { (images : List ℕ) → IsTheLinearMapOf images (linear_image images) }
{}

// The sum of the values at `digits` digits of `x` from digit `first` on, which lie in one word of 64 bits. There a digit takes a shift
// and a mask; in 128 bits it takes a shift of two words.
#[inline(always)]
fn sum_in_word(values: &[u128; 512], x: u128, first: usize, digits: usize) -> u128
    requires first { first ≤ 16 }
    requires one_word { digits ≤ 16 }
    ensures { bit_xor (sum_of_values first values.now x) result ≡ sum_of_values (first + digits) values.now x }
{
    let word = ((x >> (4 * first)) % 0x1_0000_0000_0000_0000) as u64;
    let mut sum = 0;
    for i in 0..digits {
        sum ^= values[16 * (first + i) + ((word >> (4 * i)) % 16) as usize];
    }
    sum
}

// The values of the linear map that has these images at the digits to base 16: entry 16 j + d is the value at d 16^j.
pub(crate) fn values_at_digits(images: &[u128; 128]) -> [u128; 512]
    ensures { (p : ℕ) → p < 512 → slice_index result p ≡ linear_image images.now (p % 16 * 2 ^ (4 * (p / 16))) }
{
    let mut values = [0; 512];
    for place in 0..512 {
        let first = 4 * (place / 16);
        values[place] = sum_of_images(&images[first..first + 4], (place % 16) as u128);
    }
    values
}
