// Any linear map of 128 bits, given by the images of its bits, by a byte table like those of the changes of basis.
ghost use Rattle.std.specs.Prelude.{◌≡◌, ℕ};
ghost use Rattle.field_base.specs.ByteTables.{sum_of_entries};
ghost use Rattle.field_base.specs.LinearMaps.{linear_image};

use crate::linear::values_at_digits;
use field_base::byte_tables::sum_of_entries_128;

/// A linear map for many values, some hundreds or more: it holds its values at every byte in each place, in 65,536 bytes, so that a
/// value is the sum of 16 of them. `LinearMap` is smaller.
#[derive(Drop)]
pub struct ByteMap {
    table: [u128; 4096],
}

impl ByteMap {
    ghost use Rattle.word_tables.specs.LinearMap.{byte_map_of};

    /// The linear map that takes bit j to `images[j]`.
    pub fn new(images: &[u128; 128]) -> ByteMap
        ensures { (x : ℕ) → byte_map_of result x ≡ linear_image images.now x }
    {
        ByteMap {
            table: table_of(images),
        }
    }

    /// The value at `x`.
    #[inline]
    pub fn apply(&self, x: u128) -> u128
        ensures { result ≡ byte_map_of self.now x }
    {
        sum_of_entries_128(&self.table, x)
    }
}

// The table of the linear map that has these images. Entry 256 j + b is the value at b 256^j: the sum of the values at its two
// digits to base 16.
fn table_of(images: &[u128; 128]) -> [u128; 4096]
    ensures { (x : ℕ) → sum_of_entries 16 result x ≡ linear_image images.now x }
{
    let values = values_at_digits(images);
    let mut table = [0; 4096];
    for place in 0..4096 {
        let low = values[32 * (place / 256) + place % 16];
        let high = values[32 * (place / 256) + 16 + place % 256 / 16];
        table[place] = low ^ high;
    }
    table
}
