// Matrices of 8 by 8 bits.
ghost use Rattle.std.specs.Prelude.{◌≡◌, ◌<◌, ℕ, List, length, map, replicate, slice_index};
ghost use Rattle.std.specs.Int.{bit_at, from_be_bytes, to_be_bytes, w64};
ghost use Rattle.field_base.specs.LinearMaps.{linear_image};
ghost use Rattle.word_tables.specs.Columns.{column, columns};

use crate::images::{map_bytes, sum_of_images};

/// A linear map of bytes over GF(2), as the bytes that it makes of the eight bits.
#[derive(Clone, Copy, Debug, PartialEq, Eq, Hash)]
pub struct ByteMatrix {
    images: [u8; 8],
    ghost eight: { length images ≡ 8 },
}

impl Default for ByteMatrix {
    ghost is_default = { λ x. x.images ≡ replicate 8 0 };

    fn default() -> ByteMatrix {
        ByteMatrix { images: [0; 8] }
    }
}

impl ByteMatrix {
    ghost use Rattle.word_tables.specs.Matrix.{images_of};

    /// The map that makes 0 of every byte.
    pub const ZERO: ByteMatrix = ByteMatrix { images: [0; 8] };

    /// The map that leaves every byte.
    pub const IDENTITY: ByteMatrix = ByteMatrix {
        images: [1, 2, 4, 8, 16, 32, 64, 128],
    };

    /// The map that makes `images[b]` of bit b.
    pub fn from_images(images: [u8; 8]) -> ByteMatrix
        ensures { images_of result ≡ images }
    {
        ByteMatrix { images }
    }

    /// What the map makes of each bit, the lowest first.
    pub fn images(self) -> [u8; 8]
        ensures { result ≡ images_of self }
    {
        self.images
    }

    /// What the map makes of a byte: the sum of the images at its set bits.
    #[inline]
    pub fn apply(self, byte: u8) -> u8
        ensures { result ≡ linear_image (images_of self) byte }
    {
        sum_of_images(&self.images, byte)
    }

    /// The map that does what `first` does, and then what this one does.
    pub fn compose(self, first: ByteMatrix) -> ByteMatrix
        ensures images { images_of result ≡ map (linear_image (images_of self)) (images_of first) }
        ensures both { (x : ℕ) → x < 256
            → linear_image (images_of result) x ≡ linear_image (images_of self) (linear_image (images_of first) x) }
    {
        let mut images = first.images;
        self.apply_slice(&mut images);
        ByteMatrix { images }
    }

    /// The rows in a word: row i stands in byte 7 - i, so that row 0 is the highest byte, and bit b of row i is bit i of
    /// image b.
    pub fn to_quadword(self) -> u64
        ensures { result ≡ from_be_bytes w64 (columns (images_of self)) }
    {
        u64::from_be_bytes(columns_of(&self.images))
    }

    /// The map of the rows in a word, as `to_quadword` has them.
    pub fn from_quadword(rows: u64) -> ByteMatrix
        ensures { images_of result ≡ columns (to_be_bytes w64 rows) }
    {
        ByteMatrix {
            images: columns_of(&rows.to_be_bytes()),
        }
    }

    /// Writes over each byte what the map makes of it.
    pub fn apply_slice(self, bytes: &mut [u8])
        ensures { bytes.new ≡ map (linear_image (images_of self)) bytes.old }
    {
        map_bytes(&self.images, bytes);
    }
}

// The columns of eight rows.
fn columns_of(rows: &[u8; 8]) -> [u8; 8]
    ensures { result ≡ columns rows.now }
{
    [
        column_of(rows, 0),
        column_of(rows, 1),
        column_of(rows, 2),
        column_of(rows, 3),
        column_of(rows, 4),
        column_of(rows, 5),
        column_of(rows, 6),
        column_of(rows, 7),
    ]
}

// Column k, whose bit j is bit k of row j.
fn column_of(rows: &[u8; 8], k: u32) -> u8
    requires { k < 8 }
    ensures { result ≡ column rows.now k }
{
    let mut column = 0;
    for row in 0..8u32 {
        column ^= (rows[row as usize] >> k & 1) << row;
    }
    column
}

/// States what the columns of eight bytes are: bit j of column k is bit k of byte j, and the columns of the columns are the
/// bytes again. So `from_quadword` and `to_quadword` undo each other.
pub fn columns_are_transposed()
    ensures bits { (bytes : List ℕ) (j k : ℕ) → j < 8 → k < 8 → bit_at (slice_index (columns bytes) k) j ≡ bit_at (slice_index bytes j) k }
    ensures back { (bytes : List ℕ) → length bytes ≡ 8 → ((i : ℕ) → slice_index bytes i < 256) → columns (columns bytes) ≡ bytes }
{}
