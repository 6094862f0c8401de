// The identity matrix over GF(2), alone and behind the words of another matrix.
ghost use Rattle.std.specs.Prelude.{◌≡◌, ◌+◌, ◌*◌, ◌<◌, ◌≤◌, ℕ, length};
ghost use Rattle.field_slices.specs.Matrices.{HasMatrixEntry, beside_identity, identity_entry};
ghost use Rattle.bits_packed.specs.BitMatrices.{IsBitRowWritten, bit_entry, words_for};

use crate::rows::{Shape, add_bit, clear_row};

/// Writes the identity matrix of `size` rows to `target`: entry (i, j) is 1 for i = j, and else 0, as are the bits behind the columns.
/// It takes no memory.
pub fn identity_into(target: &mut [u64], size: usize)
    requires shape { length target.old ≡ size * words_for size }
    ensures shape { length target.new ≡ length target.old }
    ensures entries { (i j : ℕ) → i < size → j < 64 * words_for size
        → bit_entry (words_for size) target.new i j ≡ identity_entry i j }
{
    let words = size.div_ceil(64);
    let shape = Shape { rows: size, words };
    write_identity(target, shape, 0);
}

// Writes the identity matrix to the words of the rows from one on, which have at least as many bits as there are rows.
pub(crate) fn write_identity(matrix: &mut [u64], shape: Shape, from: usize)
    requires shape { length matrix.old ≡ shape.rows * shape.words }
    requires room { 64 * from + shape.rows ≤ 64 * shape.words }
    ensures shape { length matrix.new ≡ length matrix.old }
    ensures entries { (i j : ℕ) → i < shape.rows → j < 64 * shape.words → bit_entry shape.words matrix.new i j
        ≡ beside_identity (64 * from) (bit_entry shape.words matrix.old) i j }
{
    for row in 0..shape.rows {
        write_identity_row(matrix, shape, row, from, row);
    }
}

// Writes row `place` of an identity matrix to the words of a row from one on.
pub(crate) fn write_identity_row(
    matrix: &mut [u64],
    shape: Shape,
    row: usize,
    from: usize,
    place: usize,
)
    requires row { HasMatrixEntry shape.rows shape.words row from (length matrix.old) }
    requires room { 64 * from + place < 64 * shape.words }
    ensures { IsBitRowWritten shape.words row (beside_identity (64 * from) (λ i. bit_entry shape.words matrix.old row) place)
        matrix.old matrix.new }
{
    clear_row(matrix, shape, row, from);
    add_bit(matrix, shape, row, from + place / 64, place % 64, 1);
}
