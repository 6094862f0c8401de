// Null spaces of matrices over GF(2) in reduced row echelon form.
ghost use Rattle.std.specs.Prelude.{◌≡◌, ◌≢◌, ◌-◌, ◌*◌, ◌<◌, ◌≤◌, ℕ, length, slice_index};
ghost use Rattle.field_base.specs.Tower.{tower_mul};
ghost use Rattle.field_slices.specs.Matrices.{HasMatrixRow, IsNullBasis, IsReducedEchelon, null_entry};
ghost use Rattle.bits_packed.specs.BitMatrices.{IsBitRowWritten, bit_entry, words_for};

use crate::identities::write_identity_row;
use crate::rows::{Shape, add_entry, entry};
use field_slices::matrices::leads_at;

/// Writes a basis of the vectors that a matrix in reduced row echelon form takes to 0 to the rows of `basis`: one for each column without a
/// leading entry, where it is 1 and the others are 0. `reduced`, whose rows have `columns` bits, and `pivots` and `rank` are what
/// `row_reduce` leaves and returns. Bits of `basis` behind the columns are 0. It takes no memory.
pub fn null_space_into(
    basis: &mut [u64],
    reduced: &[u64],
    columns: usize,
    rank: usize,
    pivots: &[usize],
)
    requires source { length reduced.now ≡ length pivots.now * words_for columns }
    requires reduced { IsReducedEchelon (length pivots.now) columns rank (slice_index pivots.now)
        (bit_entry (words_for columns) reduced.now) }
    requires shape { length basis.old ≡ (columns - rank) * words_for columns }
    ensures shape { length basis.new ≡ length basis.old }
    ensures basis { IsNullBasis 1 (tower_mul 0) (length pivots.now) columns (columns - rank) (bit_entry (words_for columns) reduced.now)
        (bit_entry (words_for columns) basis.new) }
    ensures behind { (q j : ℕ) → q < columns - rank → columns ≤ j → j < 64 * words_for columns
        → bit_entry (words_for columns) basis.new q j ≡ 0 }
{
    let shape = Shape {
        rows: columns - rank,
        words: columns.div_ceil(64),
    };
    write_null_rows(basis, shape, columns, reduced, rank, pivots);
}

// The same of matrices of so many words a row.
fn write_null_rows(
    basis: &mut [u64],
    shape: Shape,
    columns: usize,
    reduced: &[u64],
    rank: usize,
    pivots: &[usize],
)
    requires columns { columns ≤ 64 * shape.words }
    requires source { length reduced.now ≡ length pivots.now * shape.words }
    requires reduced { IsReducedEchelon (length pivots.now) columns rank (slice_index pivots.now) (bit_entry shape.words reduced.now) }
    requires rows { shape.rows ≡ columns - rank }
    requires shape { length basis.old ≡ shape.rows * shape.words }
    ensures shape { length basis.new ≡ length basis.old }
    ensures basis { IsNullBasis 1 (tower_mul 0) (length pivots.now) columns (columns - rank) (bit_entry shape.words reduced.now)
        (bit_entry shape.words basis.new) }
    ensures behind { (q j : ℕ) → q < columns - rank → columns ≤ j → j < 64 * shape.words → bit_entry shape.words basis.new q j ≡ 0 }
{
    let mut passed = 0;
    for column in 0..columns {
        if leads_at(pivots, rank, passed, column) {
            passed += 1;
        } else {
            write_null_row(basis, shape, column - passed, column, reduced, rank, pivots);
        }
    }
}

// Writes the vector of a column, which has no leading entry, to a row.
fn write_null_row(
    basis: &mut [u64],
    shape: Shape,
    row: usize,
    column: usize,
    reduced: &[u64],
    rank: usize,
    pivots: &[usize],
)
    requires row { HasMatrixRow shape.rows shape.words row (length basis.old) }
    requires source { length reduced.now ≡ length pivots.now * shape.words }
    requires rank { rank ≤ length pivots.now }
    requires inside { (k : ℕ) → k < rank → slice_index pivots.now k < 64 * shape.words }
    requires rise { (i k : ℕ) → i < k → k < rank → slice_index pivots.now i < slice_index pivots.now k }
    requires column { column < 64 * shape.words }
    requires free { (k : ℕ) → k < rank → slice_index pivots.now k ≢ column }
    ensures { IsBitRowWritten shape.words row
        (null_entry (slice_index pivots.now) (bit_entry shape.words reduced.now) column rank) basis.old basis.new }
{
    let source = Shape {
        rows: pivots.len(),
        words: shape.words,
    };
    write_identity_row(basis, shape, row, 0, column);
    for k in 0..rank {
        let value = entry(reduced, source, k, column);
        add_entry(basis, shape, row, pivots[k], value);
    }
}
