// Linear equations, by reducing the matrix of their coefficients beside their right sides.
ghost use Rattle.std.specs.Prelude.{◌≡◌, ◌≢◌, ◌+◌, ◌*◌, ◌<◌, ℕ, IsTrue, false, length, map, slice_index};
ghost use Rattle.field_slices.specs.Matrices.{HaveSameRowSpace, IsReducedEchelon, IsSolution, entry_of};

use crate::reduction::{find_pivot, row_reduce_augmented};
use crate::rows::{Shape, entry};
use crate::scalars::Scalars;

/// Writes a solution of linear equations to `solution`, and returns whether there is one; else `solution` stays. A row of `augmented`, a
/// matrix of `rows` rows of `columns` entries, is an equation: the coefficients of the unknowns, of which there are as many as places of
/// `solution`, and behind them the right side. Row operations leave the columns of the unknowns in reduced row echelon form, solvable or
/// not, and `pivots`, of as many places as there are rows, begins with the columns of its leading entries. It takes no memory.
pub fn solve_augmented<S: Scalars>(
    field: S,
    augmented: &mut [S::Value],
    rows: usize,
    columns: usize,
    solution: &mut [S::Value],
    pivots: &mut [usize],
) -> bool
    requires shape { length augmented.old ≡ rows * columns }
    requires unknowns { columns ≡ length solution.old + 1 }
    requires room { length pivots.old ≡ rows }
    ensures shape { length augmented.new ≡ length augmented.old }
    ensures unknowns { length solution.new ≡ length solution.old }
    ensures room { length pivots.new ≡ length pivots.old }
    ensures solution { IsTrue result → IsSolution (S.product field) rows (length solution.old)
        (entry_of (S.number field) columns augmented.old)
        (slice_index (map (S.number field) solution.new)) }
    ensures unsolvable { result ≡ false → (x : ℕ → ℕ)
        → IsSolution (S.product field) rows (length solution.old) (entry_of (S.number field) columns augmented.old) x → ⊥ }
    ensures stays { result ≡ false → solution.new ≡ solution.old }
    ensures reduced { (rank : ℕ) × IsReducedEchelon rows (length solution.old) rank (slice_index pivots.new)
        (entry_of (S.number field) columns augmented.new) }
    ensures space { HaveSameRowSpace (S.product field) rows columns (entry_of (S.number field) columns augmented.old)
        (entry_of (S.number field) columns augmented.new) }
{
    let unknowns = solution.len();
    let shape = Shape { rows, columns };
    let rank = row_reduce_augmented(field, augmented, rows, columns, unknowns, pivots);
    match find_pivot(field, augmented, shape, rank, unknowns) {
        Some(_) => false,
        None => {
            write_solution(field, solution, augmented, shape, rank, pivots);
            true
        }
    }
}

// Gives each unknown with a leading entry the right side of its row, and the others 0.
fn write_solution<S: Scalars>(
    field: S,
    solution: &mut [S::Value],
    reduced: &[S::Value],
    shape: Shape,
    rank: usize,
    pivots: &[usize],
)
    requires shape { length reduced.now ≡ shape.rows * shape.columns }
    requires unknowns { shape.columns ≡ length solution.old + 1 }
    requires room { length pivots.now ≡ shape.rows }
    requires reduced { IsReducedEchelon shape.rows (length solution.old) rank (slice_index pivots.now)
        (entry_of (S.number field) shape.columns reduced.now) }
    ensures unknowns { length solution.new ≡ length solution.old }
    ensures at_pivots { (k : ℕ) → k < rank → slice_index (map (S.number field) solution.new) (slice_index pivots.now k)
        ≡ entry_of (S.number field) shape.columns reduced.now k (length solution.old) }
    ensures elsewhere { (j : ℕ) → j < length solution.old → ((k : ℕ) → k < rank → slice_index pivots.now k ≢ j)
        → slice_index (map (S.number field) solution.new) j ≡ 0 }
{
    write_zeros(field, solution);
    for row in 0..rank {
        let column = pivots[row];
        solution[column] = entry(field, reduced, shape, row, shape.columns - 1);
    }
}

// Writes 0 to each place.
fn write_zeros<S: Scalars>(field: S, values: &mut [S::Value])
    ensures count { length values.new ≡ length values.old }
    ensures zeros { (j : ℕ) → j < length values.old → slice_index (map (S.number field) values.new) j ≡ 0 }
{
    for place in 0..values.len() {
        values[place] = field.zero();
    }
}
