// Linear equations over GF(2), by reducing the matrix of their coefficients beside their right sides.
ghost use Rattle.std.specs.Prelude.{◌≡◌, ◌≢◌, ◌+◌, ◌-◌, ◌*◌, ◌<◌, ◌≤◌, ℕ, IsTrue, false, length, slice_index};
ghost use Rattle.field_base.specs.Tower.{tower_mul};
ghost use Rattle.field_slices.specs.Matrices.{HaveSameRowSpace, IsReducedEchelon, IsSolution};
ghost use Rattle.bits_packed.specs.BitMatrices.{bit_entry, words_for};

use crate::reduction::{find_pivot, reduce_words};
use crate::rows::{Shape, add_entry, clear, entry};

/// Writes a solution of linear equations over GF(2) to `solution`, and returns whether there is one; else `solution` stays. A row of
/// `augmented`, a matrix of `rows` rows of `unknowns + 1` bits, is an equation: the coefficients of the unknowns, and behind them the right
/// side. The value of unknown j is bit j % 64 of word j / 64 of `solution`, which has `unknowns.div_ceil(64)` words; its bits behind the
/// unknowns are 0. Sums of rows leave the columns of the unknowns in reduced row echelon form, solvable or not, and `pivots`, of as many
/// places as there are rows, begins with the columns of its leading entries. It takes no memory.
pub fn solve_augmented(
    augmented: &mut [u64],
    rows: usize,
    unknowns: usize,
    solution: &mut [u64],
    pivots: &mut [usize],
) -> bool
    requires shape { length augmented.old ≡ rows * words_for (unknowns + 1) }
    requires unknowns { length solution.old ≡ words_for unknowns }
    requires room { length pivots.old ≡ rows }
    ensures shape { length augmented.new ≡ length augmented.old }
    ensures unknowns { length solution.new ≡ length solution.old }
    ensures room { length pivots.new ≡ length pivots.old }
    ensures solution { IsTrue result → IsSolution (tower_mul 0) rows unknowns (bit_entry (words_for (unknowns + 1)) augmented.old)
        (bit_entry (words_for unknowns) solution.new 0) }
    ensures behind { IsTrue result → (j : ℕ) → unknowns ≤ j → j < 64 * words_for unknowns
        → bit_entry (words_for unknowns) solution.new 0 j ≡ 0 }
    ensures unsolvable { result ≡ false → (x : ℕ → ℕ)
        → IsSolution (tower_mul 0) rows unknowns (bit_entry (words_for (unknowns + 1)) augmented.old) x → ⊥ }
    ensures stays { result ≡ false → solution.new ≡ solution.old }
    ensures reduced { (rank : ℕ) × IsReducedEchelon rows unknowns rank (slice_index pivots.new)
        (bit_entry (words_for (unknowns + 1)) augmented.new) }
    ensures space { HaveSameRowSpace (tower_mul 0) rows (64 * words_for (unknowns + 1))
        (bit_entry (words_for (unknowns + 1)) augmented.old) (bit_entry (words_for (unknowns + 1)) augmented.new) }
{
    let words = unknowns / 64 + 1;
    let shape = Shape { rows, words };
    let rank = reduce_words(augmented, shape, unknowns, pivots);
    match find_pivot(augmented, shape, rank, unknowns) {
        Some(_) => false,
        None => {
            write_solution(solution, augmented, shape, unknowns, rank, pivots);
            true
        }
    }
}

// Gives each unknown with a leading entry the right side of its row, and the other bits 0.
fn write_solution(
    solution: &mut [u64],
    reduced: &[u64],
    shape: Shape,
    unknowns: usize,
    rank: usize,
    pivots: &[usize],
)
    requires shape { length reduced.now ≡ shape.rows * shape.words }
    requires unknowns { length solution.old ≡ words_for unknowns }
    requires within { unknowns < 64 * shape.words }
    requires room { length pivots.now ≡ shape.rows }
    requires reduced { IsReducedEchelon shape.rows unknowns rank (slice_index pivots.now) (bit_entry shape.words reduced.now) }
    ensures unknowns { length solution.new ≡ length solution.old }
    ensures at_pivots { (k : ℕ) → k < rank → bit_entry (words_for unknowns) solution.new 0 (slice_index pivots.now k)
        ≡ bit_entry shape.words reduced.now k unknowns }
    ensures elsewhere { (j : ℕ) → j < 64 * words_for unknowns → ((k : ℕ) → k < rank → slice_index pivots.now k ≢ j)
        → bit_entry (words_for unknowns) solution.new 0 j ≡ 0 }
{
    let words = solution.len();
    let vector = Shape { rows: 1, words };
    clear(solution, 0, words);
    for row in 0..rank {
        let value = entry(reduced, shape, row, unknowns);
        add_entry(solution, vector, 0, pivots[row], value);
    }
}
