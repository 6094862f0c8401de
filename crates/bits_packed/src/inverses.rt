// Inverses over GF(2), by reducing a matrix beside the identity matrix.
ghost use Rattle.std.specs.Prelude.{◌≡◌, ◌+◌, ◌*◌, ◌<◌, ◌≤◌, ℕ, IsTrue, false, length};
ghost use Rattle.field_base.specs.Tower.{tower_mul};
ghost use Rattle.field_slices.specs.Matrices.{AreInverseMatrices, IsMatrixProduct, identity_entry};
ghost use Rattle.bits_packed.specs.BitMatrices.{bit_entry, words_for};

use crate::identities::write_identity;
use crate::reduction::reduce_words;
use crate::rows::Shape;

/// Writes the inverse of a matrix of `size` rows of `size` bits beside it, and returns whether there is one; else nothing is said of what
/// is left. A row of `augmented` has the words of a row of the matrix and behind them as many for a row of the inverse, whose column j
/// is thus column `64 * size.div_ceil(64) + j`. Of what these words had nothing is read, and the matrix is lost. Their bits behind the
/// columns become 0, whether there is an inverse or not. `pivots`, of `size` places, is written too. It takes no memory.
pub fn invert_beside(augmented: &mut [u64], size: usize, pivots: &mut [usize]) -> bool
    requires shape { length augmented.old ≡ size * (words_for size + words_for size) }
    requires room { length pivots.old ≡ size }
    ensures shape { length augmented.new ≡ length augmented.old }
    ensures room { length pivots.new ≡ length pivots.old }
    ensures inverse { IsTrue result → AreInverseMatrices (tower_mul 0) size
        (bit_entry (words_for size + words_for size) augmented.old)
        (λ i j. bit_entry (words_for size + words_for size) augmented.new i (64 * words_for size + j)) }
    ensures behind { (i j : ℕ) → i < size → size ≤ j → j < 64 * words_for size
        → bit_entry (words_for size + words_for size) augmented.new i (64 * words_for size + j) ≡ 0 }
    ensures singular { result ≡ false → (B : ℕ → ℕ → ℕ) → IsMatrixProduct (tower_mul 0) size size size B
        (bit_entry (words_for size + words_for size) augmented.old) identity_entry → ⊥ }
{
    let half = size.div_ceil(64);
    let shape = Shape {
        rows: size,
        words: half + half,
    };
    write_identity(augmented, shape, half);
    let rank = reduce_words(augmented, shape, size, pivots);
    rank == size
}
