// Inverses, by reducing a matrix beside the identity matrix.
ghost use Rattle.std.specs.Prelude.{◌≡◌, ◌+◌, ◌*◌, ℕ, IsTrue, false, length};
ghost use Rattle.field_slices.specs.Matrices.{AreInverseMatrices, IsMatrixProduct, entry_of, identity_entry};

use crate::identities::write_identity;
use crate::reduction::row_reduce_augmented;
use crate::rows::Shape;
use crate::scalars::Scalars;

/// Writes the inverse of the left half of `augmented`, a matrix of `size` rows of two times `size` entries, to its right half, and returns
/// whether there is one; else nothing is said of what is left. Of what the right half had nothing is read, and the left half is lost.
/// `pivots`, of `size` places, is written too. It takes no memory.
pub fn invert_beside<S: Scalars>(
    field: S,
    augmented: &mut [S::Value],
    size: usize,
    pivots: &mut [usize],
) -> bool
    requires shape { length augmented.old ≡ size * (size + size) }
    requires room { length pivots.old ≡ size }
    ensures shape { length augmented.new ≡ length augmented.old }
    ensures room { length pivots.new ≡ length pivots.old }
    ensures inverse { IsTrue result → AreInverseMatrices (S.product field) size (entry_of (S.number field) (size + size) augmented.old)
        (λ i j. entry_of (S.number field) (size + size) augmented.new i (size + j)) }
    ensures singular { result ≡ false → (B : ℕ → ℕ → ℕ)
        → IsMatrixProduct (S.product field) size size size B (entry_of (S.number field) (size + size) augmented.old) identity_entry → ⊥ }
{
    let columns = size + size;
    let shape = Shape {
        rows: size,
        columns,
    };
    write_identity(field, augmented, shape, size);
    let rank = row_reduce_augmented(field, augmented, size, columns, size, pivots);
    rank == size
}
