// Matrices over a field, in memory of the caller: row after row in a slice, so that entry (i, j) of a matrix of `columns` columns stands at
// place i * columns + j. `Scalars` is what a place holds and how it is computed with: for the elements of a field `F` it
// is `Elements<F>`, as in `row_reduce(Elements::<F>::new(), ..)`, and for a field whose modulus is chosen at run time that field.
pub use crate::columns::{ColumnCopy, copy_columns};
pub use crate::decompositions::plu_decompose;
pub use crate::determinants::determinant;
pub use crate::identities::identity_into;
pub use crate::inverses::invert_beside;
pub use crate::matrix_laws::{
    determinant_tells_inverses, determinants_multiply, null_space_is_kept,
    reduced_echelon_is_unique,
};
pub use crate::null_spaces::{leads_at, null_space_into};
pub use crate::products::{multiply_into, transpose_into};
pub use crate::reduction::{row_reduce, row_reduce_augmented};
pub use crate::scalars::{Elements, Scalars};
pub use crate::systems::solve_augmented;
pub use packed_lanes::random_into;
