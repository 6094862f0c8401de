// Matrices over GF(2), in memory of the caller: rows packed in words of 64 bits, row after row in a slice. A row of `columns` bits takes
// `columns.div_ceil(64)` words, and place j of a row is bit j % 64 of its word j / 64. Products, transposes, identity and random
// matrices, reduced row echelon forms, null spaces, inverses and linear equations; and products of matrices of bytes, row after row in a
// slice, as sums of products of matrices over GF(2).
pub use crate::byte_products::multiply_bytes_into;
pub use crate::draws::random_into;
pub use crate::identities::identity_into;
pub use crate::inverses::invert_beside;
pub use crate::null_spaces::null_space_into;
pub use crate::products::multiply_into;
pub use crate::reduction::{row_reduce, row_reduce_augmented};
pub use crate::systems::solve_augmented;
pub use crate::transposes::transpose_into;
