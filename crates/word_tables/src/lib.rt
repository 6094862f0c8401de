//! Tables over words: changes of basis between the tower's levels of 8, 64 and 128 bits and three fields of polynomials, linear maps,
//! powers and logarithms of the tower's 8-bit level, repeated squares at every level, the bytes of AES in their own basis, and the Cantor
//! vectors. The types of the fields are in other crates.
//!
//! Bytes, many at once: vectors of bytes, tables of sixteen bytes in a register that are looked up by the halves of bytes, and matrices of
//! 8 by 8 bits, which are the linear maps of bytes.
//!
//! An element of the tower is a word whose high half multiplies the root that its level adjoins; a polynomial is a word whose bit i is
//! the coefficient of x^i. The image of bit j of the tower is the product, over the set bits m of j, of the images of the roots that the
//! levels m + 1 adjoin.
#![tactic(auto)]

mod basis;
mod byte_map;
mod cantor;
mod columns;
mod frobenius;
mod generators;
mod images;
mod laws;
mod linear;
mod literals;
mod matrix;
mod nibbles;
mod register_tables;
pub mod rijndael;
mod tables;

pub use crate::basis::{
    to_polynomial_8, to_polynomial_64, to_polynomial_128, to_polynomial_slice_64,
    to_polynomial_slice_128, to_tower_8, to_tower_64, to_tower_128, to_tower_slice_64,
    to_tower_slice_128,
};
pub use crate::byte_map::ByteMap;
pub use crate::cantor::{cantor_vector, cantor_vectors_are_solutions};
pub use crate::columns::columns_give_maps;
pub use crate::frobenius::repeated_square;
pub use crate::generators::generators_have_full_order;
pub use crate::images::map_bytes;
pub use crate::laws::{isomorphism_8, isomorphism_64, isomorphism_128, zero_and_identity};
pub use crate::linear::{LinearMap, images_give_linear_map, sum_of_images, sum_of_values};
pub use crate::matrix::{ByteMatrix, columns_are_transposed};
pub use crate::register_tables::{ByteVector, entry_sums, halves, joined};
pub use crate::tables::{
    divide_8, invert_8, multiply_8, multiply_by_root_8, sqrt_8, sqrt_16, sqrt_32, sqrt_64,
    square_8, square_16, square_32, square_64, tables_are_powers,
};
