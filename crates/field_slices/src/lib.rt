//! Many elements at once, over any field or ring of `field_base`: batch inversion, sums and products of slices, and powers; a slice as
//! packings and back; and polynomials over any field: values in one variable by coefficients or by values at the first elements,
//! multilinear polynomials by their values at the corners of the cube {0, 1}^n, and the rounds of sum-check for a product of two of these.
//! In the module `matrices`, matrices over a field, in memory of the caller.
//!
//! In `near_codes`, what words near linear codes are, and openings of matrices that a prover has chosen: laws alone.
#![tactic(auto)]

mod columns;
mod cube;
mod decompositions;
mod determinants;
mod horner;
mod identities;
mod inverses;
mod inversion;
mod laws;
pub mod matrices;
mod matrix_laws;
mod near_codes;
mod nodes;
mod null_spaces;
mod packings;
mod powers;
mod products;
mod reduction;
mod rounds;
mod rows;
mod scalars;
mod sums;
mod systems;

pub use crate::cube::{eq_poly, eq_poly_into, evaluate_multilinear, fold};
pub use crate::horner::{evaluate, value_at};
pub use crate::inversion::{
    batch_multiplicative_inverse, batch_multiplicative_inverse_in_place,
    batch_multiplicative_inverse_into, inverses_into,
};
pub use crate::laws::{corner_values_extend, first_coordinate_is_linear, folding_evaluates};
pub use crate::matrix_laws::{
    determinant_tells_inverses, determinants_multiply, null_space_is_kept,
    reduced_echelon_is_unique,
};
pub use crate::near_codes::{
    far_matrices_need_luck, few_blocks_miss, few_cheats_are_accepted, few_cheats_in_blocks,
    few_folds_are_near, few_points_fold_near, lines_are_near, near_is_unique, openings_need_luck,
    other_rows_miss, triples_are_near,
};
pub use crate::nodes::interpolate_at_nodes;
pub use crate::packings::powers::{packed_powers, packed_powers_vec};
pub use crate::packings::slices::{pack_slice, pack_slice_into, unpack_slice};
pub use crate::packings::sums::sum_of_lanes;
pub use crate::powers::{powers_vec, shifted_powers_vec};
pub use crate::rounds::{RoundPolynomial, honest_is_accepted};
pub use crate::scalars::{Elements, Scalars};
pub use crate::sums::{add_scaled_slice, add_slice, mul_slice};
