//! The field of GHASH over plain numbers: products, also of slices by a scalar, its change of basis from and to the tower,
//! masked products of words, and butterflies and the lowest stages of an additive transform.
//!
//! Bit i of a number is the coefficient of x^i, and products are modulo x^128 + x^7 + x^2 + x + 1 (NIST SP 800-38D).

pub use field_element::{from_tower, from_tower_slice, to_tower, to_tower_slice};
pub use ghash_slices::{
    HAS_HARDWARE_CLMUL, LOW_STAGES, LowStageTwiddles, butterflies_restore, butterfly_forward,
    butterfly_inverse, cantor_vectors_step_down, masked_product, masked_products, mul, mul_slice,
    points_are_distinct, square, stages_give_sums, sums_are_values,
};
