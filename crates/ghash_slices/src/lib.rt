//! The field of GHASH over plain numbers: products, also of slices by a scalar, masked products of words, and butterflies and the
//! lowest stages of an additive transform.
//!
//! Bit i of a number is the coefficient of x^i, and products are modulo x^128 + x^7 + x^2 + x + 1 (NIST SP 800-38D).
#![tactic(auto)]

mod blocks;
mod laws;
mod low_stages;
mod multiples;
mod scalar_products;
mod slices;
mod split_scalar;
mod width;
mod words;

ghost use Rattle.std.specs.Prelude.{◌≡◌};
ghost use Rattle.field_base.specs.Remainder.{mul_mod, ghash_modulus};

pub use crate::laws::{
    cantor_vectors_step_down, companion_law, points_are_distinct, stages_give_sums, sums_are_values,
};
pub use crate::low_stages::{LOW_STAGES, LowStageTwiddles, run_low_stages};
pub use crate::multiples::Multiples;
pub use crate::slices::{
    LEAST_IN_LANES, add_each, add_in_lanes, add_multiples, butterflies_restore, butterfly_forward,
    butterfly_inverse, mul_slice,
};
pub use crate::width::Width;
pub use crate::words::{number_at, put_number};
use word_carryless::{multiply_mod_128, square_mod_128};
pub use word_carryless::{masked_product, masked_products};

/// Whether products are computed by a carryless-multiply instruction: never, they are made of masked integer products.
pub const HAS_HARDWARE_CLMUL: bool = false;

/// The product.
pub fn mul(a: u128, b: u128) -> u128
    ensures { result ≡ mul_mod 128 ghash_modulus a b }
{
    multiply_mod_128(a, b)
}

/// The square.
pub fn square(a: u128) -> u128
    ensures { result ≡ mul_mod 128 ghash_modulus a a }
{
    square_mod_128(a)
}
