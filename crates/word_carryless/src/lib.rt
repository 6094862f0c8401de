//! The carryless product of words, that is of binary polynomials, and its remainder modulo two published polynomials.
//!
//! Bit i of a word is the coefficient of x^i.
#![tactic(auto)]

mod fold;
mod inverse;
mod lanes;
mod laws;
mod masked;
mod modular;
mod nibbles;
mod power_maps;
mod product;
mod root;
mod split;
mod square;
mod word_vector;

pub use crate::fold::{reduce_64, reduce_128};
pub use crate::inverse::{invert_mod_64, invert_mod_128};
pub use crate::lanes::{
    halves_of, multiply_128_twice, multiply_halves, multiply_mod_128_four_times,
    multiply_mod_128_twice, spill, times_tail,
};
pub use crate::laws::{carry_isolation, carry_isolation_in_lanes, class_is_places};
pub use crate::masked::{Classes, masked_product, masked_products, multiply_low_64, word_of_class};
pub use crate::modular::{multiply_mod_64, multiply_mod_128, square_mod_64, square_mod_128};
pub use crate::nibbles::{bytes_of_128, number_of_bytes};
pub use crate::power_maps::{
    square_3_times_mod_128, square_7_times_mod_128, square_14_times_mod_128,
    square_28_times_mod_128, square_63_times_mod_128,
};
pub use crate::product::{
    multiply_32, multiply_64, multiply_64_twice, multiply_128, multiply_by_power_128,
};
pub use crate::root::{compact_64, compact_128, sqrt_mod_64, sqrt_mod_128};
pub use crate::split::{join_128, split_64, split_128};
pub use crate::square::{carryless_square_64, carryless_square_128, spread_32};
pub use crate::word_vector::WordVector;
