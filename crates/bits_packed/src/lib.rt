//! Packed bits: 8 to 512 lanes of GF(2) in one value, which is a ring, and square matrices of them, transposed; and in the module `matrices`,
//! matrices over GF(2) of any shape, in memory of the caller, and products of matrices of bytes by them.
#![tactic(auto)]

mod byte_products;
mod byte_sums;
mod draws;
mod identities;
mod inverses;
mod laws;
pub mod matrices;
mod null_spaces;
mod packed;
mod pending;
mod products;
mod reduction;
mod rows;
mod systems;
mod tables;
mod transposes;

pub use crate::laws::transposing_twice_returns;
pub use crate::packed::{
    Lanes, PackedGf2, PackedGf2x8, PackedGf2x16, PackedGf2x32, PackedGf2x64, PackedGf2x128,
    PackedGf2x256, PackedGf2x512,
};
