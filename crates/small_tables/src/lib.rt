//! Tables of elements of a small field, bits or bytes, packed into elements of a large one, and openings of their values: a table of bits is
//! committed to at a 128th of the size of a table of as many elements of 128 bits (B. Diamond and J. Posen, Polylogarithmic proofs for
//! multilinears over binary towers, 2024).
#![tactic(auto)]

pub mod laws;
mod small_field;
mod small_openings;

pub use crate::small_field::SmallField;
pub use crate::small_openings::{OpenedSmall, open_small, verify_small};
