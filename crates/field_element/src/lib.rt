//! Elements of the fields: one struct for all of them, with one impl of each trait, the names of the fields, the operators and
//! conversions between them, and what each field has of its own.
#![tactic(auto)]

mod algebras;
mod bytes;
mod cubic;
mod draws;
mod element;
mod linear_map;
mod names;
mod packings;
mod polynomial;
mod polynomial_words;
mod subfields;
mod tower;
mod triple_bytes;

pub use crate::element::{Coefficients, Element, HasPacking, element_of_word, word_of};
pub use crate::linear_map::LEAST_TABLED;
pub use crate::names::{
    BinaryField2, BinaryField4, BinaryField8, BinaryField16, BinaryField32, BinaryField64,
    BinaryField128, Ghash128, PackedGhash128, PackedRijndael8b, Poly64, Poly192, Rijndael8b,
};
pub use crate::packings::{read_bytes, write_bytes};
pub use crate::polynomial_words::{from_tower, from_tower_slice, to_tower, to_tower_slice};
pub use crate::subfields::Below;
