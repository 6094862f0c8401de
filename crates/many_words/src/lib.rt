//! The slice layer: what is computed on slices of a field's words, many at once. A slice holds the field's own stored words, those in which
//! other languages hold them, or, where it is only read, elements. `Many` names for each field its best bodies, products, multiples by one
//! scalar, inverses and dot products, and from how many words on they pay; `multiply`, `multiply_by`, `add_scaled`, `invert` and `raise` go by it.
//! None takes memory, and none looks whether words are elements.
//!
//! Below it lie the ways to compute many words: slices of bits (`in_slices`, for levels of 8 bits and more), planes of bytes by one scalar
//! (`in_planes`, for levels of 16 bits and more; `scaled_bytes` for bytes and `mapped_words` for `Poly64`), vectors of words of 128
//! bits (`lanes`, `scalars`, `products`), and one word after another (`fields`, `operations`, `one_by_one`).
#![tactic(auto)]

mod bases;
mod bytes;
mod dots;
mod entries;
pub mod fields;
mod in_planes;
mod in_slices;
mod lanes;
mod many;
mod mapped_words;
mod one_by_one;
pub mod operations;
mod powers;
mod products;
mod scalars;
mod scaled_bytes;
mod word_maps;

pub use crate::bases::{ChangeOfBasis, FromTower, ToTower};
pub use crate::many::{Many, Sizes, add_scaled, invert, multiply, multiply_by};
pub use crate::one_by_one::{change_all, change_all_by};
pub use crate::powers::raise;
